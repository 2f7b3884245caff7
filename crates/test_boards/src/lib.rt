//! Boards of locks, driven by threads over disks in memory. Their histories are made again by a kernel that owns its cells.
#![tactic(auto)]

#[cfg(test)]
mod again;
#[cfg(test)]
mod boards;
#[cfg(test)]
mod cases;
#[cfg(test)]
mod drawn_tests;
#[cfg(test)]
mod kinds;
#[cfg(test)]
mod looks;
#[cfg(test)]
mod meeting;
#[cfg(test)]
mod meeting_tests;
#[cfg(test)]
mod plain;
#[cfg(test)]
mod quiet_disk;
#[cfg(test)]
mod row_tests;
#[cfg(test)]
mod stop_tests;
#[cfg(test)]
mod workers;
