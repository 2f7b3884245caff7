//! Kernels whose cells lie under locks, driven on one thread over disks in memory, beside kernels that own their cells.
#![tactic(auto)]

#[cfg(test)]
mod drawn_tests;
#[cfg(test)]
mod kind_tests;
#[cfg(test)]
mod kinds;
#[cfg(test)]
mod row_tests;
#[cfg(test)]
mod runs;
