//! Tests of `container_copy`: containers copied in images made by hand over disks in memory, which fail, stop and run out of blocks.
#![tactic(auto)]

#[cfg(test)]
mod calls;
#[cfg(test)]
mod copied_tests;
#[cfg(test)]
mod images;
#[cfg(test)]
mod refused_tests;
#[cfg(test)]
mod stop_tests;
