//! Tests of runs on threads, by the public call over disks, sources and sinks in memory.
#![tactic(auto)]

#[cfg(test)]
mod client_tests;
#[cfg(test)]
mod drawn_tests;
#[cfg(test)]
mod fault_tests;
#[cfg(test)]
mod gate_tests;
mod gates;
#[cfg(test)]
mod row_tests;
#[cfg(test)]
mod stop_tests;
