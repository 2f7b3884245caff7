//! Tests of what reads scripts and runs them on plain states: a file for each crate, and one more for the acts of programs.
#![tactic(auto)]

#[cfg(test)]
mod history_model_tests;
#[cfg(test)]
mod plain_run_tests;
#[cfg(test)]
mod plain_show_tests;
#[cfg(test)]
mod script_read_tests;
#[cfg(test)]
mod scripts_played;
#[cfg(test)]
mod step_tests;
#[cfg(test)]
mod wanted_act_tests;
