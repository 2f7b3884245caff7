//! Tests of the commands and of what they are made of: a file for each crate.
#![tactic(auto)]

#[cfg(test)]
mod copy_command_tests;
#[cfg(test)]
mod drill_gen_tests;
#[cfg(test)]
mod entry_lines_tests;
#[cfg(test)]
mod fault_sentences_tests;
#[cfg(test)]
mod format_command_tests;
#[cfg(test)]
mod printed_lines_tests;
#[cfg(test)]
mod reading_commands_tests;
#[cfg(test)]
mod restart_tests;
#[cfg(test)]
mod run_command_tests;
#[cfg(test)]
mod run_opening_tests;
#[cfg(test)]
mod script_source_tests;
#[cfg(test)]
mod trace_command_tests;
#[cfg(test)]
mod traced_lines_tests;
