//! Tests of the crates that stand on few others or none: a file for each crate.
#![tactic(auto)]

#[cfg(test)]
mod atlas_dir_tests;
#[cfg(test)]
mod block_code_tests;
#[cfg(test)]
mod cap_list_tests;
#[cfg(test)]
mod command_words_tests;
#[cfg(test)]
mod disk_tally_tests;
#[cfg(test)]
mod disk_trait_tests;
#[cfg(test)]
mod frame_table_tests;
#[cfg(test)]
mod hop_base_tests;
#[cfg(test)]
mod instr_set_tests;
#[cfg(test)]
mod manager_gate_tests;
#[cfg(test)]
mod page_shadow_tests;
#[cfg(test)]
mod region_map_tests;
#[cfg(test)]
mod stream_edge_tests;
#[cfg(test)]
mod vector_stamps_tests;
