//! Tests of the crates that read and write the parts of an image: a file for each crate.
#![tactic(auto)]

#[cfg(test)]
mod atlas_reading_tests;
#[cfg(test)]
mod blob_loading_tests;
#[cfg(test)]
mod image_parts_tests;
#[cfg(test)]
mod image_tools_flip_tests;
#[cfg(test)]
mod image_tools_tests;
#[cfg(test)]
mod part_checks_tests;
#[cfg(test)]
mod plain_parts_tests;
#[cfg(test)]
mod report_lines_tests;
#[cfg(test)]
mod small_image;
#[cfg(test)]
mod snapshot_form_tests;
#[cfg(test)]
mod snapshot_reading_locus_tests;
#[cfg(test)]
mod snapshot_reading_tests;
