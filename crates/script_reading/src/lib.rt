//! Reads scripts from TOML: the containers and loci, with their programs, that a run gives birth to, and the managers that answer in it.
#![tactic(auto)]

mod fields;
mod keys;
mod links;
mod managers;
mod programs;
mod reading;
mod strings;
mod tables;

pub use base_managers::{ScriptManager, ScriptManagers};
pub use reading::{ManagedScript, read_script};
pub use script_types::{
    Refusal, Script, ScriptCap, ScriptContainer, ScriptFault, ScriptLocus, ScriptRegion, Why,
};
