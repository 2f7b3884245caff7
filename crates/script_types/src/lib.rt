//! The form of a script: the containers and loci, with their programs, that a run gives birth to,
//! the rules that every script keeps, and the answers of those who refuse one.
#![tactic(auto)]

mod refusals;

use base_types::{Instr, Rights};
pub use refusals::{Refusal, ScriptFault, Why};

/// A script. Ranges and rules of its parts are those of `IsScript` in specs/.
#[derive(Drop, Debug)]
pub struct Script {
    /// Steps that each locus makes at most in one run, 1 to 40,000.
    pub steps: u32,
    /// Frames of each container, 1 to 256.
    pub frames: u16,
    /// Names of loci that are stepped first, one step for each name.
    pub order: Vec<String>,
    pub containers: Vec<ScriptContainer>,
    pub loci: Vec<ScriptLocus>,
}

/// A container's table.
#[derive(Drop, Debug)]
pub struct ScriptContainer {
    pub name: String,
    /// 1 to 256.
    pub pages: u16,
    /// What the supplier makes the container's words from, below 2^63.
    pub tag: u64,
    /// How many versions may pass between snapshots, as the manager's policy reads it.
    pub every: u32,
    pub code: Vec<Instr>,
    /// The place at which an invocation begins.
    pub entry: Option<u8>,
    pub regions: Vec<ScriptRegion>,
    /// They fill the slots from 0.
    pub caps: Vec<ScriptCap>,
}

/// A locus's table.
#[derive(Drop, Debug)]
pub struct ScriptLocus {
    pub name: String,
    /// The container in which the locus begins.
    pub host: String,
    /// The place at which it begins.
    pub at: u8,
    pub every: u32,
    pub caps: Vec<ScriptCap>,
}

/// Pages `at` to `at + count - 1` show the pages of `target` from `from` on.
#[derive(Drop, Debug)]
pub struct ScriptRegion {
    pub at: u8,
    pub target: String,
    pub from: u8,
    pub count: u16,
    pub rights: Rights,
}

/// A capability on the entity of this name.
#[derive(Drop, Debug)]
pub struct ScriptCap {
    pub entity: String,
    pub rights: Rights,
}
