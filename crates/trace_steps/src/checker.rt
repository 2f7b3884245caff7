//! What a checker of histories keeps.
use base_types::Entity;
use plain_states::Plain;
use trace_state::{Clocks, Cuts, Wishes};

/// All that the rules of a legal run look at, behind the entries so far.
#[derive(Drop)]
pub struct Checker {
    pub state: Plain,
    pub versions: [u64; 64],
    pub clocks: Clocks,
    pub wishes: Wishes,
    pub cuts: Cuts,
    /// How many steps each locus made.
    pub made: [u32; 64],
    /// All entries so far are births.
    pub began: bool,
    /// The actor of an owed Stable.
    pub owed: Option<Entity>,
    /// The owed Stable was cut short.
    pub short: bool,
    /// The script has a name that is not born.
    pub births_left: bool,
    /// A record was tried, with which the history ends.
    pub tried: bool,
}
