use base_types::{Call, Cap, Condition, Entity, Instr, Private, Walk};

/// A locus as the choice of its act sees it: all its parts, however its lists are kept.
#[derive(Clone, Copy, Debug)]
pub struct LocusView<'a> {
    pub registers: &'a [u64; 8],
    pub place: u8,
    pub code: &'a [Instr],
    pub host: Entity,
    pub chain: &'a [Call],
    pub privates: &'a [Private],
    /// One for each of the 32 slots.
    pub caps: &'a [Option<Cap>],
    pub walk: Option<Walk>,
    pub condition: Condition,
    pub every: u32,
    /// How many values it printed so far.
    pub printed: u64,
}
