use crate::entities::Entity;

/// A snapshot record: one entity at one version, with its vector clock, and where its spelled state lies.
#[derive(Clone, Copy, PartialEq, Eq, Debug)]
pub struct Rec {
    pub entity: Entity,
    pub version: u64,
    /// Per entity the version on which the recorded state rests.
    pub stamp: [u64; 64],
    /// Bytes of the spelled state.
    pub length: u32,
    /// The blocks that hold it in order, 0 where unused.
    pub blocks: [u32; 8],
}

/// A cut: per entity the version of the chosen record, 0 for none.
#[derive(Clone, Copy, PartialEq, Eq, Debug)]
pub struct Cut(pub [u64; 64]);
