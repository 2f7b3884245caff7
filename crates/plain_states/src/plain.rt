ghost use Rattle.std.specs.Prelude.{◌≡◌};
ghost use Rattle.model_acts.specs.Views.{view_of};
ghost use Rattle.plain_states.specs.Plains.{locus_of};

use base_types::{Call, Cap, Condition, Entity, Instr, Private, Region, Walk};
use model_acts::LocusView;
use std::collections::BTreeMap;

/// The states of all entities that are born. Containers and loci stand in the order of their numbers, which are 1 on
/// and 41 on.
#[derive(Drop, Debug)]
pub struct Plain {
    pub atlas: PlainAtlas,
    pub containers: Vec<PlainContainer>,
    pub loci: Vec<PlainLocus>,
}

/// The names by number, and the counted edges, ascending by both numbers.
#[derive(Drop, Debug)]
pub struct PlainAtlas {
    pub containers: Vec<String>,
    pub loci: Vec<String>,
    pub edges: Vec<Edge>,
}

/// The container `from` shows `count` regions of the container `to`, one at least.
#[derive(Clone, Copy, PartialEq, Eq, Debug)]
pub struct Edge {
    pub from: u8,
    pub to: u8,
    pub count: u8,
}

/// A container: the words that were stored in it by address, the supplier's elsewhere.
#[derive(Drop, Debug)]
pub struct PlainContainer {
    pub pages: u16,
    pub tag: u64,
    pub every: u32,
    pub entry: Option<u8>,
    pub code: Vec<Instr>,
    pub regions: Vec<Region>,
    /// One for each of the 32 slots.
    pub caps: Vec<Option<Cap>>,
    pub words: BTreeMap<u64, u64>,
}

/// A locus.
#[derive(Drop, Debug)]
pub struct PlainLocus {
    pub registers: [u64; 8],
    pub place: u8,
    pub code: Vec<Instr>,
    pub host: Entity,
    pub chain: Vec<Call>,
    pub privates: Vec<Private>,
    /// One for each of the 32 slots.
    pub caps: Vec<Option<Cap>>,
    pub walk: Option<Walk>,
    pub condition: Condition,
    pub every: u32,
    /// How many values it printed so far.
    pub printed: u64,
}

impl PlainLocus {
    /// The locus as the choice of its act sees it.
    pub fn view(&self) -> LocusView
        ensures { view_of result ≡ locus_of self.now }
    {
        LocusView {
            registers: &self.registers,
            place: self.place,
            code: &self.code,
            host: self.host,
            chain: &self.chain,
            privates: &self.privates,
            caps: &self.caps,
            walk: self.walk,
            condition: self.condition,
            every: self.every,
            printed: self.printed,
        }
    }
}
