ghost use Rattle.std.specs.Prelude.{◌≡◌, ℕ, ◌<◌, ◌≤◌, length};
ghost use Rattle.data_cut_facts.specs.Records.{choice};
ghost use Rattle.data_cut_facts.specs.Searches.{place_at, entity_at, IsLastOf, IsChain};

use crate::MOST_RECORDS;
use base_types::{Cut, Rec};

/// The records of each entity above a start, linked from the newest to the oldest by their places in the list.
#[derive(Drop)]
pub struct Chains {
    pub start: Cut,
    pub newest: [Option<u16>; 64],
    /// For each record the one before it of the same entity.
    pub before: [Option<u16>; MOST_RECORDS],
}

impl Chains {
    pub fn of(start: &Cut, recs: &[Rec]) -> Chains
        requires { length recs.now ≤ MOST_RECORDS }
        ensures start { result.start ≡ start.now }
        ensures newest { (x : ℕ) → x < 64 → IsLastOf (choice start.now) recs.now (length recs.now) x (place_at result.newest x) }
        ensures before { IsChain (choice start.now) recs.now (length recs.now) result.before }
        ensures entities { (i : ℕ) → i < length recs.now → entity_at recs.now i < 64 }
    {
        let mut newest = [None; 64];
        let mut before = [None; MOST_RECORDS];
        for (i, rec) in recs.iter().enumerate() {
            let x = rec.entity.number() as usize;
            before[i] = newest[x];
            if start.0[x] < rec.version {
                newest[x] = Some(i as u16);
            }
        }
        Chains {
            start: *start,
            newest,
            before,
        }
    }
}
