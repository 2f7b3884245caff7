ghost use Rattle.std.specs.Prelude.{◌≡◌, ℕ, ◌<◌, ◌≤◌, ◌||◌, false, true, length, MatchOption};
ghost use Rattle.data_stamps.specs.Stamps.{component};
ghost use Rattle.data_cut_facts.specs.Records.{choice, IsAscending};
ghost use Rattle.data_cut_facts.specs.Searches.{place_at, entity_at, mark_at, version_at, needs_more, falls_left, IsLastOf, IsChain, IsWithin, IsLoweredTo, IsMarked, IsSearch};

use crate::MOST_RECORDS;
use crate::chains::Chains;
use base_types::{Cut, Rec};
use data_stamps::Stamp;

/// What is chosen so far: per entity the place of the chosen record, its version, and whether its stamp asks for more
/// than is chosen.
#[derive(Drop)]
pub struct Search {
    chosen: [Option<u16>; 64],
    pub cut: Stamp,
    lacking: [bool; 64],
}

/// The version of the record at the place, that of the start for none.
fn version_of(recs: &[Rec], place: Option<u16>, start: u64) -> u64
    requires { IsWithin recs.now place }
    ensures { result ≡ version_at recs.now start place }
{
    match place {
        Some(i) => recs[i as usize].version,
        None => start,
    }
}

/// The newest record that stands before the one at k, is of the same entity, and asks for no more than is chosen.
fn lowered(recs: &[Rec], chains: &Chains, k: u16, cut: &Stamp) -> Option<u16>
    requires few { length recs.now ≤ MOST_RECORDS }
    requires chain { IsChain (choice chains.now.start) recs.now (length recs.now) chains.now.before }
    requires within { k < length recs.now }
    ensures { IsLoweredTo (choice chains.now.start) recs.now k (component cut.now) result }
{
    let mut place = chains.before[k as usize];
    while let Some(i) = place {
        if cut.covers(&recs[i as usize].stamp) {
            break;
        }
        place = chains.before[i as usize];
    }
    place
}

/// Whether the record at the place asks for more than is chosen.
fn is_lacking(recs: &[Rec], place: Option<u16>, cut: &Stamp) -> bool
    requires { IsWithin recs.now place }
    ensures { IsMarked recs.now (component cut.now) place result }
{
    match place {
        Some(i) => !cut.covers(&recs[i as usize].stamp),
        None => false,
    }
}

/// Whether it asks for a later version of the entity x.
fn asks_for_later(recs: &[Rec], place: Option<u16>, x: usize, version: u64) -> bool
    requires within { IsWithin recs.now place }
    requires entity { x < 64 }
    ensures { result ≡ needs_more recs.now place x version }
{
    match place {
        Some(i) => version < recs[i as usize].stamp[x],
        None => false,
    }
}

fn versions_of(start: &Cut, recs: &[Rec], places: &[Option<u16>; 64]) -> Stamp
    requires { (x : ℕ) → IsWithin recs.now (place_at places.now x) }
    ensures { (x : ℕ) → component result x ≡ version_at recs.now (choice start.now x) (place_at places.now x) }
{
    let mut cut = Stamp::new();
    for (x, version) in cut.0.iter_mut().enumerate() {
        *version = version_of(recs, places[x], start.0[x]);
    }
    cut
}

fn marks_of(recs: &[Rec], places: &[Option<u16>; 64], cut: &Stamp) -> [bool; 64]
    requires { (x : ℕ) → IsWithin recs.now (place_at places.now x) }
    ensures { (x : ℕ) → IsMarked recs.now (component cut.now) (place_at places.now x) (mark_at result x) }
{
    let mut lacking = [false; 64];
    for (x, mark) in lacking.iter_mut().enumerate() {
        *mark = is_lacking(recs, places[x], cut);
    }
    lacking
}

/// Marks the entities whose record asks for a later version of x.
fn mark_later(
    recs: &[Rec],
    places: &[Option<u16>; 64],
    lacking: &mut [bool; 64],
    x: usize,
    version: u64,
)
    requires within { (y : ℕ) → IsWithin recs.now (place_at places.now y) }
    requires entity { x < 64 }
    ensures { (y : ℕ) → mark_at lacking.new y
        ≡ (mark_at lacking.old y || needs_more recs.now (place_at places.now y) x version) }
{
    for (y, mark) in lacking.iter_mut().enumerate() {
        *mark = *mark || asks_for_later(recs, places[y], x, version);
    }
}

impl Search {
    /// The newest record of each entity, or its start.
    pub fn new(recs: &[Rec], chains: &Chains) -> Search
        requires newest { (x : ℕ) → x < 64 → IsLastOf (choice chains.now.start) recs.now (length recs.now) x (place_at chains.now.newest x) }
        requires entities { (i : ℕ) → i < length recs.now → entity_at recs.now i < 64 }
        requires ascending { IsAscending recs.now }
        ensures { IsSearch (choice chains.now.start) recs.now (place_at result.chosen) (component result.cut) (mark_at result.lacking) }
    {
        let cut = versions_of(&chains.start, recs, &chains.newest);
        let lacking = marks_of(recs, &chains.newest, &cut);
        Search {
            chosen: chains.newest,
            cut,
            lacking,
        }
    }

    /// An entity whose chosen record asks for more than is chosen.
    pub fn uncovered(&self) -> Option<usize>
        ensures { MatchOption result
            ((x : ℕ) → mark_at self.now.lacking x ≡ false)
            (λ x. (x < 64) × (mark_at self.now.lacking x ≡ true)) }
    {
        self.lacking.iter().position(|lacking| *lacking)
    }

    /// Chooses an older record of the entity, one that asks for no more than is chosen, or the start.
    pub fn lower(&mut self, recs: &[Rec], chains: &Chains, x: usize)
        requires few { length recs.now ≤ MOST_RECORDS }
        requires ascending { IsAscending recs.now }
        requires chain { IsChain (choice chains.now.start) recs.now (length recs.now) chains.now.before }
        requires search { IsSearch (choice chains.now.start) recs.now (place_at self.old.chosen) (component self.old.cut) (mark_at self.old.lacking) }
        requires entity { x < 64 }
        requires lacking { mark_at self.old.lacking x ≡ true }
        ensures search { IsSearch (choice chains.now.start) recs.now (place_at self.new.chosen) (component self.new.cut) (mark_at self.new.lacking) }
        ensures falls { falls_left self.new.chosen < falls_left self.old.chosen }
    {
        if let Some(k) = self.chosen[x] {
            let place = lowered(recs, chains, k, &self.cut);
            let version = version_of(recs, place, chains.start.0[x]);
            self.chosen[x] = place;
            self.cut.0[x] = version;
            self.lacking[x] = false;
            mark_later(recs, &self.chosen, &mut self.lacking, x, version);
        }
    }
}
