//! The greatest consistent cut over snapshot records that stand on one another by their stamps (Johnson and
//! Zwaenepoel 1990): found by lowering each entity's choice until no chosen record needs more than is chosen.
#![tactic(auto)]

ghost use Rattle.std.specs.Prelude.{◌≤◌, ◌↔◌, length, IsTrue};
ghost use Rattle.model_cut_laws.specs.model_kernel.Choices.{IsClosedChoice, IsGreatest};
ghost use Rattle.model_cut_laws.specs.Agreeing.{nothing};
ghost use Rattle.model_cut_laws.specs.Records.{commits_of};
ghost use Rattle.data_cut_facts.specs.Records.{choice, IsAscending};

mod chains;
mod search;

use base_types::{Cut, Rec};
use chains::Chains;
use search::Search;

/// The records of a log at most.
pub const MOST_RECORDS: usize = 640;

/// Whether no version of an entity is below an earlier one of it in the list.
pub fn is_ascending(recs: &[Rec]) -> bool
    ensures { IsTrue result ↔ IsAscending recs.now }
{
    let mut newest = [0; 64];
    for rec in recs {
        let x = rec.entity.number() as usize;
        if rec.version < newest[x] {
            return false;
        }
        newest[x] = rec.version;
    }
    true
}

/// The greatest closed choice, per entity the version of the record that it takes, or that at the start where it takes none. A
/// choice is closed where the stamp of each chosen record asks for no later version of any entity than the choice has.
///
/// One pass, which looks at no stamp, links the records of each entity above its start. Then a stamp is compared with the
/// choice when its entity's choice falls to that record, and once at the start if it is its entity's newest: so once at most,
/// and never that of a record at or below the start. After each fall of an entity, of which there are at most as many as
/// records above the start, its component is looked at in each chosen stamp.
pub fn greatest_from(start: &Cut, recs: &[Rec]) -> Cut
    requires few { length recs.now ≤ MOST_RECORDS }
    requires ascending { IsAscending recs.now }
    ensures { IsGreatest (choice start.now) (commits_of recs.now) (choice result) }
{
    let chains = Chains::of(start, recs);
    let mut search = Search::new(recs, &chains);
    while let Some(x) = search.uncovered() {
        search.lower(recs, &chains, x);
    }
    Cut(search.cut.0)
}

/// The greatest closed choice, where an entity without a chosen record has 0. What it costs is said at [`greatest_from`].
pub fn greatest(recs: &[Rec]) -> Cut
    requires few { length recs.now ≤ MOST_RECORDS }
    requires ascending { IsAscending recs.now }
    ensures { IsGreatest nothing (commits_of recs.now) (choice result) }
{
    greatest_from(&Cut([0; 64]), recs)
}

/// The greatest closed choice, from one that is closed: that of all records from the greatest one of those before the last.
///
/// No stamp of a record at or below `old` is looked at, and one above it once at most. So the stamps that are looked at don't
/// grow with the log, but with the records that wait above `old`: where each cut takes the last record, there is one. The pass
/// over `recs` looks at entity and version of each. Whoever keeps a long log hands over what stands at or above `old`, and what
/// follows: the choice is the same (`model_cut_laws::raise_law`), and these are at most one record an entity and those that wait.
pub fn raise(recs: &[Rec], old: &Cut) -> Cut
    requires few { length recs.now ≤ MOST_RECORDS }
    requires ascending { IsAscending recs.now }
    requires closed { IsClosedChoice nothing (commits_of recs.now) (choice old.now) }
    ensures { IsGreatest nothing (commits_of recs.now) (choice result) }
{
    greatest_from(old, recs)
}
