// All lent cells hear the present history.
ghost use Rattle.std.specs.Prelude.{◌≡◌, map};
ghost use Rattle.std.specs.Sync.Mutex.{mutex_guard_value};
ghost use Rattle.thread_desk_looks.specs.thread_desk.Sights.{AreKnown};
ghost use Rattle.thread_desk_stables.specs.Rows.{AllHeard, keeping_of};
ghost use Rattle.thread_stables.specs.thread_settling.Rows.{IsRow};

use base_types::Entry;
use edge_disk::Disk;
use std::sync::MutexGuard;
use thread_desk_looks::{Board, SightedCell, hear_lent};
use thread_history::HistoryAuthority;
use thread_stables::{Cell, Store};
use thread_ties::Authority;

/// Tells a lent cell the present history, of which it is what the cells are that are known.
fn hear_one<D: Disk, B: Board<D>>(
    all: &mut Authority<Cell, B>,
    annals: &mut HistoryAuthority<Entry, B>,
    store: &Store<D>,
    cell: &mut SightedCell<D, B>,
)
    requires known { AreKnown D.Disk B.terms.told B.begin B.kept store.now all.old annals.old }
    ensures same { (all.new ≡ all.old) × (annals.new ≡ annals.old) }
    ensures cell { (cell.new.number ≡ cell.old.number) × (cell.new.known ≡ annals.old) }
{
    cell.seen = hear_lent(all, annals, store, &mut cell.locked);
}

/// Tells each lent cell the present history, of which the cells are what is known of them.
pub(crate) fn hear_all<D: Disk, B: Board<D>>(
    all: &mut Authority<Cell, B>,
    annals: &mut HistoryAuthority<Entry, B>,
    store: &Store<D>,
    cells: &mut [MutexGuard<'_, SightedCell<D, B>>],
)
    requires row { IsRow (map (λ g. keeping_of (mutex_guard_value g)) cells.old) }
    requires known { AreKnown D.Disk B.terms.told B.begin B.kept store.now all.old annals.old }
    ensures same { (all.new ≡ all.old) × (annals.new ≡ annals.old) }
    ensures row { IsRow (map (λ g. keeping_of (mutex_guard_value g)) cells.new) }
    ensures heard { AllHeard annals.old (map (λ g. keeping_of (mutex_guard_value g)) cells.new) }
{
    for i in 0..64 {
        let cell = &mut *cells[i];
        hear_one(all, annals, store, cell);
    }
}
