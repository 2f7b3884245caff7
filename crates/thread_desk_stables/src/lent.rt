// Cells that a desk knows, lent from under their locks for a Stable.
ghost use Rattle.std.specs.Prelude.{◌≡◌, IfOk, length, map};
ghost use Rattle.std.specs.Sync.Mutex.{mutex_guard_value};
ghost use Rattle.thread_desk_stables.specs.Rows.{keeping_of};
ghost use Rattle.thread_stables.specs.thread_settling.Rows.{IsRow};

use base_bytes::Blob;
use base_types::Entry;
use edge_disk::Disk;
use std::alloc::Global;
use std::snapshot::Snapshot;
use std::sync::{Mutex, MutexGuard, Wait};
use thread_desk_looks::{Board, SightedCell};
use thread_history::Run;
use thread_stables::{
    Cell, CellInLock, LentCell, Notes, RowFault, Stopped, Store, lend_row, record_lent,
};
use thread_ties::{Authority, Bond};

/// Cells that a desk knows: whenever a lock is free the entity is what the front of the history that its share knows makes it.
pub struct InDesk;

impl<D: Disk, B: Board<D>> CellInLock<InDesk> for SightedCell<D, B> {
    ghost use Rattle.thread_desk_stables.specs.Rows.{keeping_of};

    ghost keeping = { keeping_of };

    fn number(&self) -> u8 {
        self.locked.cell.clock.entity.number()
    }

    fn as_cell(&self) -> &Cell {
        &self.locked.cell
    }
}

impl<D: Disk, B: Board<D>> LentCell<InDesk, D, B> for SightedCell<D, B> {
    ghost use Rattle.thread_desk_stables.specs.Rows.{LetsGo};

    ghost fits = { LetsGo D.Disk B.terms.told B.begin B.kept };

    fn meet(&mut self, all: &mut Authority<Cell, B>) {
        self.locked.meet(all);
    }

    fn make_record(
        &mut self,
        all: &mut Authority<Cell, B>,
        store: &mut Store<D>,
        notes: &mut Notes,
        blob: &mut Blob,
    ) -> Result<(), Stopped> {
        let came = record_lent(all, &mut self.locked, store, notes, blob);
        self.locked.meet(all);
        let seen = Snapshot::of(store);
        self.seen = seen;
        came
    }
}

/// Takes the locks of all cells, in ascending number, and waits for each. The cell under each lock is of the lock's number, or it is told
/// which isn't. It takes memory for 64 guards.
pub fn lend_all<'b, R: Wait, D: Disk, B: Board<D>>(
    rt: &R,
    alloc: Global,
    locks: &'b [Mutex<SightedCell<D, B>>],
) -> Result<Vec<MutexGuard<'b, SightedCell<D, B>>>, RowFault>
    requires all { length locks.now ≡ 64 }
    ensures row { IfOk result (λ guards. IsRow (map (λ g. keeping_of (mutex_guard_value g)) guards.items)) }
{
    lend_row::<R, InDesk, SightedCell<D, B>>(rt, alloc, locks)
}
