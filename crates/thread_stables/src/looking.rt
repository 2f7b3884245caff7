// One look at a locus for which all cells are lent.
ghost use Rattle.std.specs.Prelude.{◌≡◌, ◌↔◌, [], None, IfOk, IfSome, map};
ghost use Rattle.std.specs.Sync.Mutex.{mutex_guard_value};
ghost use Rattle.kernel_core_facts.specs.table_laws.Tables.{AreClean};
ghost use Rattle.kernel_core_facts.specs.kernel_record_facts.Cells.{words_on};
ghost use Rattle.kernel_core_facts.specs.kernel_commit_facts.Parts.{parts_of};
ghost use Rattle.kernel_core_facts.specs.kernel_commit_facts.Steady.{IsSteady};
ghost use Rattle.kernel_core_facts.specs.Looked.{IfMade, StepsOnce};
ghost use Rattle.thread_looks.specs.thread_cell_steps.Advancing.{TouchesThese, WantsOthers};
ghost use Rattle.thread_looks.specs.Looking.{LooksAsSerial};
ghost use Rattle.thread_settling.specs.Rows.{AreSameSeats, IsRow};

use crate::behind::look_behind;
use base_bytes::Blob;
use base_types::{Entity, Entry};
use edge_disk::Disk;
use edge_managers::{Gate, Policy, Supplier};
use kernel_core_facts::{Cell, Looked, Notes, Stopped, Store};
use std::sync::MutexGuard;
use thread_cells::LockedCell;
use thread_history::Run;
use thread_looks::make_one;
use thread_ties::{Authority, Bond};

/// The step of one of the lent cells, by it alone, with its entry noted; `None`, and nothing done, exactly where its act touches others.
fn make_at<D: Disk, B: Bond<Cell> + Run<Entry>, S: Supplier, P: Policy>(
    all: &mut Authority<Cell, B>,
    cells: &mut [MutexGuard<'_, LockedCell<B>>],
    me: Entity,
    store: &mut Store<D>,
    notes: &mut Notes,
    gate: &Gate<S, P>,
) -> Option<Result<Looked, Stopped>>
    requires keeps { S.keeps gate.now.supply }
    requires row { IsRow (map mutex_guard_value cells.old) }
    requires steady { IsSteady D.Disk (parts_of store.old all.old notes.old) }
    requires clean { D.tells → AreClean (S.word gate.now.supply) (words_on (D.reading store.old.disk)) all.old }
    ensures row { IsRow (map mutex_guard_value cells.new) }
    ensures seats { AreSameSeats (map mutex_guard_value cells.old) (map mutex_guard_value cells.new) }
    ensures unfit { (result ≡ None) ↔ WantsOthers all.old me [] }
    ensures undone { result ≡ None → parts_of store.new all.new notes.new ≡ parts_of store.old all.old notes.old }
    ensures makes { IfSome result (StepsOnce D.Disk (S.word gate.now.supply) me (parts_of store.old all.old notes.old) (parts_of store.new all.new notes.new)) }
    ensures touches { IfSome result (λ came. IfOk came (λ o. IfMade o (TouchesThese all.old me []))) }
{
    let i = me.number() as usize;
    let locus = &mut *cells[i];
    make_one(all, locus, store, notes, gate)
}

/// One look at a locus whose step touches it alone, where all 64 cells are lent, each at the place of its number: the step, and behind it the
/// Stable that it owes, or its Snap where one is wished. `None`, and nothing done, exactly where its act touches another entity.
///
/// It is the look of the serial kernel, with its stops (`LooksAsSerial`). The cells keep their places and numbers, and their shares know what
/// they knew. It takes no memory. What was in `blob` is lost.
pub fn look_all<D: Disk, B: Bond<Cell> + Run<Entry>, S: Supplier, P: Policy>(
    all: &mut Authority<Cell, B>,
    cells: &mut [MutexGuard<'_, LockedCell<B>>],
    me: Entity,
    store: &mut Store<D>,
    notes: &mut Notes,
    blob: &mut Blob,
    gate: &Gate<S, P>,
) -> Option<Result<Looked, Stopped>>
    requires keeps { S.keeps gate.now.supply }
    requires wishes { P.keeps gate.now.policy }
    requires row { IsRow (map mutex_guard_value cells.old) }
    requires steady { IsSteady D.Disk (parts_of store.old all.old notes.old) }
    requires clean { D.tells → AreClean (S.word gate.now.supply) (words_on (D.reading store.old.disk)) all.old }
    ensures seats { AreSameSeats (map mutex_guard_value cells.old) (map mutex_guard_value cells.new) }
    ensures unfit { (result ≡ None) ↔ WantsOthers all.old me [] }
    ensures undone { result ≡ None → parts_of store.new all.new notes.new ≡ parts_of store.old all.old notes.old }
    ensures looks { IfSome result (LooksAsSerial D.Disk (S.word gate.now.supply) (P.wish gate.now.policy) me (parts_of store.old all.old notes.old) (parts_of store.new all.new notes.new)) }
    ensures touches { IfSome result (λ came. IfOk came (λ o. IfMade o (TouchesThese all.old me []))) }
{
    match make_at(all, cells, me, store, notes, gate) {
        None => None,
        Some(came) => Some(look_behind(all, cells, me, store, notes, blob, came, gate)),
    }
}
