// What comes behind a step for which all cells are lent: the Stable that it owes, or the Snaps of what it wrote.
ghost use Rattle.std.specs.Prelude.{◌≡◌, ◌∷◌, ◌+◌, ◌<◌, [], ℕ, IfOk, Ok, OnOk, map};
ghost use Rattle.std.specs.Sync.Mutex.{mutex_guard_value};
ghost use Rattle.kernel_core_facts.specs.table_births.model_kernel.State.{Supply};
ghost use Rattle.kernel_core_facts.specs.kernel_commit_facts.Parts.{parts_of, Parts};
ghost use Rattle.kernel_core_facts.specs.kernel_commit_facts.Steady.{IsSteady, entries_taken, steps_to_come};
ghost use Rattle.kernel_core_facts.specs.model_serial.Serial.{written_in};
ghost use Rattle.kernel_core_facts.specs.Looked.{IfMade, StepsOnce};
ghost use Rattle.kernel_core_facts.specs.Stepping.{is_owing};
ghost use Rattle.kernel_core_facts.specs.declared.looked.Looked.TheVariants as ALooked;
ghost use Rattle.thread_settling.specs.thread_commits.Snapping.{SnapsWritten, WritesAmong};
ghost use Rattle.thread_looks.specs.Behind.{KeepsBehind};
ghost use Rattle.thread_looks.specs.Looking.{LooksAsSerial};
ghost use Rattle.thread_settling.specs.Rows.{AreSameSeats, IsRow};

use base_bytes::Blob;
use base_types::{Entity, Entry};
use edge_disk::Disk;
use edge_managers::{Gate, Policy, Supplier};
use kernel_core_facts::{Cell, Looked, Made, Notes, Stopped, Store, owes_stable};
use std::sync::MutexGuard;
use thread_cells::LockedCell;
use thread_history::Run;
use thread_settling::{Bare, settle_lent, snap_touched_one};
use thread_ties::{Authority, Bond};

/// The Snap of the locus behind a step that wrote no other, where its wish is open.
fn snap_at<D: Disk, B: Bond<Cell> + Run<Entry>, S: Supplier, P: Policy>(
    all: &mut Authority<Cell, B>,
    cells: &mut [MutexGuard<'_, LockedCell<B>>],
    me: Entity,
    store: &mut Store<D>,
    notes: &mut Notes,
    blob: &mut Blob,
    entry: &Entry,
    gate: &Gate<S, P>,
) -> Result<(), Stopped>
    requires wishes { P.keeps gate.now.policy }
    requires row { IsRow (map mutex_guard_value cells.old) }
    requires steady { IsSteady D.Disk (parts_of store.old all.old notes.old) }
    requires among { WritesAmong entry.now (me ∷ []) }
    ensures seats { AreSameSeats (map mutex_guard_value cells.old) (map mutex_guard_value cells.new) }
    ensures snaps { SnapsWritten D.Disk (P.wish gate.now.policy) (written_in entry.now.touched) result (parts_of store.old all.old notes.old) (parts_of store.new all.new notes.new) }
{
    let i = me.number() as usize;
    let locus = &mut *cells[i];
    snap_touched_one(all, locus, store, notes, blob, entry, gate)
}

/// Behind a step that was made by the locus alone: the Stable that it owes, or its Snap where its wish is open.
fn keep_behind<D: Disk, B: Bond<Cell> + Run<Entry>, S: Supplier, P: Policy>(
    all: &mut Authority<Cell, B>,
    cells: &mut [MutexGuard<'_, LockedCell<B>>],
    me: Entity,
    store: &mut Store<D>,
    notes: &mut Notes,
    blob: &mut Blob,
    made: &Made,
    gate: &Gate<S, P>,
) -> Result<(), Stopped>
    requires wishes { P.keeps gate.now.policy }
    requires row { IsRow (map mutex_guard_value cells.old) }
    requires steady { IsSteady D.Disk (parts_of store.old all.old notes.old) }
    requires spare { steps_to_come all.old + entries_taken notes.old.entries < notes.old.room }
    requires among { WritesAmong made.now.entry (me ∷ []) }
    ensures seats { AreSameSeats (map mutex_guard_value cells.old) (map mutex_guard_value cells.new) }
    ensures keeps { KeepsBehind D.Disk (P.wish gate.now.policy) (is_owing made.now.instr made.now.entry.answer) made.now.entry result (parts_of store.old all.old notes.old) (parts_of store.new all.new notes.new) }
{
    if owes_stable(made) {
        let actor = made.entry.actor;
        return settle_lent::<D, B, Bare, LockedCell<B>>(all, cells, store, notes, blob, actor);
    }
    snap_at(all, cells, me, store, notes, blob, &made.entry, gate)
}

/// Behind what came of a step by the locus alone: the Stable that it owes, or its Snap where its wish is open. Where no step was made, nothing
/// is done.
pub(crate) fn look_behind<D: Disk, B: Bond<Cell> + Run<Entry>, S: Supplier, P: Policy>(
    all: &mut Authority<Cell, B>,
    cells: &mut [MutexGuard<'_, LockedCell<B>>],
    me: Entity,
    store: &mut Store<D>,
    notes: &mut Notes,
    blob: &mut Blob,
    came: Result<Looked, Stopped>,
    gate: &Gate<S, P>,
) -> Result<Looked, Stopped>
    requires wishes { P.keeps gate.now.policy }
    requires row { IsRow (map mutex_guard_value cells.old) }
    requires steady { OnOk came (IsSteady D.Disk (parts_of store.old all.old notes.old)) }
    requires spare { IfOk came (λ o. IfMade o (λ _. steps_to_come all.old + entries_taken notes.old.entries < notes.old.room)) }
    requires among { IfOk came (λ o. IfMade o (λ m. WritesAmong m.entry (me ∷ []))) }
    ensures seats { AreSameSeats (map mutex_guard_value cells.old) (map mutex_guard_value cells.new) }
    ensures same { IfOk result (λ o. IfMade o (λ m. came ≡ Ok (ALooked.Made m))) }
    ensures looks { (supply : Supply) (old : Parts D) → IsSteady D.Disk old → StepsOnce D.Disk supply me old (parts_of store.old all.old notes.old) came
        → LooksAsSerial D.Disk supply (P.wish gate.now.policy) me old (parts_of store.new all.new notes.new) result }
{
    match came {
        Err(why) => Err(why),
        Ok(looked) => match looked {
            Looked::Idle(why) => Ok(Looked::Idle(why)),
            Looked::Made(made) => {
                match keep_behind(all, cells, me, store, notes, blob, &made, gate) {
                    Ok(()) => Ok(Looked::Made(made)),
                    Err(why) => Err(why),
                }
            }
        },
    }
}
