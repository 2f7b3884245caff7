// The Stable that a step owes, and with it the whole look.
ghost use Rattle.std.specs.Prelude.{◌≡◌, ◌↔◌, ◌+◌, ◌<◌, ◌++◌, ◌∷◌, [], None, IfSome, map};
ghost use Rattle.std.specs.Sync.Mutex.{mutex_guard_value};
ghost use Rattle.thread_stables.specs.kernel_core_facts.kernel_commit_facts.Parts.{parts_of};
ghost use Rattle.thread_stables.specs.kernel_core_facts.kernel_commit_facts.Steady.{IsSteady, entries_taken, steps_to_come};
ghost use Rattle.thread_stables.specs.thread_cell_steps.Advancing.{WantsOthers};
ghost use Rattle.thread_desk_looks.specs.thread_desk.Desks.{IsKernel, knowing};
ghost use Rattle.thread_desk_stables.specs.Looks.{owing_by};
ghost use Rattle.thread_desk_stables.specs.Rows.{LetsGo, keeping_of};
ghost use Rattle.thread_stables.specs.thread_looks.Looking.{LooksAsSerial, NotesLook};
ghost use Rattle.thread_stables.specs.thread_settling.Rows.{IsRow};
ghost use Rattle.thread_stables.specs.thread_settling.Settling.{Settles};

use crate::hearing::hear_all;
use crate::lent::InDesk;
use crate::stepping::step_at;
use crate::telling::tell_alone;
use base_bytes::Blob;
use base_types::{Entity, Entry};
use edge_disk::Disk;
use edge_managers::{Gate, Policy, Supplier};
use std::sync::MutexGuard;
use thread_desk_looks::{Board, SightedCell};
use thread_history::HistoryAuthority;
use thread_stables::{Cell, Looked, Made, Notes, Stopped, Store, owes_stable, settle_lent};
use thread_ties::Authority;

/// The step that owes a Stable, if one was made.
fn owing_in(came: &Option<Result<Looked, Stopped>>) -> Option<Made>
    ensures { result ≡ owing_by came.now }
{
    match came {
        Some(Ok(Looked::Made(made))) => {
            if owes_stable(made) {
                return Some(*made);
            }
            None
        }
        _ => None,
    }
}

/// A Stable over all lent cells, each of which hears the present history first, and what it notes told.
fn stable_told<D: Disk, B: Board<D>>(
    all: &mut Authority<Cell, B>,
    annals: &mut HistoryAuthority<Entry, B>,
    cells: &mut [MutexGuard<'_, SightedCell<D, B>>],
    store: &mut Store<D>,
    notes: &mut Notes,
    blob: &mut Blob,
    actor: Entity,
) -> Result<(), Stopped>
    requires row { IsRow (map (λ g. keeping_of (mutex_guard_value g)) cells.old) }
    requires steady { IsSteady D.Disk (parts_of store.old all.old notes.old) }
    requires spare { steps_to_come all.old + entries_taken notes.old.entries < notes.old.room }
    requires lawful { LetsGo D.Disk B.terms.told B.begin B.kept annals.old (parts_of store.old all.old notes.old) }
    requires told { notes.old.entries ≡ B.kept ++ annals.old }
    ensures row { IsRow (map (λ g. keeping_of (mutex_guard_value g)) cells.new) }
    ensures settles { Settles D.Disk actor result (parts_of store.old all.old notes.old) (parts_of store.new all.new notes.new) }
    ensures told { notes.new.entries ≡ B.kept ++ annals.new }
{
    hear_all(all, annals, store, cells);
    let place = notes.entries().len();
    let kept = settle_lent::<D, B, InDesk, SightedCell<D, B>>(
        all, cells, store, notes, blob, actor,
    );
    tell_alone(annals, notes, place);
    kept
}

/// One look at a locus whose step touches it alone, where all cells are lent, with all that it notes told.
pub(crate) fn told_all<D: Disk, B: Board<D>, S: Supplier, P: Policy>(
    all: &mut Authority<Cell, B>,
    annals: &mut HistoryAuthority<Entry, B>,
    cells: &mut [MutexGuard<'_, SightedCell<D, B>>],
    me: Entity,
    store: &mut Store<D>,
    notes: &mut Notes,
    blob: &mut Blob,
    gate: &Gate<S, P>,
) -> Option<Result<Looked, Stopped>>
    requires keeps { S.keeps gate.now.supply }
    requires wishes { P.keeps gate.now.policy }
    requires managers { (B.begin.supply ≡ S.word gate.now.supply) × (B.begin.policy ≡ P.wish gate.now.policy) }
    requires row { IsRow (map (λ g. keeping_of (mutex_guard_value g)) cells.old) }
    requires kernel { IsKernel D.Disk B.begin B.terms B.kept (knowing [] all.old notes.old annals.old None) store.old }
    ensures small { me < 64 }
    ensures row { IsRow (map (λ g. keeping_of (mutex_guard_value g)) cells.new) }
    ensures unfit { (result ≡ None) ↔ WantsOthers all.old me [] }
    ensures undone { result ≡ None → (parts_of store.new all.new notes.new ≡ parts_of store.old all.old notes.old) × (annals.new ≡ annals.old) }
    ensures looks { IfSome result (LooksAsSerial D.Disk (S.word gate.now.supply) (P.wish gate.now.policy) me (parts_of store.old all.old notes.old) (parts_of store.new all.new notes.new)) }
    ensures notes { NotesLook me (me ∷ []) notes.old.entries notes.new.entries }
    ensures told { notes.new.entries ≡ B.kept ++ annals.new }
{
    let came = step_at(all, annals, cells, me, store, notes, blob, gate);
    match owing_in(&came) {
        None => came,
        Some(made) => {
            let actor = made.entry.actor;
            match stable_told(all, annals, cells, store, notes, blob, actor) {
                Ok(()) => came,
                Err(why) => Some(Err(why)),
            }
        }
    }
}
