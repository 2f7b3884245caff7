// The step of a locus, and the Snap behind one that owes no Stable, by its lent cell.
ghost use Rattle.std.specs.Prelude.{◌≡◌, ◌↔◌, ◌++◌, ◌∷◌, ◌<◌, [], ℕ, None, Ok, IfOk, IfSome, OnOk, map};
ghost use Rattle.std.specs.Sync.Mutex.{mutex_guard_value};
ghost use Rattle.thread_stables.specs.kernel_core_facts.table_births.model_kernel.State.{Supply};
ghost use Rattle.thread_stables.specs.kernel_core_facts.table_laws.Tables.{AreClean};
ghost use Rattle.thread_stables.specs.kernel_core_facts.kernel_record_facts.Cells.{words_on};
ghost use Rattle.thread_stables.specs.kernel_core_facts.kernel_commit_facts.Parts.{parts_of, Parts};
ghost use Rattle.thread_stables.specs.kernel_core_facts.kernel_commit_facts.Steady.{IsSteady};
ghost use Rattle.thread_stables.specs.kernel_core_facts.Looked.{IfMade, StepsOnce};
ghost use Rattle.thread_stables.specs.kernel_core_facts.declared.looked.Looked.TheVariants as ALooked;
ghost use Rattle.thread_stables.specs.thread_cell_steps.Advancing.{WantsOthers};
ghost use Rattle.thread_stables.specs.thread_commits.Snapping.{AddsAmong, WritesAmong};
ghost use Rattle.thread_desk_looks.specs.thread_desk.Desks.{IsKernel, knowing};
ghost use Rattle.thread_desk_stables.specs.Looks.{LooksOrOwes};
ghost use Rattle.thread_desk_stables.specs.Rows.{keeping_of};
ghost use Rattle.thread_stables.specs.thread_looks.Looking.{NotesBehind, NotesLook};
ghost use Rattle.thread_stables.specs.thread_settling.Rows.{IsRow};

use crate::telling::tell_look;
use base_bytes::Blob;
use base_types::{Entity, Entry};
use edge_disk::Disk;
use edge_managers::{Gate, Policy, Supplier};
use std::sync::MutexGuard;
use thread_cells::LockedCell;
use thread_desk_looks::{Board, SightedCell, hear_lent};
use thread_history::{HistoryAuthority, Run};
use thread_stables::{
    Cell, Looked, Made, Notes, Stopped, Store, make_one, owes_stable, snap_touched_one,
};
use thread_ties::{Authority, Bond};

/// Behind a step by the locus alone: its Snap where one is wished. Nothing is done where it owes a Stable.
fn snap_unless_owing<D: Disk, B: Bond<Cell> + Run<Entry>, S: Supplier, P: Policy>(
    all: &mut Authority<Cell, B>,
    locus: &mut LockedCell<B>,
    store: &mut Store<D>,
    notes: &mut Notes,
    blob: &mut Blob,
    made: Made,
    gate: &Gate<S, P>,
) -> Result<Looked, Stopped>
    requires wishes { P.keeps gate.now.policy }
    requires steady { IsSteady D.Disk (parts_of store.old all.old notes.old) }
    requires among { WritesAmong made.entry (locus.old.number ∷ []) }
    ensures locus { (locus.new.number ≡ locus.old.number) × (locus.new.known ≡ locus.old.known) }
    ensures adds { AddsAmong [] notes.old.entries notes.new.entries }
    ensures looks { (supply : Supply) (me : ℕ) (old : Parts D) → IsSteady D.Disk old → StepsOnce D.Disk supply me old (parts_of store.old all.old notes.old) (Ok (ALooked.Made made))
        → LooksOrOwes D.Disk supply (P.wish gate.now.policy) me old (parts_of store.new all.new notes.new) result }
{
    if owes_stable(&made) {
        return Ok(Looked::Made(made));
    }
    match snap_touched_one(all, locus, store, notes, blob, &made.entry, gate) {
        Ok(()) => Ok(Looked::Made(made)),
        Err(why) => Err(why),
    }
}

/// The same behind what came of a step. Where none was made nothing is done.
fn snap_behind<D: Disk, B: Bond<Cell> + Run<Entry>, S: Supplier, P: Policy>(
    all: &mut Authority<Cell, B>,
    locus: &mut LockedCell<B>,
    store: &mut Store<D>,
    notes: &mut Notes,
    blob: &mut Blob,
    came: Result<Looked, Stopped>,
    gate: &Gate<S, P>,
) -> Result<Looked, Stopped>
    requires wishes { P.keeps gate.now.policy }
    requires steady { OnOk came (IsSteady D.Disk (parts_of store.old all.old notes.old)) }
    requires among { IfOk came (λ o. IfMade o (λ m. WritesAmong m.entry (locus.old.number ∷ []))) }
    ensures locus { (locus.new.number ≡ locus.old.number) × (locus.new.known ≡ locus.old.known) }
    ensures adds { NotesBehind came notes.old.entries notes.new.entries }
    ensures looks { (supply : Supply) (me : ℕ) (old : Parts D) → IsSteady D.Disk old → StepsOnce D.Disk supply me old (parts_of store.old all.old notes.old) came
        → LooksOrOwes D.Disk supply (P.wish gate.now.policy) me old (parts_of store.new all.new notes.new) result }
{
    match came {
        Err(why) => Err(why),
        Ok(looked) => match looked {
            Looked::Idle(why) => Ok(Looked::Idle(why)),
            Looked::Made(made) => snap_unless_owing(all, locus, store, notes, blob, made, gate),
        },
    }
}

/// The look at a locus by its cell alone but for the Stable that its step owes. `None`, and nothing done, exactly where its act touches another.
fn look_or_owe<D: Disk, B: Bond<Cell> + Run<Entry>, S: Supplier, P: Policy>(
    all: &mut Authority<Cell, B>,
    locus: &mut LockedCell<B>,
    store: &mut Store<D>,
    notes: &mut Notes,
    blob: &mut Blob,
    gate: &Gate<S, P>,
) -> Option<Result<Looked, Stopped>>
    requires keeps { S.keeps gate.now.supply }
    requires wishes { P.keeps gate.now.policy }
    requires steady { IsSteady D.Disk (parts_of store.old all.old notes.old) }
    requires clean { D.tells → AreClean (S.word gate.now.supply) (words_on (D.reading store.old.disk)) all.old }
    ensures locus { (locus.new.number ≡ locus.old.number) × (locus.new.known ≡ locus.old.known) }
    ensures unfit { (result ≡ None) ↔ WantsOthers all.old locus.old.number [] }
    ensures undone { result ≡ None → parts_of store.new all.new notes.new ≡ parts_of store.old all.old notes.old }
    ensures looks { IfSome result (LooksOrOwes D.Disk (S.word gate.now.supply) (P.wish gate.now.policy) locus.old.number (parts_of store.old all.old notes.old) (parts_of store.new all.new notes.new)) }
    ensures adds { NotesLook locus.old.number (locus.old.number ∷ []) notes.old.entries notes.new.entries }
{
    match make_one(all, locus, store, notes, gate) {
        None => None,
        Some(came) => Some(snap_behind(all, locus, store, notes, blob, came, gate)),
    }
}

/// The same with all that it notes told by the cell's share.
fn told_or_owing<D: Disk, B: Bond<Cell> + Run<Entry>, S: Supplier, P: Policy>(
    all: &mut Authority<Cell, B>,
    annals: &mut HistoryAuthority<Entry, B>,
    locus: &mut LockedCell<B>,
    store: &mut Store<D>,
    notes: &mut Notes,
    blob: &mut Blob,
    gate: &Gate<S, P>,
) -> Option<Result<Looked, Stopped>>
    requires keeps { S.keeps gate.now.supply }
    requires wishes { P.keeps gate.now.policy }
    requires steady { IsSteady D.Disk (parts_of store.old all.old notes.old) }
    requires clean { D.tells → AreClean (S.word gate.now.supply) (words_on (D.reading store.old.disk)) all.old }
    requires told { notes.old.entries ≡ B.kept ++ annals.old }
    ensures number { locus.new.number ≡ locus.old.number }
    ensures unfit { (result ≡ None) ↔ WantsOthers all.old locus.old.number [] }
    ensures undone { result ≡ None → (parts_of store.new all.new notes.new ≡ parts_of store.old all.old notes.old) × (annals.new ≡ annals.old) }
    ensures looks { IfSome result (LooksOrOwes D.Disk (S.word gate.now.supply) (P.wish gate.now.policy) locus.old.number (parts_of store.old all.old notes.old) (parts_of store.new all.new notes.new)) }
    ensures notes { NotesLook locus.old.number (locus.old.number ∷ []) notes.old.entries notes.new.entries }
    ensures told { notes.new.entries ≡ B.kept ++ annals.new }
{
    let place = notes.entries().len();
    let came = look_or_owe(all, locus, store, notes, blob, gate);
    tell_look(annals, notes, place, &mut locus.share);
    came
}

/// The same of a cell that a desk knows, which has then heard all of it and may be let go.
fn step_one<D: Disk, B: Board<D>, S: Supplier, P: Policy>(
    all: &mut Authority<Cell, B>,
    annals: &mut HistoryAuthority<Entry, B>,
    locus: &mut SightedCell<D, B>,
    store: &mut Store<D>,
    notes: &mut Notes,
    blob: &mut Blob,
    gate: &Gate<S, P>,
) -> Option<Result<Looked, Stopped>>
    requires keeps { S.keeps gate.now.supply }
    requires wishes { P.keeps gate.now.policy }
    requires managers { (B.begin.supply ≡ S.word gate.now.supply) × (B.begin.policy ≡ P.wish gate.now.policy) }
    requires kernel { IsKernel D.Disk B.begin B.terms B.kept (knowing [] all.old notes.old annals.old None) store.old }
    ensures number { locus.new.number ≡ locus.old.number }
    ensures unfit { (result ≡ None) ↔ WantsOthers all.old locus.old.number [] }
    ensures undone { result ≡ None → (parts_of store.new all.new notes.new ≡ parts_of store.old all.old notes.old) × (annals.new ≡ annals.old) }
    ensures looks { IfSome result (LooksOrOwes D.Disk (S.word gate.now.supply) (P.wish gate.now.policy) locus.old.number (parts_of store.old all.old notes.old) (parts_of store.new all.new notes.new)) }
    ensures notes { NotesLook locus.old.number (locus.old.number ∷ []) notes.old.entries notes.new.entries }
    ensures told { notes.new.entries ≡ B.kept ++ annals.new }
{
    let came = told_or_owing(all, annals, &mut locus.locked, store, notes, blob, gate);
    locus.seen = hear_lent(all, annals, store, &mut locus.locked);
    came
}

/// The same of the one of all lent cells that stands at the locus's number.
pub(crate) fn step_at<D: Disk, B: Board<D>, S: Supplier, P: Policy>(
    all: &mut Authority<Cell, B>,
    annals: &mut HistoryAuthority<Entry, B>,
    cells: &mut [MutexGuard<'_, SightedCell<D, B>>],
    me: Entity,
    store: &mut Store<D>,
    notes: &mut Notes,
    blob: &mut Blob,
    gate: &Gate<S, P>,
) -> Option<Result<Looked, Stopped>>
    requires keeps { S.keeps gate.now.supply }
    requires wishes { P.keeps gate.now.policy }
    requires managers { (B.begin.supply ≡ S.word gate.now.supply) × (B.begin.policy ≡ P.wish gate.now.policy) }
    requires row { IsRow (map (λ g. keeping_of (mutex_guard_value g)) cells.old) }
    requires kernel { IsKernel D.Disk B.begin B.terms B.kept (knowing [] all.old notes.old annals.old None) store.old }
    ensures small { me < 64 }
    ensures row { IsRow (map (λ g. keeping_of (mutex_guard_value g)) cells.new) }
    ensures unfit { (result ≡ None) ↔ WantsOthers all.old me [] }
    ensures undone { result ≡ None → (parts_of store.new all.new notes.new ≡ parts_of store.old all.old notes.old) × (annals.new ≡ annals.old) }
    ensures looks { IfSome result (LooksOrOwes D.Disk (S.word gate.now.supply) (P.wish gate.now.policy) me (parts_of store.old all.old notes.old) (parts_of store.new all.new notes.new)) }
    ensures notes { NotesLook me (me ∷ []) notes.old.entries notes.new.entries }
    ensures told { notes.new.entries ≡ B.kept ++ annals.new }
{
    let i = me.number() as usize;
    let locus = &mut *cells[i];
    step_one(all, annals, locus, store, notes, blob, gate)
}
