// Steps over a kernel's parts by lent cells, with their entries noted.
ghost use Rattle.std.specs.Prelude.{◌≡◌, ◌↔◌, ◌∷◌, [], None, IfOk, IfSome, slice_set};
ghost use Rattle.kernel_core_facts.specs.table_laws.Tables.{AreClean};
ghost use Rattle.kernel_core_facts.specs.kernel_record_facts.Cells.{words_on};
ghost use Rattle.kernel_core_facts.specs.kernel_commit_facts.Parts.{parts_of};
ghost use Rattle.kernel_core_facts.specs.kernel_commit_facts.Steady.{IsSteady};
ghost use Rattle.thread_cell_steps.specs.Advancing.{IsPlanOf, TouchesThese, WantsOthers};
ghost use Rattle.kernel_core_facts.specs.Looked.{IfMade, StepsOnce};

use crate::noting::note_came;
use base_types::Entry;
use edge_disk::Disk;
use edge_managers::{Gate, Policy, Supplier};
use kernel_core_facts::{Cell, Looked, Notes, Stopped, Store};
use thread_cell_steps::{Idle, Plan, plan_lent, step_one, step_three, step_two};
use thread_cells::LockedCell;
use thread_history::Run;
use thread_ties::{Authority, Bond};

/// One step of a locus by its cell alone, which was planned so, with its entry noted; `None`, and nothing done, exactly where its act touches others.
///
/// It takes no memory, reads nothing and writes nothing.
pub(crate) fn make_planned<D: Disk, B: Bond<Cell> + Run<Entry>, S: Supplier, P: Policy>(
    all: &mut Authority<Cell, B>,
    locus: &mut LockedCell<B>,
    planned: Result<Plan, Idle>,
    store: &mut Store<D>,
    notes: &mut Notes,
    gate: &Gate<S, P>,
) -> Option<Result<Looked, Stopped>>
    requires planned { IsPlanOf locus.old.cell planned }
    requires keeps { S.keeps gate.now.supply }
    requires steady { IsSteady D.Disk (parts_of store.old all.old notes.old) }
    requires clean { D.tells → AreClean (S.word gate.now.supply) (words_on (D.reading store.old.disk)) all.old }
    ensures all { all.new ≡ slice_set all.old locus.old.number locus.new.cell }
    ensures locus { (locus.new.number ≡ locus.old.number) × (locus.new.known ≡ locus.old.known) }
    ensures unfit { (result ≡ None) ↔ WantsOthers all.old locus.old.number [] }
    ensures undone { result ≡ None → parts_of store.new all.new notes.new ≡ parts_of store.old all.old notes.old }
    ensures makes { IfSome result (StepsOnce D.Disk (S.word gate.now.supply) locus.old.number (parts_of store.old all.old notes.old) (parts_of store.new all.new notes.new)) }
    ensures touches { IfSome result (λ came. IfOk came (λ o. IfMade o (TouchesThese all.old locus.old.number []))) }
{
    match step_one(all, locus, planned, store, gate) {
        None => None,
        Some(came) => Some(note_came(notes, came)),
    }
}

/// One step of a locus by its cell alone, with its entry noted; `None`, and nothing done, exactly where its act touches others.
///
/// It takes no memory, reads nothing and writes nothing.
pub fn make_one<D: Disk, B: Bond<Cell> + Run<Entry>, S: Supplier, P: Policy>(
    all: &mut Authority<Cell, B>,
    locus: &mut LockedCell<B>,
    store: &mut Store<D>,
    notes: &mut Notes,
    gate: &Gate<S, P>,
) -> Option<Result<Looked, Stopped>>
    requires keeps { S.keeps gate.now.supply }
    requires steady { IsSteady D.Disk (parts_of store.old all.old notes.old) }
    requires clean { D.tells → AreClean (S.word gate.now.supply) (words_on (D.reading store.old.disk)) all.old }
    ensures all { all.new ≡ slice_set all.old locus.old.number locus.new.cell }
    ensures locus { (locus.new.number ≡ locus.old.number) × (locus.new.known ≡ locus.old.known) }
    ensures unfit { (result ≡ None) ↔ WantsOthers all.old locus.old.number [] }
    ensures undone { result ≡ None → parts_of store.new all.new notes.new ≡ parts_of store.old all.old notes.old }
    ensures makes { IfSome result (StepsOnce D.Disk (S.word gate.now.supply) locus.old.number (parts_of store.old all.old notes.old) (parts_of store.new all.new notes.new)) }
    ensures touches { IfSome result (λ came. IfOk came (λ o. IfMade o (TouchesThese all.old locus.old.number []))) }
{
    let planned = plan_lent(all, locus);
    make_planned(all, locus, planned, store, notes, gate)
}

/// One step of a locus by its cell and one other, with its entry noted; `None`, and nothing done, exactly where its act touches others.
///
/// It takes no memory. It makes at most one read and one write of the disk, of a page each.
pub fn make_two<D: Disk, B: Bond<Cell> + Run<Entry>, S: Supplier, P: Policy>(
    all: &mut Authority<Cell, B>,
    locus: &mut LockedCell<B>,
    other: &mut LockedCell<B>,
    store: &mut Store<D>,
    notes: &mut Notes,
    gate: &Gate<S, P>,
) -> Option<Result<Looked, Stopped>>
    requires keeps { S.keeps gate.now.supply }
    requires steady { IsSteady D.Disk (parts_of store.old all.old notes.old) }
    requires clean { D.tells → AreClean (S.word gate.now.supply) (words_on (D.reading store.old.disk)) all.old }
    ensures all { all.new ≡ slice_set (slice_set all.old locus.old.number locus.new.cell) other.old.number other.new.cell }
    ensures locus { (locus.new.number ≡ locus.old.number) × (locus.new.known ≡ locus.old.known) }
    ensures other { (other.new.number ≡ other.old.number) × (other.new.known ≡ other.old.known) }
    ensures unfit { (result ≡ None) ↔ WantsOthers all.old locus.old.number (other.old.number ∷ []) }
    ensures undone { result ≡ None → parts_of store.new all.new notes.new ≡ parts_of store.old all.old notes.old }
    ensures makes { IfSome result (StepsOnce D.Disk (S.word gate.now.supply) locus.old.number (parts_of store.old all.old notes.old) (parts_of store.new all.new notes.new)) }
    ensures touches { IfSome result (λ came. IfOk came (λ o. IfMade o (TouchesThese all.old locus.old.number (other.old.number ∷ [])))) }
{
    match step_two(all, locus, other, store, gate) {
        None => None,
        Some(came) => Some(note_came(notes, came)),
    }
}

/// One step of a locus by its cell, the atlas and one other, with its entry noted; `None`, and nothing done, exactly where its act touches
/// others.
///
/// It takes no memory, reads nothing and writes nothing.
pub fn make_three<D: Disk, B: Bond<Cell> + Run<Entry>, S: Supplier, P: Policy>(
    all: &mut Authority<Cell, B>,
    locus: &mut LockedCell<B>,
    atlas: &mut LockedCell<B>,
    other: &mut LockedCell<B>,
    store: &mut Store<D>,
    notes: &mut Notes,
    gate: &Gate<S, P>,
) -> Option<Result<Looked, Stopped>>
    requires keeps { S.keeps gate.now.supply }
    requires steady { IsSteady D.Disk (parts_of store.old all.old notes.old) }
    requires clean { D.tells → AreClean (S.word gate.now.supply) (words_on (D.reading store.old.disk)) all.old }
    ensures all { all.new ≡ slice_set (slice_set (slice_set all.old locus.old.number locus.new.cell) atlas.old.number atlas.new.cell) other.old.number other.new.cell }
    ensures locus { (locus.new.number ≡ locus.old.number) × (locus.new.known ≡ locus.old.known) }
    ensures atlas { (atlas.new.number ≡ atlas.old.number) × (atlas.new.known ≡ atlas.old.known) }
    ensures other { (other.new.number ≡ other.old.number) × (other.new.known ≡ other.old.known) }
    ensures unfit { (result ≡ None) ↔ WantsOthers all.old locus.old.number (atlas.old.number ∷ other.old.number ∷ []) }
    ensures undone { result ≡ None → parts_of store.new all.new notes.new ≡ parts_of store.old all.old notes.old }
    ensures makes { IfSome result (StepsOnce D.Disk (S.word gate.now.supply) locus.old.number (parts_of store.old all.old notes.old) (parts_of store.new all.new notes.new)) }
    ensures touches { IfSome result (λ came. IfOk came (λ o. IfMade o (TouchesThese all.old locus.old.number (atlas.old.number ∷ other.old.number ∷ [])))) }
{
    match step_three(all, locus, atlas, other, store, gate) {
        None => None,
        Some(came) => Some(note_came(notes, came)),
    }
}
