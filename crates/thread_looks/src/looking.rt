// One look at a locus by lent cells: its step, and what comes behind it.
ghost use Rattle.std.specs.Prelude.{◌≡◌, ◌↔◌, ◌⊎◌, ◌∷◌, [], ℕ, List, true, false, None, IfOk, IfSome};
ghost use Rattle.kernel_core_facts.specs.cell_states.declared.cells.Cell.{Cell as ACell};
ghost use Rattle.kernel_core_facts.specs.table_laws.Tables.{AreClean};
ghost use Rattle.kernel_core_facts.specs.kernel_record_facts.Cells.{words_on};
ghost use Rattle.kernel_core_facts.specs.kernel_commit_facts.Parts.{parts_of};
ghost use Rattle.kernel_core_facts.specs.kernel_commit_facts.Steady.{IsSteady};
ghost use Rattle.thread_cell_steps.specs.Advancing.{TouchesThese, WantsOthers};
ghost use Rattle.thread_commits.specs.Lent.{OthersStay};
ghost use Rattle.thread_looks.specs.Looking.{IsPlanAt, LooksAsSerial, NotesLook, WantsStable, stop_in};
ghost use Rattle.kernel_core_facts.specs.Looked.{IfMade};

use crate::behind::{snap_behind_one, snap_behind_three, snap_behind_two};
use crate::making::{make_planned, make_three, make_two};
use base_bytes::Blob;
use base_types::{Entry, Instr};
use edge_disk::Disk;
use edge_managers::{Gate, Policy, Supplier};
use kernel_core_facts::{Cell, Looked, Notes, Stopped, Store};
use thread_cell_steps::{Idle, Plan, plan_lent};
use thread_cells::LockedCell;
use thread_history::Run;
use thread_ties::{Authority, Bond};

/// Why the kernel has stopped behind what came of a look, if it has.
pub fn stop_of(came: &Option<Result<Looked, Stopped>>) -> Option<Stopped>
    ensures { result ≡ stop_in came.now }
{
    match came {
        Some(Err(why)) => Some(*why),
        _ => None,
    }
}

/// Whether a step that was planned so may owe a Stable, for which all cells are to be lent.
fn wants_stable(planned: &Result<Plan, Idle>) -> bool
    ensures { (cs : List ACell) (me : ℕ) → IsPlanAt cs me planned.now → (result ≡ true) ↔ WantsStable cs me }
{
    match planned {
        Ok(plan) => matches!(plan.instr, Instr::Stabilise(_)),
        Err(_) => false,
    }
}

/// One look at a locus whose step touches it alone and owes no Stable: the step, and behind it the Snap that is wished. `None`, and nothing
/// done, exactly where other cells are wanted: its act touches another entity, or it is a stabilise, for which all cells are to be lent.
///
/// It is the look of the serial kernel, with its stops (`LooksAsSerial`). It takes no memory. What was in `blob` is lost.
pub fn look_one<D: Disk, B: Bond<Cell> + Run<Entry>, S: Supplier, P: Policy>(
    all: &mut Authority<Cell, B>,
    locus: &mut LockedCell<B>,
    store: &mut Store<D>,
    notes: &mut Notes,
    blob: &mut Blob,
    gate: &Gate<S, P>,
) -> Option<Result<Looked, Stopped>>
    requires keeps { S.keeps gate.now.supply }
    requires wishes { P.keeps gate.now.policy }
    requires steady { IsSteady D.Disk (parts_of store.old all.old notes.old) }
    requires clean { D.tells → AreClean (S.word gate.now.supply) (words_on (D.reading store.old.disk)) all.old }
    ensures others { OthersStay (locus.old.number ∷ []) all.old all.new }
    ensures locus { (locus.new.number ≡ locus.old.number) × (locus.new.known ≡ locus.old.known) }
    ensures unfit { (result ≡ None) ↔ (WantsOthers all.old locus.old.number [] ⊎ WantsStable all.old locus.old.number) }
    ensures undone { result ≡ None → parts_of store.new all.new notes.new ≡ parts_of store.old all.old notes.old }
    ensures looks { IfSome result (LooksAsSerial D.Disk (S.word gate.now.supply) (P.wish gate.now.policy) locus.old.number (parts_of store.old all.old notes.old) (parts_of store.new all.new notes.new)) }
    ensures touches { IfSome result (λ came. IfOk came (λ o. IfMade o (TouchesThese all.old locus.old.number []))) }
    ensures adds { NotesLook locus.old.number (locus.old.number ∷ []) notes.old.entries notes.new.entries }
{
    let planned = plan_lent(all, locus);
    if wants_stable(&planned) {
        return None;
    }
    match make_planned(all, locus, planned, store, notes, gate) {
        None => None,
        Some(came) => Some(snap_behind_one(all, locus, store, notes, blob, came, gate)),
    }
}

/// One look at a locus whose step touches one entity beside it: the step, and behind it the Snaps that are wished. `None`, and nothing done,
/// exactly where its act touches others.
///
/// It is the look of the serial kernel, with its stops (`LooksAsSerial`). It takes no memory. What was in `blob` is lost.
pub fn look_two<D: Disk, B: Bond<Cell> + Run<Entry>, S: Supplier, P: Policy>(
    all: &mut Authority<Cell, B>,
    locus: &mut LockedCell<B>,
    other: &mut LockedCell<B>,
    store: &mut Store<D>,
    notes: &mut Notes,
    blob: &mut Blob,
    gate: &Gate<S, P>,
) -> Option<Result<Looked, Stopped>>
    requires keeps { S.keeps gate.now.supply }
    requires wishes { P.keeps gate.now.policy }
    requires steady { IsSteady D.Disk (parts_of store.old all.old notes.old) }
    requires clean { D.tells → AreClean (S.word gate.now.supply) (words_on (D.reading store.old.disk)) all.old }
    ensures others { OthersStay (locus.old.number ∷ other.old.number ∷ []) all.old all.new }
    ensures locus { (locus.new.number ≡ locus.old.number) × (locus.new.known ≡ locus.old.known) }
    ensures other { (other.new.number ≡ other.old.number) × (other.new.known ≡ other.old.known) }
    ensures unfit { (result ≡ None) ↔ (WantsOthers all.old locus.old.number (other.old.number ∷ [])) }
    ensures undone { result ≡ None → parts_of store.new all.new notes.new ≡ parts_of store.old all.old notes.old }
    ensures looks { IfSome result (LooksAsSerial D.Disk (S.word gate.now.supply) (P.wish gate.now.policy) locus.old.number (parts_of store.old all.old notes.old) (parts_of store.new all.new notes.new)) }
    ensures touches { IfSome result (λ came. IfOk came (λ o. IfMade o (TouchesThese all.old locus.old.number (other.old.number ∷ [])))) }
    ensures adds { NotesLook locus.old.number (locus.old.number ∷ other.old.number ∷ []) notes.old.entries notes.new.entries }
{
    match make_two(all, locus, other, store, notes, gate) {
        None => None,
        Some(came) => Some(snap_behind_two(all, locus, other, store, notes, blob, came, gate)),
    }
}

/// One look at a locus whose step touches the atlas and another entity: the step, and behind it the Snaps that are wished. `None`, and
/// nothing done, exactly where its act touches others.
///
/// It is the look of the serial kernel, with its stops (`LooksAsSerial`). It takes no memory. What was in `blob` is lost.
pub fn look_three<D: Disk, B: Bond<Cell> + Run<Entry>, S: Supplier, P: Policy>(
    all: &mut Authority<Cell, B>,
    locus: &mut LockedCell<B>,
    atlas: &mut LockedCell<B>,
    other: &mut LockedCell<B>,
    store: &mut Store<D>,
    notes: &mut Notes,
    blob: &mut Blob,
    gate: &Gate<S, P>,
) -> Option<Result<Looked, Stopped>>
    requires keeps { S.keeps gate.now.supply }
    requires wishes { P.keeps gate.now.policy }
    requires steady { IsSteady D.Disk (parts_of store.old all.old notes.old) }
    requires clean { D.tells → AreClean (S.word gate.now.supply) (words_on (D.reading store.old.disk)) all.old }
    ensures others { OthersStay (locus.old.number ∷ atlas.old.number ∷ other.old.number ∷ []) all.old all.new }
    ensures locus { (locus.new.number ≡ locus.old.number) × (locus.new.known ≡ locus.old.known) }
    ensures atlas { (atlas.new.number ≡ atlas.old.number) × (atlas.new.known ≡ atlas.old.known) }
    ensures other { (other.new.number ≡ other.old.number) × (other.new.known ≡ other.old.known) }
    ensures unfit { (result ≡ None) ↔ (WantsOthers all.old locus.old.number (atlas.old.number ∷ other.old.number ∷ [])) }
    ensures undone { result ≡ None → parts_of store.new all.new notes.new ≡ parts_of store.old all.old notes.old }
    ensures looks { IfSome result (LooksAsSerial D.Disk (S.word gate.now.supply) (P.wish gate.now.policy) locus.old.number (parts_of store.old all.old notes.old) (parts_of store.new all.new notes.new)) }
    ensures touches { IfSome result (λ came. IfOk came (λ o. IfMade o (TouchesThese all.old locus.old.number (atlas.old.number ∷ other.old.number ∷ [])))) }
    ensures adds { NotesLook locus.old.number (locus.old.number ∷ atlas.old.number ∷ other.old.number ∷ []) notes.old.entries notes.new.entries }
{
    match make_three(all, locus, atlas, other, store, notes, gate) {
        None => None,
        Some(came) => Some(snap_behind_three(
            all, locus, atlas, other, store, notes, blob, came, gate,
        )),
    }
}
