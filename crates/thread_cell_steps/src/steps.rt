//! Steps by cells that are lent from under their locks.
ghost use Rattle.std.specs.Prelude.{◌≡◌, ◌↔◌, ◌∷◌, [], ℕ, List, None, Some, IfErr, IfOk, IfSome, slice_get, slice_set};
ghost use Rattle.page_store.specs.model_kernel.State.{Supply};
ghost use Rattle.table_laws.specs.cell_plans.Plans.{idle_of};
ghost use Rattle.table_laws.specs.Steps.{IsInOrder, IsPlannedAt};
ghost use Rattle.table_laws.specs.Tables.{left_of, state_in, AreClean, AreFewWrites, IsOrderly};
ghost use Rattle.table_steps.specs.Wanting.{HasNext};
ghost use Rattle.thread_cell_steps.specs.Advancing.{HasAdvanced, IsPlanOf, MayAdvance, TouchesThese, WantsOthers};

use crate::advancing::{advance_one, advance_three, advance_two};
use base_types::Entry;
use edge_managers::{Gate, Policy, Supplier};
use page_store::PageStore;
use table_laws::{Cell, Idle, Plan, next_plan};
use table_steps::{Made, StepFault};
use thread_cells::{LockedCell, tell};
use thread_history::Run;
use thread_ties::{Authority, Bond};

/// The next step of a locus whose cell is lent, or why it makes none. By its plan the cells are lent that the step touches.
pub fn plan_lent<B: Bond<Cell> + Run<Entry>>(
    all: &mut Authority<Cell, B>,
    locus: &mut LockedCell<B>,
) -> Result<Plan, Idle>
    requires order { IsInOrder all.old }
    ensures same { (all.new ≡ all.old) × (locus.new ≡ locus.old) }
    ensures idle { (s : Supply) → (words : ℕ → List ℕ) → IfErr result (λ why. idle_of (left_of (slice_get all.old locus.old.number)) (state_in s words all.old locus.old.number).cell ≡ Some why) }
    ensures goes { (s : Supply) → (words : ℕ → List ℕ) → IfOk result (λ _. idle_of (left_of (slice_get all.old locus.old.number)) (state_in s words all.old locus.old.number).cell ≡ None) }
    ensures plans { IfOk result (λ p. IsPlannedAt all.old locus.old.number p.instr p.reach) }
    ensures planned { IsPlanOf locus.old.cell result }
{
    all.agree(&mut locus.fragment);
    next_plan(&locus.cell)
}

/// One step of the locus whose cell is lent, which was planned so (`plan_lent`), where its act touches nothing else.
///
/// `None` comes exactly where the next act of the locus touches another entity, and then nothing is changed. `Idle` comes exactly where the
/// locus can't step, and then nothing is changed.
pub fn step_one<B: Bond<Cell> + Run<Entry>, K: PageStore, S: Supplier, P: Policy>(
    all: &mut Authority<Cell, B>,
    locus: &mut LockedCell<B>,
    planned: Result<Plan, Idle>,
    store: &mut K,
    gate: &Gate<S, P>,
) -> Option<Result<Made, StepFault>>
    requires planned { IsPlanOf locus.old.cell planned }
    requires keeps { S.keeps gate.now.supply }
    requires may { MayAdvance K.PageStore (S.word gate.now.supply) all.old store.old }
    ensures stands { slice_get all.old locus.old.number ≡ Some locus.old.cell }
    ensures all { all.new ≡ slice_set all.old locus.old.number locus.new.cell }
    ensures locus { (locus.new.number ≡ locus.old.number) × (locus.new.known ≡ locus.old.known) }
    ensures unfit { (result ≡ None) ↔ WantsOthers all.old locus.old.number [] }
    ensures undone { result ≡ None → (all.new ≡ all.old) × (store.new ≡ store.old) }
    ensures advanced { IfSome result (HasAdvanced K.PageStore (S.word gate.now.supply) locus.old.number all.old all.new store.old store.new) }
    ensures touches { IfSome result (λ came. IfOk came (TouchesThese all.old locus.old.number [])) }
{
    all.agree(&mut locus.fragment);
    let came = advance_one(all, &mut locus.cell, planned, store, gate);
    tell(all, &mut locus.fragment, &locus.cell);
    came
}

/// One step of a locus that touches one entity beside it, whose cells are lent: the atlas, a container, or another locus. A load or a store
/// reads and writes the pages of the container in the store.
///
/// `None` comes exactly where the next act of the locus touches others than this one, and then nothing is changed. `Idle` comes exactly
/// where the locus can't step, and then nothing is changed. `Paging` comes of a load or a store alone that reads or writes a word, and
/// changes nothing in the model, so that the same step can be tried again; it is `NoBlocks` exactly where the word's page is short of a
/// block, and then nothing but the clock of the container's frames has moved.
pub fn step_two<B: Bond<Cell> + Run<Entry>, K: PageStore, S: Supplier, P: Policy>(
    all: &mut Authority<Cell, B>,
    locus: &mut LockedCell<B>,
    other: &mut LockedCell<B>,
    store: &mut K,
    gate: &Gate<S, P>,
) -> Option<Result<Made, StepFault>>
    requires keeps { S.keeps gate.now.supply }
    requires may { MayAdvance K.PageStore (S.word gate.now.supply) all.old store.old }
    ensures stands { (slice_get all.old locus.old.number ≡ Some locus.old.cell) × (slice_get all.old other.old.number ≡ Some other.old.cell) }
    ensures all { all.new ≡ slice_set (slice_set all.old locus.old.number locus.new.cell) other.old.number other.new.cell }
    ensures locus { (locus.new.number ≡ locus.old.number) × (locus.new.known ≡ locus.old.known) }
    ensures other { (other.new.number ≡ other.old.number) × (other.new.known ≡ other.old.known) }
    ensures unfit { (result ≡ None) ↔ WantsOthers all.old locus.old.number (other.old.number ∷ []) }
    ensures undone { result ≡ None → (all.new ≡ all.old) × (store.new ≡ store.old) }
    ensures advanced { IfSome result (HasAdvanced K.PageStore (S.word gate.now.supply) locus.old.number all.old all.new store.old store.new) }
    ensures touches { IfSome result (λ came. IfOk came (TouchesThese all.old locus.old.number (other.old.number ∷ []))) }
{
    all.agree(&mut locus.fragment);
    all.agree(&mut other.fragment);
    let came = advance_two(all, &mut locus.cell, &mut other.cell, store, gate);
    tell(all, &mut locus.fragment, &locus.cell);
    tell(all, &mut other.fragment, &other.cell);
    came
}

/// One step of a locus that touches the atlas and one other entity, whose cells are lent: it maps pages, makes a container or spawns a locus.
///
/// `None` comes exactly where the next act of the locus touches others than these two, and then nothing is changed. `Idle` comes exactly
/// where the locus can't step, and then nothing is changed.
pub fn step_three<B: Bond<Cell> + Run<Entry>, K: PageStore, S: Supplier, P: Policy>(
    all: &mut Authority<Cell, B>,
    locus: &mut LockedCell<B>,
    atlas: &mut LockedCell<B>,
    other: &mut LockedCell<B>,
    store: &mut K,
    gate: &Gate<S, P>,
) -> Option<Result<Made, StepFault>>
    requires keeps { S.keeps gate.now.supply }
    requires may { MayAdvance K.PageStore (S.word gate.now.supply) all.old store.old }
    ensures stands { (slice_get all.old locus.old.number ≡ Some locus.old.cell) × (slice_get all.old atlas.old.number ≡ Some atlas.old.cell) × (slice_get all.old other.old.number ≡ Some other.old.cell) }
    ensures all { all.new ≡ slice_set (slice_set (slice_set all.old locus.old.number locus.new.cell) atlas.old.number atlas.new.cell) other.old.number other.new.cell }
    ensures locus { (locus.new.number ≡ locus.old.number) × (locus.new.known ≡ locus.old.known) }
    ensures atlas { (atlas.new.number ≡ atlas.old.number) × (atlas.new.known ≡ atlas.old.known) }
    ensures other { (other.new.number ≡ other.old.number) × (other.new.known ≡ other.old.known) }
    ensures unfit { (result ≡ None) ↔ WantsOthers all.old locus.old.number (atlas.old.number ∷ other.old.number ∷ []) }
    ensures undone { result ≡ None → (all.new ≡ all.old) × (store.new ≡ store.old) }
    ensures advanced { IfSome result (HasAdvanced K.PageStore (S.word gate.now.supply) locus.old.number all.old all.new store.old store.new) }
    ensures touches { IfSome result (λ came. IfOk came (TouchesThese all.old locus.old.number (atlas.old.number ∷ other.old.number ∷ []))) }
{
    all.agree(&mut locus.fragment);
    all.agree(&mut atlas.fragment);
    all.agree(&mut other.fragment);
    let came = advance_three(
        all,
        &mut locus.cell,
        &mut atlas.cell,
        &mut other.cell,
        store,
        gate,
    );
    tell(all, &mut locus.fragment, &locus.cell);
    tell(all, &mut atlas.fragment, &atlas.cell);
    tell(all, &mut other.fragment, &other.cell);
    came
}
