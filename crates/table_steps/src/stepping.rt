// The step of a locus over the table.
ghost use Rattle.std.specs.Prelude.{◌≡◌, ◌≤◌, ◌+◌, ◌↔◌, ℕ, List, None, Some, IfErr, IfOk, IsErrOf, OnErr, OnOk, slice_get};
ghost use Rattle.page_store.specs.model_kernel.State.{Supply};
ghost use Rattle.page_store.specs.declared.faults.PageFault.{PageFault as AFault};
ghost use Rattle.table_laws.specs.edge_disk.declared.disk.NoBlocks.{NoBlocks};
ghost use Rattle.table_laws.specs.page_memory.Calls.{IsCausedIn, PagesOnce};
ghost use Rattle.table_laws.specs.cell_plans.Plans.{idle_of};
ghost use Rattle.table_laws.specs.cell_plans.declared.idle.Idle.{Idle as AnIdle};
ghost use Rattle.table_laws.specs.Steps.{EntersStep, GoesOn, IsInOrder, IsPlannedAt, StaysAtFault};
ghost use Rattle.table_laws.specs.Tables.{left_of, state_in, tables_in, AreClean, AreFewWrites, HasNews, IsOrderly};
ghost use Rattle.table_steps.specs.Wanting.{HasNext, IsStepShortIn, TurnsOne, WantsWord};

use crate::bearings::{go_making, go_mapping, go_spawning};
use crate::besides::{go_alone, go_beside};
use crate::looks::go_look;
use base_types::{Entity, Entry, Instr};
use edge_managers::{Gate, Policy, Supplier};
use page_store::{PageFault, PageStore};
use table_laws::{Cell, Idle, Plan, Reach, next_plan};

/// Why a locus made no step.
#[derive(Clone, Copy, PartialEq, Eq, Debug)]
pub enum StepFault {
    /// It can't step.
    Idle(Idle),
    /// The look of a load or a store met a fault of paging.
    Paging(PageFault),
}

/// A step that a locus made.
#[derive(Clone, Copy, PartialEq, Eq, Debug)]
pub struct Made {
    pub entry: Entry,
    /// The instruction that was carried out.
    pub instr: Instr,
}

/// The next step of the locus, or why it makes none.
fn plan_at(cells: &[Cell], me: Entity) -> Result<Plan, Idle>
    requires order { IsInOrder cells.now }
    ensures idle { (s : Supply) → (words : ℕ → List ℕ) → IfErr result (λ why. idle_of (left_of (slice_get cells.now me)) (state_in s words cells.now me).cell ≡ Some why) }
    ensures goes { (s : Supply) → (words : ℕ → List ℕ) → IfOk result (λ _. idle_of (left_of (slice_get cells.now me)) (state_in s words cells.now me).cell ≡ None) }
    ensures plans { IfOk result (λ p. IsPlannedAt cells.now me p.instr p.reach) }
    ensures next { IfOk result (λ p. HasNext me cells.now p.instr) }
{
    next_plan(&cells[me.number() as usize])
}

/// The step by this instruction, which reaches so far.
fn go<B: PageStore, S: Supplier, P: Policy>(
    cells: &mut [Cell],
    me: Entity,
    instr: Instr,
    reach: Reach,
    store: &mut B,
    gate: &Gate<S, P>,
) -> Result<Entry, PageFault>
    requires keeps { S.keeps gate.now.supply }
    requires orderly { IsOrderly (B.held store.old) cells.old }
    requires planned { IsPlannedAt cells.old me instr reach }
    requires few { AreFewWrites cells.old }
    requires clean { B.tells → AreClean (S.word gate.now.supply) (B.words store.old) cells.old }
    ensures step { B.tells → IfOk result (GoesOn (S.word gate.now.supply) (B.words store.old) (B.words store.new) me cells.old cells.new) }
    ensures orderly { IsOrderly (B.held store.new) cells.new }
    ensures enters { IfOk result (EntersStep me cells.old cells.new) }
    ensures faulted { OnErr result (StaysAtFault B.tells (S.word gate.now.supply) (B.words store.old) (B.words store.new) cells.old cells.new) }
    ensures at_word { OnErr result (WantsWord me cells.old) }
    ensures no_blocks { (n : NoBlocks) → IsErrOf result (PageFault.NoBlocks n) ↔ IsStepShortIn B.PageStore store.old me cells.old n }
    ensures turned { (n : NoBlocks) → IsErrOf result (PageFault.NoBlocks n) → TurnsOne cells.old cells.new }
    ensures kept { B.kept_names store.new ≡ B.kept_names store.old }
    ensures news { HasNews (B.kept_names store.old) (tables_in cells.old) (tables_in cells.new) }
    ensures pages { PagesOnce B.PageStore store.old store.new result }
{
    match reach {
        Reach::Alone(act) => Ok(go_alone(cells, me, act)),
        Reach::Beside(other) => Ok(go_beside(cells, me, other, instr)),
        Reach::Look(other) => go_look(cells, me, other, instr, store, gate),
        Reach::Mapping(other) => Ok(go_mapping(cells, me, other, instr)),
        Reach::Make => Ok(go_making(cells, me, instr)),
        Reach::Spawn => Ok(go_spawning(cells, me, instr)),
    }
}

/// One step of the locus with this number, over the cells that it touches: the locus, and at most the atlas and one other.
///
/// `Idle` comes exactly where the locus can't step: it isn't born or no locus, it is halted or stopped, or it has no step left, in this
/// order; then nothing is changed. `Paging` comes of a load or a store alone that reads or writes a word, and changes nothing in the
/// model, so that the same step can be tried again; it is `NoBlocks` exactly where the word's page is short of a block, and then
/// nothing but the clock of the container's frames has moved. The instruction that was carried out is told with the entry. It takes no memory, and
/// looks at no other cell.
pub fn advance<B: PageStore, S: Supplier, P: Policy>(
    cells: &mut [Cell],
    me: Entity,
    store: &mut B,
    gate: &Gate<S, P>,
) -> Result<Made, StepFault>
    requires keeps { S.keeps gate.now.supply }
    requires orderly { IsOrderly (B.held store.old) cells.old }
    requires few { AreFewWrites cells.old }
    requires clean { B.tells → AreClean (S.word gate.now.supply) (B.words store.old) cells.old }
    ensures idle { (s : Supply) → (words : ℕ → List ℕ) → (why : AnIdle)
        → IsErrOf result (StepFault.Idle why) ↔ (idle_of (left_of (slice_get cells.old me)) (state_in s words cells.old me).cell ≡ Some why) }
    ensures still { (why : AnIdle) → IsErrOf result (StepFault.Idle why) → (cells.new ≡ cells.old) × (store.new ≡ store.old) }
    ensures step { B.tells → IfOk result (λ made. GoesOn (S.word gate.now.supply) (B.words store.old) (B.words store.new) me cells.old cells.new made.entry) }
    ensures orderly { IsOrderly (B.held store.new) cells.new }
    ensures enters { IfOk result (λ made. EntersStep me cells.old cells.new made.entry) }
    ensures instr { IfOk result (λ made. HasNext me cells.old made.instr) }
    ensures faulted { (f : AFault) → IsErrOf result (StepFault.Paging f)
        → StaysAtFault B.tells (S.word gate.now.supply) (B.words store.old) (B.words store.new) cells.old cells.new }
    ensures at_word { (f : AFault) → IsErrOf result (StepFault.Paging f) → WantsWord me cells.old }
    ensures no_blocks { (n : NoBlocks) → IsErrOf result (StepFault.Paging (PageFault.NoBlocks n)) ↔ IsStepShortIn B.PageStore store.old me cells.old n }
    ensures turned { (n : NoBlocks) → IsErrOf result (StepFault.Paging (PageFault.NoBlocks n)) → TurnsOne cells.old cells.new × (store.new ≡ store.old) }
    ensures kept { B.kept_names store.new ≡ B.kept_names store.old }
    ensures news { HasNews (B.kept_names store.old) (tables_in cells.old) (tables_in cells.new) }
    ensures cause { (f : AFault) → IsErrOf result (StepFault.Paging f)
        → IsCausedIn B.PageStore store.old store.new f }
    ensures same_shut { OnOk result (B.is_shut store.new ≡ B.is_shut store.old) }
    ensures one_write { B.written store.new ≤ B.written store.old + 1 }
    ensures between { B.Pages store.old store.new }
{
    match plan_at(cells, me) {
        Err(why) => Err(StepFault::Idle(why)),
        Ok(Plan { instr, reach }) => match go(cells, me, instr, reach, store, gate) {
            Ok(entry) => Ok(Made { entry, instr }),
            Err(fault) => Err(StepFault::Paging(fault)),
        },
    }
}
