// The step of a locus over the table that looks at a container.
ghost use Rattle.std.specs.Prelude.{◌≡◌, ◌↔◌, IfOk, IsErrOf, OnErr};
ghost use Rattle.table_laws.specs.edge_disk.declared.disk.NoBlocks.{NoBlocks};
ghost use Rattle.table_laws.specs.page_memory.Calls.{PagesOnce};
ghost use Rattle.table_laws.specs.cell_plans.declared.plans.Reach.TheVariants as reach;
ghost use Rattle.table_laws.specs.Steps.{EntersStep, GoesOn, IsPlannedAt, StaysAtFault};
ghost use Rattle.table_laws.specs.Tables.{tables_in, AreClean, AreFewWrites, HasNews, IsOrderly};
ghost use Rattle.table_steps.specs.Wanting.{IsStepShortIn, TurnsOne, WantsWord};

use base_types::{Entity, Entry, Instr};
use edge_managers::{Gate, Policy, Supplier};
use page_store::{PageFault, PageStore};
use table_laws::{Cell, advance_looking};

/// A step that makes one look of a load or a store at a container.
pub(crate) fn go_look<B: PageStore, S: Supplier, P: Policy>(
    cells: &mut [Cell],
    me: Entity,
    other: Entity,
    instr: Instr,
    store: &mut B,
    gate: &Gate<S, P>,
) -> Result<Entry, PageFault>
    requires keeps { S.keeps gate.now.supply }
    requires orderly { IsOrderly (B.held store.old) cells.old }
    requires planned { IsPlannedAt cells.old me instr (reach.Look other) }
    requires few { AreFewWrites cells.old }
    requires clean { B.tells → AreClean (S.word gate.now.supply) (B.words store.old) cells.old }
    ensures step { B.tells → IfOk result (GoesOn (S.word gate.now.supply) (B.words store.old) (B.words store.new) me cells.old cells.new) }
    ensures orderly { IsOrderly (B.held store.new) cells.new }
    ensures enters { IfOk result (EntersStep me cells.old cells.new) }
    ensures faulted { OnErr result (StaysAtFault B.tells (S.word gate.now.supply) (B.words store.old) (B.words store.new) cells.old cells.new) }
    ensures at_word { OnErr result (WantsWord me cells.old) }
    ensures no_blocks { (n : NoBlocks) → IsErrOf result (PageFault.NoBlocks n) ↔ IsStepShortIn B.PageStore store.old me cells.old n }
    ensures turned { (n : NoBlocks) → IsErrOf result (PageFault.NoBlocks n) → TurnsOne cells.old cells.new }
    ensures kept { B.kept_names store.new ≡ B.kept_names store.old }
    ensures news { HasNews (B.kept_names store.old) (tables_in cells.old) (tables_in cells.new) }
    ensures pages { PagesOnce B.PageStore store.old store.new result }
{
    let (front, back) = cells.split_at_mut(me.number() as usize);
    advance_looking(
        &mut back[0],
        &mut front[other.number() as usize],
        instr,
        store,
        gate,
    )
}
