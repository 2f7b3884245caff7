// Cells of a table that are lent to a step, by whom it touches.
ghost use Rattle.std.specs.Prelude.{◌≢◌, ◌∷◌, []};
ghost use Rattle.base_types.specs.declared.instructions.Instr.{Instr as AnInstr};
ghost use Rattle.thread_cell_steps.specs.table_laws.cell_plans.declared.plans.Reach.TheVariants as reach;
ghost use Rattle.thread_cell_steps.specs.table_laws.Steps.{IsPlannedAt};
ghost use Rattle.thread_cell_steps.specs.Advancing.{HasAdvanced, MayAdvance};
ghost use Rattle.thread_step_clients.specs.Naming.{TouchesNext, TouchesNone};

use base_types::Entity;
use edge_managers::{Gate, Policy, Supplier};
use page_store::PageStore;
use thread_cell_steps::{Cell, Made, StepFault, step_cells};

/// The step where the locus alone is touched, or where it can't step.
pub(crate) fn lend_locus<'a, B: PageStore + 'a, S: Supplier, P: Policy>(
    cells: &mut [Cell],
    me: Entity,
    store: &'a B,
    gate: &Gate<S, P>,
) -> Result<Made, StepFault>
    requires keeps { S.keeps gate.now.supply }
    requires may { MayAdvance B.PageStore (S.word gate.now.supply) cells.old store.now }
    requires touches { TouchesNone cells.old me }
    ensures { HasAdvanced B.PageStore (S.word gate.now.supply) me cells.old cells.new store.now store.now result }
{
    let _ = store;
    let pages: Option<&'a mut B> = None;
    step_cells(&mut cells[me.number() as usize], None, None, pages, gate)
}

/// The step beside the atlas alone.
pub(crate) fn lend_atlas<'a, B: PageStore + 'a, S: Supplier, P: Policy>(
    cells: &mut [Cell],
    me: Entity,
    store: &'a B,
    gate: &Gate<S, P>,
) -> Result<Made, StepFault>
    requires keeps { S.keeps gate.now.supply }
    requires may { MayAdvance B.PageStore (S.word gate.now.supply) cells.old store.now }
    requires touches { TouchesNext cells.old me (0 ∷ []) }
    ensures { HasAdvanced B.PageStore (S.word gate.now.supply) me cells.old cells.new store.now store.now result }
{
    let _ = store;
    let pages: Option<&'a mut B> = None;
    let (front, back) = cells.split_at_mut(me.number() as usize);
    step_cells(&mut back[0], Some(&mut front[0]), None, pages, gate)
}

/// The step beside another entity than the atlas, without its pages.
pub(crate) fn lend_other<'a, B: PageStore + 'a, S: Supplier, P: Policy>(
    cells: &mut [Cell],
    me: Entity,
    other: Entity,
    store: &'a B,
    gate: &Gate<S, P>,
) -> Result<Made, StepFault>
    requires keeps { S.keeps gate.now.supply }
    requires may { MayAdvance B.PageStore (S.word gate.now.supply) cells.old store.now }
    requires apart { other ≢ 0 }
    requires planned { (i : AnInstr) × IsPlannedAt cells.old me i (reach.Beside other) }
    ensures { HasAdvanced B.PageStore (S.word gate.now.supply) me cells.old cells.new store.now store.now result }
{
    let _ = store;
    let pages: Option<&'a mut B> = None;
    let (own, named) = (me.number() as usize, other.number() as usize);
    if named < own {
        let (front, back) = cells.split_at_mut(own);
        return step_cells(&mut back[0], None, Some(&mut front[named]), pages, gate);
    }
    let (front, back) = cells.split_at_mut(named);
    step_cells(&mut front[own], None, Some(&mut back[0]), pages, gate)
}

/// The step that looks at a container, with its pages.
pub(crate) fn lend_container<B: PageStore, S: Supplier, P: Policy>(
    cells: &mut [Cell],
    me: Entity,
    container: Entity,
    store: &mut B,
    gate: &Gate<S, P>,
) -> Result<Made, StepFault>
    requires keeps { S.keeps gate.now.supply }
    requires may { MayAdvance B.PageStore (S.word gate.now.supply) cells.old store.old }
    requires planned { (i : AnInstr) × IsPlannedAt cells.old me i (reach.Look container) }
    ensures { HasAdvanced B.PageStore (S.word gate.now.supply) me cells.old cells.new store.old store.new result }
{
    let (front, back) = cells.split_at_mut(me.number() as usize);
    let named = &mut front[container.number() as usize];
    step_cells(&mut back[0], None, Some(named), Some(store), gate)
}

/// The step beside the atlas and another entity.
pub(crate) fn lend_both<'a, B: PageStore + 'a, S: Supplier, P: Policy>(
    cells: &mut [Cell],
    me: Entity,
    other: Entity,
    store: &'a B,
    gate: &Gate<S, P>,
) -> Result<Made, StepFault>
    requires keeps { S.keeps gate.now.supply }
    requires may { MayAdvance B.PageStore (S.word gate.now.supply) cells.old store.now }
    requires touches { TouchesNext cells.old me (0 ∷ other ∷ []) }
    ensures { HasAdvanced B.PageStore (S.word gate.now.supply) me cells.old cells.new store.now store.now result }
{
    let _ = store;
    let pages: Option<&'a mut B> = None;
    let (own, named) = (me.number() as usize, other.number() as usize);
    if named < own {
        let (front, back) = cells.split_at_mut(own);
        let (first, rest) = front.split_at_mut(named);
        return step_cells(
            &mut back[0],
            Some(&mut first[0]),
            Some(&mut rest[0]),
            pages,
            gate,
        );
    }
    let (front, back) = cells.split_at_mut(named);
    let (first, rest) = front.split_at_mut(own);
    step_cells(
        &mut rest[0],
        Some(&mut first[0]),
        Some(&mut back[0]),
        pages,
        gate,
    )
}
