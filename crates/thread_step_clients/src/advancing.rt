// The step of a locus over a table, by the cells that its plan names.
ghost use Rattle.base_types.specs.declared.instructions.Instr.{Instr as AnInstr};
ghost use Rattle.thread_cell_steps.specs.table_laws.cell_plans.declared.plans.Reach.TheVariants as reach;
ghost use Rattle.thread_cell_steps.specs.table_laws.Steps.{IsPlannedAt};
ghost use Rattle.thread_cell_steps.specs.Advancing.{HasAdvanced, MayAdvance};

use crate::lending::{lend_atlas, lend_both, lend_container, lend_locus, lend_other};
use base_types::{Entity, FIRST_CONTAINER, FIRST_LOCUS, Kind, MOST_CONTAINERS, MOST_LOCI};
use edge_managers::{Gate, Policy, Supplier};
use page_store::PageStore;
use table_births::atlas_of;
use thread_cell_steps::{Cell, Made, Plan, Reach, StepFault, next_plan};

/// The step that makes a container: with its cell where a number is free, else with the atlas alone.
fn lend_made<'a, B: PageStore + 'a, S: Supplier, P: Policy>(
    cells: &mut [Cell],
    me: Entity,
    store: &'a B,
    gate: &Gate<S, P>,
) -> Result<Made, StepFault>
    requires keeps { S.keeps gate.now.supply }
    requires may { MayAdvance B.PageStore (S.word gate.now.supply) cells.old store.now }
    requires planned { (i : AnInstr) × IsPlannedAt cells.old me i reach.Make }
    ensures { HasAdvanced B.PageStore (S.word gate.now.supply) me cells.old cells.new store.now store.now result }
{
    let born = atlas_of(cells).named(Kind::Container);
    if (born as usize) < MOST_CONTAINERS {
        return lend_both(cells, me, Entity::of(born + FIRST_CONTAINER), store, gate);
    }
    lend_atlas(cells, me, store, gate)
}

/// The step that spawns a locus: with its cell where a number is free, else with the atlas alone.
fn lend_spawned<'a, B: PageStore + 'a, S: Supplier, P: Policy>(
    cells: &mut [Cell],
    me: Entity,
    store: &'a B,
    gate: &Gate<S, P>,
) -> Result<Made, StepFault>
    requires keeps { S.keeps gate.now.supply }
    requires may { MayAdvance B.PageStore (S.word gate.now.supply) cells.old store.now }
    requires planned { (i : AnInstr) × IsPlannedAt cells.old me i reach.Spawn }
    ensures { HasAdvanced B.PageStore (S.word gate.now.supply) me cells.old cells.new store.now store.now result }
{
    let born = atlas_of(cells).named(Kind::Locus);
    if (born as usize) < MOST_LOCI {
        return lend_both(cells, me, Entity::of(born + FIRST_LOCUS), store, gate);
    }
    lend_atlas(cells, me, store, gate)
}

/// The step beside an entity, which may be the atlas.
fn lend_beside<'a, B: PageStore + 'a, S: Supplier, P: Policy>(
    cells: &mut [Cell],
    me: Entity,
    other: Entity,
    store: &'a B,
    gate: &Gate<S, P>,
) -> Result<Made, StepFault>
    requires keeps { S.keeps gate.now.supply }
    requires may { MayAdvance B.PageStore (S.word gate.now.supply) cells.old store.now }
    requires planned { (i : AnInstr) × IsPlannedAt cells.old me i (reach.Beside other) }
    ensures { HasAdvanced B.PageStore (S.word gate.now.supply) me cells.old cells.new store.now store.now result }
{
    if other.number() == 0 {
        return lend_atlas(cells, me, store, gate);
    }
    lend_other(cells, me, other, store, gate)
}

/// One step of the locus with this number over the table, by the cells that its next step touches alone: it is all that `advance` of
/// `table_steps` says of the step.
///
/// It takes no memory, and makes at most one read and one write of a page.
pub fn advance_lent<'a, B: PageStore + 'a, S: Supplier, P: Policy>(
    cells: &mut [Cell],
    me: Entity,
    store: &'a mut B,
    gate: &Gate<S, P>,
) -> Result<Made, StepFault>
    requires keeps { S.keeps gate.now.supply }
    requires may { MayAdvance B.PageStore (S.word gate.now.supply) cells.old store.old }
    ensures { HasAdvanced B.PageStore (S.word gate.now.supply) me cells.old cells.new store.old store.new result }
{
    match next_plan(&cells[me.number() as usize]) {
        Err(_) => lend_locus(cells, me, store, gate),
        Ok(Plan { instr: _, reach }) => match reach {
            Reach::Alone(_) => lend_locus(cells, me, store, gate),
            Reach::Beside(other) => lend_beside(cells, me, other, store, gate),
            Reach::Look(container) => lend_container(cells, me, container, store, gate),
            Reach::Mapping(container) => lend_both(cells, me, container, store, gate),
            Reach::Make => lend_made(cells, me, store, gate),
            Reach::Spawn => lend_spawned(cells, me, store, gate),
        },
    }
}
