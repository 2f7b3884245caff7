// The step of a locus by the cells that are at hand, where they are those that it touches.
ghost use Rattle.std.specs.Prelude.{◌≡◌, [], ◌∷◌};
ghost use Rattle.table_laws.specs.Lending.{StandIn};
ghost use Rattle.thread_cell_steps.specs.Advancing.{AdvancesBy, IsPlanOf, MayAdvance};

use crate::fitting::{touches_one, touches_two};
use edge_managers::{Gate, Policy, Supplier};
use page_store::PageStore;
use table_laws::{Cell, Idle, Plan, Reach, next_plan};
use table_steps::{Made, StepFault};
use thread_steps::{go_alone, go_beside, go_look, go_with_atlas, go_with_both};
use thread_ties::{Authority, Bond};

/// The step by the locus alone, which was planned so.
pub(crate) fn advance_one<B: Bond<Cell>, K: PageStore, S: Supplier, P: Policy>(
    all: &Authority<Cell, B>,
    locus: &mut Cell,
    planned: Result<Plan, Idle>,
    store: &mut K,
    gate: &Gate<S, P>,
) -> Option<Result<Made, StepFault>>
    requires planned { IsPlanOf locus.old planned }
    requires keeps { S.keeps gate.now.supply }
    requires may { MayAdvance K.PageStore (S.word gate.now.supply) all.now store.old }
    requires stand { StandIn all.now (locus.old ∷ []) }
    ensures { AdvancesBy K.PageStore (S.word gate.now.supply) all.now locus.old locus.new [] [] store.old store.new result }
{
    let _ = all;
    match planned {
        Err(why) => Some(Err(StepFault::Idle(why))),
        Ok(plan) => match plan.reach {
            Reach::Alone(_) => Some(Ok(Made {
                entry: go_alone(locus, plan.instr, plan.reach),
                instr: plan.instr,
            })),
            _ => None,
        },
    }
}

/// The step by the locus and one other, which may be the atlas.
pub(crate) fn advance_two<B: Bond<Cell>, K: PageStore, S: Supplier, P: Policy>(
    all: &Authority<Cell, B>,
    locus: &mut Cell,
    other: &mut Cell,
    store: &mut K,
    gate: &Gate<S, P>,
) -> Option<Result<Made, StepFault>>
    requires keeps { S.keeps gate.now.supply }
    requires may { MayAdvance K.PageStore (S.word gate.now.supply) all.now store.old }
    requires stand { StandIn all.now (locus.old ∷ other.old ∷ []) }
    ensures { AdvancesBy K.PageStore (S.word gate.now.supply) all.now locus.old locus.new (other.old ∷ []) (other.new ∷ []) store.old store.new result }
{
    let _ = all;
    match next_plan(locus) {
        Err(why) => Some(Err(StepFault::Idle(why))),
        Ok(plan) => {
            if !touches_one(plan.reach, other) {
                return None;
            }
            if other.clock.entity.number() == 0 {
                return Some(Ok(Made {
                    entry: go_with_atlas(locus, other, plan.instr, plan.reach),
                    instr: plan.instr,
                }));
            }
            match plan.reach {
                Reach::Look(_) => Some(go_look(locus, other, store, plan.instr, gate)),
                _ => Some(Ok(Made {
                    entry: go_beside(locus, other, plan.instr),
                    instr: plan.instr,
                })),
            }
        }
    }
}

/// The step by the locus, the atlas and one other.
pub(crate) fn advance_three<B: Bond<Cell>, K: PageStore, S: Supplier, P: Policy>(
    all: &Authority<Cell, B>,
    locus: &mut Cell,
    atlas: &mut Cell,
    other: &mut Cell,
    store: &mut K,
    gate: &Gate<S, P>,
) -> Option<Result<Made, StepFault>>
    requires keeps { S.keeps gate.now.supply }
    requires may { MayAdvance K.PageStore (S.word gate.now.supply) all.now store.old }
    requires stand { StandIn all.now (locus.old ∷ atlas.old ∷ other.old ∷ []) }
    ensures { AdvancesBy K.PageStore (S.word gate.now.supply) all.now locus.old locus.new (atlas.old ∷ other.old ∷ []) (atlas.new ∷ other.new ∷ []) store.old store.new result }
{
    let _ = all;
    match next_plan(locus) {
        Err(why) => Some(Err(StepFault::Idle(why))),
        Ok(plan) => {
            if !touches_two(plan.reach, atlas, other) {
                return None;
            }
            Some(Ok(Made {
                entry: go_with_both(locus, atlas, other, plan.instr, plan.reach),
                instr: plan.instr,
            }))
        }
    }
}
