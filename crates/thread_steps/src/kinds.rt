// Steps of a locus that look at no container, by what else is lent. Each asks that the cells are those that the plan touches.
ghost use Rattle.std.specs.Prelude.{◌≡◌, ◌≢◌, ℕ, [], ◌∷◌};
ghost use Rattle.table_laws.specs.cell_plans.Plans.{IsPlanned};
ghost use Rattle.table_laws.specs.cell_plans.declared.plans.Reach.{Reach as AReach};
ghost use Rattle.table_laws.specs.cell_plans.declared.plans.Reach.TheVariants as reach;
ghost use Rattle.table_laws.specs.Tables.{AreFewWrites};
ghost use Rattle.thread_steps.specs.Lending.{AreLent};
ghost use Rattle.thread_steps.specs.Stepping.{StepsApart};

use base_types::{Entry, Instr};
use table_laws::{
    Cell, Reach, advance_alone, advance_barren, advance_beside, advance_making, advance_mapping,
    advance_spawning,
};

/// The step of a locus by an act that touches it alone.
pub fn go_alone(locus: &mut Cell, instr: Instr, reach: Reach) -> Entry
    requires lent { AreLent locus.old [] [] }
    requires few { AreFewWrites (locus.old ∷ []) }
    requires planned { IsPlanned locus.old instr reach }
    ensures { StepsApart locus.old locus.new [] [] [] [] instr result }
{
    match reach {
        Reach::Alone(act) => advance_alone(locus, act),
        _ => unreachable!(),
    }
}

/// The step of a locus beside one other entity.
pub fn go_beside(locus: &mut Cell, other: &mut Cell, instr: Instr) -> Entry
    requires lent { AreLent locus.old [] (other.old ∷ []) }
    requires few { AreFewWrites (locus.old ∷ other.old ∷ []) }
    requires planned { (r : AReach) × IsPlanned locus.old instr r × ((x : ℕ) → r ≢ reach.Look x) }
    ensures { StepsApart locus.old locus.new [] [] (other.old ∷ []) (other.new ∷ []) instr result }
{
    advance_beside(locus, other, instr)
}

/// The step of a locus beside the atlas, or one for which no number is free.
pub fn go_with_atlas(locus: &mut Cell, atlas: &mut Cell, instr: Instr, reach: Reach) -> Entry
    requires lent { AreLent locus.old (atlas.old ∷ []) [] }
    requires few { AreFewWrites (locus.old ∷ atlas.old ∷ []) }
    requires planned { IsPlanned locus.old instr reach }
    ensures { StepsApart locus.old locus.new (atlas.old ∷ []) (atlas.new ∷ []) [] [] instr result }
{
    match reach {
        Reach::Beside(_) => advance_beside(locus, atlas, instr),
        _ => advance_barren(locus, atlas, instr),
    }
}

/// The step of a locus that maps pages, makes a container or spawns a locus.
pub fn go_with_both(
    locus: &mut Cell,
    atlas: &mut Cell,
    other: &mut Cell,
    instr: Instr,
    reach: Reach,
) -> Entry
    requires lent { AreLent locus.old (atlas.old ∷ []) (other.old ∷ []) }
    requires few { AreFewWrites (locus.old ∷ atlas.old ∷ other.old ∷ []) }
    requires planned { IsPlanned locus.old instr reach }
    ensures { StepsApart locus.old locus.new (atlas.old ∷ []) (atlas.new ∷ []) (other.old ∷ []) (other.new ∷ []) instr result }
{
    match reach {
        Reach::Mapping(_) => advance_mapping(locus, atlas, other, instr),
        Reach::Make => advance_making(locus, atlas, other, instr),
        Reach::Spawn => advance_spawning(locus, atlas, other, instr),
        _ => unreachable!(),
    }
}
