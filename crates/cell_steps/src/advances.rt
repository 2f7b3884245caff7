// Steps of a locus over the cells that they touch.
ghost use Rattle.std.specs.Prelude.{◌≡◌, ◌≢◌, ◌<◌, ◌^◌, ℕ, List, [], ◌∷◌};
ghost use Rattle.page_store.specs.model_kernel.State.{Supply};
ghost use Rattle.cell_plans.specs.cell_calls.Besides.{FitsBeside, KeepsMemory};
ghost use Rattle.cell_plans.specs.Plans.{IsPlanned};
ghost use Rattle.cell_plans.specs.declared.plans.Reach.TheVariants as reach;
ghost use Rattle.cell_steps.specs.Advances.{StepsCells};

use crate::noting::{named_by_snap, note};
use base_types::{Entry, Instr};
use cell_looks::{Cell, step_alone};
use cell_plans::{Act, step_beside};

/// The step of a locus by this act, which touches it alone.
pub fn advance_alone(locus: &mut Cell, act: Act) -> Entry
    requires planned { IsPlanned locus.old act.instr (reach.Alone act) }
    requires few { locus.old.clock.version < 2 ^ 63 }
    ensures step { (s : Supply) → (words : ℕ → List ℕ) → StepsCells s words words locus.old.clock.entity (locus.old ∷ []) (locus.new ∷ []) result }
    ensures entity { locus.new.clock.entity ≡ locus.old.clock.entity }
{
    let named = named_by_snap(locus, act.instr);
    let entry = step_alone(locus, act);
    note(locus, &entry, &named);
    entry
}

/// The step of a locus beside another entity that it neither looks at nor maps into. Both are written.
pub fn advance_beside(locus: &mut Cell, other: &mut Cell, instr: Instr) -> Entry
    requires planned { IsPlanned locus.old instr (reach.Beside other.old.clock.entity) }
    requires fits { FitsBeside instr other.old.part }
    requires apart { other.old.clock.entity ≢ locus.old.clock.entity }
    requires few { (locus.old.clock.version < 2 ^ 63) × (other.old.clock.version < 2 ^ 63) }
    ensures step { (s : Supply) → (words : ℕ → List ℕ)
        → StepsCells s words words locus.old.clock.entity (locus.old ∷ other.old ∷ []) (locus.new ∷ other.new ∷ []) result }
    ensures memory { KeepsMemory other.old.part other.new.part }
    ensures entities { (locus.new.clock.entity ≡ locus.old.clock.entity) × (other.new.clock.entity ≡ other.old.clock.entity) }
{
    let named = named_by_snap(locus, instr);
    let entry = step_beside(locus, other, instr);
    note(locus, &entry, &named);
    note(other, &entry, &named);
    entry
}
