// Steps of a locus that write the atlas.
ghost use Rattle.std.specs.Prelude.{◌≡◌, ◌+◌, ◌<◌, ◌^◌, ℕ, List, [], ◌∷◌, length, Some};
ghost use Rattle.cell_newborns.specs.data_atlas_facts.Directory.{Directory};
ghost use Rattle.page_store.specs.model_kernel.Refusals.{instr_at};
ghost use Rattle.page_store.specs.model_kernel.State.{Supply};
ghost use Rattle.cell_looks.specs.act_alone.Loci.{locus_of};
ghost use Rattle.cell_looks.specs.act_alone.declared.loci.Head.{Head as AHead};
ghost use Rattle.cell_looks.specs.act_alone.declared.loci.Locus.{Locus as ALocus};
ghost use Rattle.cell_looks.specs.cell_states.Cells.{IsRunning};
ghost use Rattle.cell_plans.specs.cell_calls.Besides.{KeepsMemory};
ghost use Rattle.cell_newborns.specs.Bearing.{IsNewContainer, IsUnbornContainer, NoNumberFree};
ghost use Rattle.cell_plans.specs.cell_calls.Mapping.{IsDirectoryPart, IsHeadPart, MayMap};
ghost use Rattle.cell_plans.specs.Plans.{IsPlanned};
ghost use Rattle.cell_plans.specs.declared.plans.Reach.TheVariants as reach;
ghost use Rattle.cell_steps.specs.Advances.{StepsCells};

use crate::noting::{named_by_snap, note};
use base_types::{Entry, Instr};
use cell_looks::{Cell, Part};
use cell_newborns::{step_make, step_no_number, step_spawn};
use cell_plans::step_mapping;

/// The step of a locus that maps pages into a container, or unmaps them.
pub fn advance_mapping(locus: &mut Cell, atlas: &mut Cell, other: &mut Cell, instr: Instr) -> Entry
    requires planned { IsPlanned locus.old instr (reach.Mapping other.old.clock.entity) }
    requires may { (l : ALocus) → locus.old.part ≡ Part.Locus (Some l)
        → (d : Directory) × IsDirectoryPart atlas.old.part d × (h : AHead) × IsHeadPart other.old.part h × MayMap d (locus_of l) other.old.clock.entity h }
    requires atlas { atlas.old.clock.entity ≡ 0 }
    requires some { 0 < other.old.clock.entity }
    requires lower { other.old.clock.entity < locus.old.clock.entity }
    requires few { (locus.old.clock.version < 2 ^ 63) × (atlas.old.clock.version < 2 ^ 63) × (other.old.clock.version < 2 ^ 63) }
    ensures step { (s : Supply) → (words : ℕ → List ℕ)
        → StepsCells s words words locus.old.clock.entity (locus.old ∷ atlas.old ∷ other.old ∷ []) (locus.new ∷ atlas.new ∷ other.new ∷ []) result }
    ensures memory { KeepsMemory other.old.part other.new.part }
    ensures entities { (locus.new.clock.entity ≡ locus.old.clock.entity) × (atlas.new.clock.entity ≡ atlas.old.clock.entity) × (other.new.clock.entity ≡ other.old.clock.entity) }
{
    let named = named_by_snap(locus, instr);
    let entry = step_mapping(locus, atlas, other, instr);
    note(locus, &entry, &named);
    note(atlas, &entry, &named);
    note(other, &entry, &named);
    entry
}

/// The step of a locus that makes a container by this instruction, where a number is free. The cell of the lowest free number is lent.
pub fn advance_making(locus: &mut Cell, atlas: &mut Cell, newborn: &mut Cell, instr: Instr) -> Entry
    requires planned { IsPlanned locus.old instr reach.Make }
    requires free { (d : Directory) × (atlas.old.part ≡ Part.Atlas d) × (length d.containers < 40) × (newborn.old.clock.entity ≡ length d.containers + 1) }
    requires unborn { IsUnbornContainer newborn.old.part }
    requires atlas { atlas.old.clock.entity ≡ 0 }
    requires lower { newborn.old.clock.entity < locus.old.clock.entity }
    requires few { (locus.old.clock.version < 2 ^ 63) × (atlas.old.clock.version < 2 ^ 63) × (newborn.old.clock.version < 2 ^ 63) }
    ensures step { (s : Supply) → (words : ℕ → List ℕ)
        → StepsCells s words words locus.old.clock.entity (locus.old ∷ atlas.old ∷ newborn.old ∷ []) (locus.new ∷ atlas.new ∷ newborn.new ∷ []) result }
    ensures memory { IsNewContainer newborn.new.part }
    ensures entities { (locus.new.clock.entity ≡ locus.old.clock.entity) × (atlas.new.clock.entity ≡ atlas.old.clock.entity) × (newborn.new.clock.entity ≡ newborn.old.clock.entity) }
{
    let named = named_by_snap(locus, instr);
    let entry = step_make(locus, atlas, newborn, instr);
    note(locus, &entry, &named);
    note(atlas, &entry, &named);
    note(newborn, &entry, &named);
    entry
}

/// The step of a locus that spawns a locus by this instruction, where a number is free. The cell of the lowest free number is lent.
pub fn advance_spawning(
    locus: &mut Cell,
    atlas: &mut Cell,
    newborn: &mut Cell,
    instr: Instr,
) -> Entry
    requires planned { IsPlanned locus.old instr reach.Spawn }
    requires free { (d : Directory) × (atlas.old.part ≡ Part.Atlas d) × (length d.loci < 23) × (newborn.old.clock.entity ≡ length d.loci + 41) }
    requires atlas { atlas.old.clock.entity ≡ 0 }
    requires some { 0 < locus.old.clock.entity }
    requires higher { locus.old.clock.entity < newborn.old.clock.entity }
    requires few { (locus.old.clock.version < 2 ^ 63) × (atlas.old.clock.version < 2 ^ 63) × (newborn.old.clock.version < 2 ^ 63) }
    ensures step { (s : Supply) → (words : ℕ → List ℕ)
        → StepsCells s words words locus.old.clock.entity (locus.old ∷ atlas.old ∷ newborn.old ∷ []) (locus.new ∷ atlas.new ∷ newborn.new ∷ []) result }
    ensures entities { (locus.new.clock.entity ≡ locus.old.clock.entity) × (atlas.new.clock.entity ≡ atlas.old.clock.entity) × (newborn.new.clock.entity ≡ newborn.old.clock.entity) }
{
    let named = named_by_snap(locus, instr);
    let entry = step_spawn(locus, atlas, newborn, instr);
    note(locus, &entry, &named);
    note(atlas, &entry, &named);
    note(newborn, &entry, &named);
    entry
}

/// The step of a locus that would make a container or spawn a locus by this instruction, where no number is free.
pub fn advance_barren(locus: &mut Cell, atlas: &mut Cell, instr: Instr) -> Entry
    requires wants { (l : ALocus) × IsRunning locus.old.part l × (d : Directory) × (atlas.old.part ≡ Part.Atlas d) × NoNumberFree (locus_of l) d × (instr ≡ instr_at (locus_of l)) }
    requires left { 0 < locus.old.left }
    requires atlas { atlas.old.clock.entity ≡ 0 }
    requires some { 0 < locus.old.clock.entity }
    requires few { (locus.old.clock.version < 2 ^ 63) × (atlas.old.clock.version < 2 ^ 63) }
    ensures step { (s : Supply) → (words : ℕ → List ℕ)
        → StepsCells s words words locus.old.clock.entity (locus.old ∷ atlas.old ∷ []) (locus.new ∷ atlas.new ∷ []) result }
    ensures entities { (locus.new.clock.entity ≡ locus.old.clock.entity) × (atlas.new.clock.entity ≡ atlas.old.clock.entity) }
{
    let named = named_by_snap(locus, instr);
    let entry = step_no_number(locus, atlas);
    note(locus, &entry, &named);
    note(atlas, &entry, &named);
    entry
}
