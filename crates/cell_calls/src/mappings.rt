// The step of a locus that maps or unmaps.
ghost use Rattle.std.specs.Prelude.{◌≡◌, ◌<◌, ◌^◌, ℕ, List};
ghost use Rattle.data_atlas.specs.data_atlas_facts.Directory.{Directory};
ghost use Rattle.cell_states.specs.model_kernel.State.{KernelState, Supply};
ghost use Rattle.cell_states.specs.act_alone.Loci.{locus_of};
ghost use Rattle.cell_states.specs.act_alone.declared.loci.Head.{Head as AHead};
ghost use Rattle.cell_states.specs.act_alone.declared.loci.Locus.{Locus as ALocus};
ghost use Rattle.cell_states.specs.Cells.{HasCell, IsRunning};
ghost use Rattle.cell_states.specs.Steps.{Steps};
ghost use Rattle.cell_calls.specs.Besides.{KeepsMemory};
ghost use Rattle.cell_calls.specs.Mapping.{IsDirectoryPart, IsHeadPart, MayMap, WantsMapping};

use crate::parts::map_in_parts;
use crate::{Cell, write_three};
use base_types::{Entry, Event, Instr};

/// The step of a running locus that maps pages of one container into another, or unmaps them. The locus, the atlas and the
/// container into which they are mapped are written, also where the act is refused. Wishes and steps left are as before.
pub fn step_mapping(locus: &mut Cell, atlas: &mut Cell, other: &mut Cell, instr: Instr) -> Entry
    requires wants { (l : ALocus) × IsRunning locus.old.part l × WantsMapping (locus_of l) instr other.old.clock.entity
        × (d : Directory) × IsDirectoryPart atlas.old.part d × (h : AHead) × IsHeadPart other.old.part h × MayMap d (locus_of l) other.old.clock.entity h }
    requires atlas { atlas.old.clock.entity ≡ 0 }
    requires some { 0 < other.old.clock.entity }
    requires lower { other.old.clock.entity < locus.old.clock.entity }
    requires few { (locus.old.clock.version < 2 ^ 63) × (atlas.old.clock.version < 2 ^ 63) × (other.old.clock.version < 2 ^ 63) }
    ensures step { (s : Supply) → (words : ℕ → List ℕ) → (w : KernelState)
        → HasCell s words w locus.old → HasCell s words w atlas.old → HasCell s words w other.old
        → Steps s locus.old.clock.entity w result (λ v. HasCell s words v locus.new × HasCell s words v atlas.new × HasCell s words v other.new) }
    ensures memory { KeepsMemory other.old.part other.new.part }
    ensures entities { (locus.new.clock.entity ≡ locus.old.clock.entity) × (atlas.new.clock.entity ≡ atlas.old.clock.entity) × (other.new.clock.entity ≡ other.old.clock.entity) }
    ensures wishes { (locus.new.wish ≡ locus.old.wish) × (atlas.new.wish ≡ atlas.old.wish) × (other.new.wish ≡ other.old.wish) }
    ensures left { (locus.new.left ≡ locus.old.left) × (atlas.new.left ≡ atlas.old.left) × (other.new.left ≡ other.old.left) }
{
    let me = locus.clock.entity;
    let number = other.clock.entity;
    let answer = map_in_parts(
        &mut locus.part,
        &mut atlas.part,
        number,
        &mut other.part,
        instr,
    );
    write_three(
        Event::Step,
        me,
        answer,
        &mut atlas.clock,
        &mut other.clock,
        &mut locus.clock,
    )
}
