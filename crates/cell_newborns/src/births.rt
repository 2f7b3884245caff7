// The step of a locus that gives birth.
ghost use Rattle.std.specs.Prelude.{◌≡◌, ◌<◌, ◌+◌, ◌^◌, ℕ, List, length};
ghost use Rattle.data_atlas.specs.data_atlas_facts.Directory.{Directory};
ghost use Rattle.cell_states.specs.model_kernel.Refusals.{instr_at};
ghost use Rattle.cell_states.specs.model_kernel.State.{KernelState, Supply};
ghost use Rattle.cell_states.specs.act_alone.Loci.{locus_of};
ghost use Rattle.cell_states.specs.act_alone.declared.loci.Locus.{Locus as ALocus};
ghost use Rattle.cell_states.specs.act_calls.Calls.{is_make, is_spawn, WantsBirth};
ghost use Rattle.cell_states.specs.Cells.{HasCell, IsRunning};
ghost use Rattle.cell_states.specs.Steps.{Steps};
ghost use Rattle.cell_newborns.specs.Bearing.{IsNewContainer, IsUnbornContainer};

use crate::containers::make_in_parts;
use crate::loci::spawn_in_parts;
use base_types::{Entry, Event, Instr};
use cell_states::{Cell, Part, write_three};

/// The step of a running locus that makes a container by this instruction, where a number is free. The cell of the lowest
/// free number becomes the container. It takes no memory. Wishes and steps left are as before.
pub fn step_make(locus: &mut Cell, atlas: &mut Cell, newborn: &mut Cell, instr: Instr) -> Entry
    requires wants { (l : ALocus) × IsRunning locus.old.part l × WantsBirth is_make (locus_of l) × (instr ≡ instr_at (locus_of l)) }
    requires free { (d : Directory) × (atlas.old.part ≡ Part.Atlas d) × (length d.containers < 40) × (newborn.old.clock.entity ≡ length d.containers + 1) }
    requires unborn { IsUnbornContainer newborn.old.part }
    requires atlas { atlas.old.clock.entity ≡ 0 }
    requires lower { newborn.old.clock.entity < locus.old.clock.entity }
    requires few { (locus.old.clock.version < 2 ^ 63) × (atlas.old.clock.version < 2 ^ 63) × (newborn.old.clock.version < 2 ^ 63) }
    ensures step { (s : Supply) → (words : ℕ → List ℕ) → (w : KernelState)
        → HasCell s words w locus.old → HasCell s words w atlas.old → HasCell s words w newborn.old
        → Steps s locus.old.clock.entity w result (λ v. HasCell s words v locus.new × HasCell s words v atlas.new × HasCell s words v newborn.new) }
    ensures memory { IsNewContainer newborn.new.part }
    ensures entities { (locus.new.clock.entity ≡ locus.old.clock.entity) × (atlas.new.clock.entity ≡ atlas.old.clock.entity) × (newborn.new.clock.entity ≡ newborn.old.clock.entity) }
    ensures wishes { (locus.new.wish ≡ locus.old.wish) × (atlas.new.wish ≡ atlas.old.wish) × (newborn.new.wish ≡ newborn.old.wish) }
    ensures left { (locus.new.left ≡ locus.old.left) × (atlas.new.left ≡ atlas.old.left) × (newborn.new.left ≡ newborn.old.left) }
{
    let me = locus.clock.entity;
    let answer = make_in_parts(&mut locus.part, &mut atlas.part, &mut newborn.part, instr);
    write_three(
        Event::Step,
        me,
        answer,
        &mut atlas.clock,
        &mut newborn.clock,
        &mut locus.clock,
    )
}

/// The step of a running locus that spawns a locus like it by this instruction, where a number is free. The cell of the
/// lowest free number becomes the locus. Wishes and steps left are as before.
pub fn step_spawn(locus: &mut Cell, atlas: &mut Cell, newborn: &mut Cell, instr: Instr) -> Entry
    requires wants { (l : ALocus) × IsRunning locus.old.part l × WantsBirth is_spawn (locus_of l) × (instr ≡ instr_at (locus_of l)) }
    requires free { (d : Directory) × (atlas.old.part ≡ Part.Atlas d) × (length d.loci < 23) × (newborn.old.clock.entity ≡ length d.loci + 41) }
    requires atlas { atlas.old.clock.entity ≡ 0 }
    requires locus { 0 < locus.old.clock.entity }
    requires higher { locus.old.clock.entity < newborn.old.clock.entity }
    requires few { (locus.old.clock.version < 2 ^ 63) × (atlas.old.clock.version < 2 ^ 63) × (newborn.old.clock.version < 2 ^ 63) }
    ensures step { (s : Supply) → (words : ℕ → List ℕ) → (w : KernelState)
        → HasCell s words w locus.old → HasCell s words w atlas.old → HasCell s words w newborn.old
        → Steps s locus.old.clock.entity w result (λ v. HasCell s words v locus.new × HasCell s words v atlas.new × HasCell s words v newborn.new) }
    ensures entities { (locus.new.clock.entity ≡ locus.old.clock.entity) × (atlas.new.clock.entity ≡ atlas.old.clock.entity) × (newborn.new.clock.entity ≡ newborn.old.clock.entity) }
    ensures wishes { (locus.new.wish ≡ locus.old.wish) × (atlas.new.wish ≡ atlas.old.wish) × (newborn.new.wish ≡ newborn.old.wish) }
    ensures left { (locus.new.left ≡ locus.old.left) × (atlas.new.left ≡ atlas.old.left) × (newborn.new.left ≡ newborn.old.left) }
{
    let me = locus.clock.entity;
    let answer = spawn_in_parts(&mut locus.part, &mut atlas.part, &mut newborn.part, instr);
    write_three(
        Event::Step,
        me,
        answer,
        &mut atlas.clock,
        &mut locus.clock,
        &mut newborn.clock,
    )
}
