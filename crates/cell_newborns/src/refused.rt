// The step of a locus that would give birth where no number is free.
ghost use Rattle.std.specs.Prelude.{◌≡◌, ◌<◌, ◌^◌, ℕ, List};
ghost use Rattle.data_atlas.specs.data_atlas_facts.Directory.{Directory};
ghost use Rattle.cell_states.specs.model_kernel.Acts.{wanted};
ghost use Rattle.cell_states.specs.model_kernel.Outcomes.{outcome};
ghost use Rattle.cell_states.specs.model_kernel.State.{AtlasCell, KernelState, LocusCell, LocusState, NotBorn, Supply};
ghost use Rattle.cell_states.specs.model_acts.Views.{IsReadyLocus};
ghost use Rattle.cell_states.specs.act_alone.Loci.{locus_of};
ghost use Rattle.cell_states.specs.act_alone.declared.loci.Locus.{Locus as ALocus};
ghost use Rattle.cell_states.specs.act_calls.Calls.{atlas_state};
ghost use Rattle.cell_states.specs.Cells.{part_of, HasCell, IsRunning};
ghost use Rattle.cell_states.specs.Steps.{Steps};
ghost use Rattle.cell_newborns.specs.Bearing.{MakesNone, NoNumberFree};

use base_types::{Answer, Entry, Event, Reply};
use cell_states::{Cell, Locus, Part, write_two};

fn refuse(locus: &mut Locus) -> Answer
    requires ready { IsReadyLocus (locus_of locus.old) }
    requires none { (d : Directory) × NoNumberFree (locus_of locus.old) d }
    ensures { (me : ℕ) → (s : Supply) → (d : Directory) → NoNumberFree (locus_of locus.old) d
        → MakesNone (outcome s (locus_of locus.old) (wanted me (locus_of locus.old)) (atlas_state d) NotBorn) (LocusCell (locus_of locus.new)) (AtlasCell (atlas_state d)) result }
{
    locus.finish(Reply::NoNumber)
}

fn refuse_in_part(part: &mut Part) -> Answer
    requires wants { (l : ALocus) × IsRunning part.old l × (d : Directory) × NoNumberFree (locus_of l) d }
    ensures { (me : ℕ) → (s : Supply) → (words : ℕ → List ℕ) → (l : LocusState) → (d : Directory) → part_of s words part.old ≡ LocusCell l → NoNumberFree l d
        → MakesNone (outcome s l (wanted me l) (atlas_state d) NotBorn) (part_of s words part.new) (AtlasCell (atlas_state d)) result }
{
    match part {
        Part::Locus(Some(locus)) => refuse(locus),
        _ => unreachable!(),
    }
}

/// The step of a running locus that would make a container or spawn a locus, where no number is free. It writes the atlas,
/// in which nothing changes. Wishes and steps left are as before.
pub fn step_no_number(locus: &mut Cell, atlas: &mut Cell) -> Entry
    requires wants { (l : ALocus) × IsRunning locus.old.part l × (d : Directory) × (atlas.old.part ≡ Part.Atlas d) × NoNumberFree (locus_of l) d }
    requires atlas { atlas.old.clock.entity ≡ 0 }
    requires some { 0 < locus.old.clock.entity }
    requires few { (locus.old.clock.version < 2 ^ 63) × (atlas.old.clock.version < 2 ^ 63) }
    ensures step { (s : Supply) → (words : ℕ → List ℕ) → (w : KernelState) → HasCell s words w locus.old → HasCell s words w atlas.old
        → Steps s locus.old.clock.entity w result (λ v. HasCell s words v locus.new × HasCell s words v atlas.new) }
    ensures entities { (locus.new.clock.entity ≡ locus.old.clock.entity) × (atlas.new.clock.entity ≡ atlas.old.clock.entity) }
    ensures rest { (locus.new.wish ≡ locus.old.wish) × (locus.new.left ≡ locus.old.left) × (atlas.new.wish ≡ atlas.old.wish) × (atlas.new.left ≡ atlas.old.left) }
{
    let me = locus.clock.entity;
    let answer = refuse_in_part(&mut locus.part);
    write_two(Event::Step, me, answer, &mut atlas.clock, &mut locus.clock)
}
