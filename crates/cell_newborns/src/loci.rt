// A locus that a locus spawns, on the parts of three cells.
ghost use Rattle.std.specs.Prelude.{◌≡◌, ◌<◌, ◌+◌, ℕ, List, Some, length};
ghost use Rattle.cell_states.specs.model_kernel.Acts.{wanted};
ghost use Rattle.cell_states.specs.model_kernel.Outcomes.{outcome};
ghost use Rattle.cell_states.specs.model_kernel.Refusals.{instr_at};
ghost use Rattle.cell_states.specs.model_kernel.State.{AtlasState, AtlasCell, LocusCell, LocusState, NotBorn, Supply};
ghost use Rattle.data_atlas.specs.data_atlas_facts.Directory.{Directory};
ghost use Rattle.cell_states.specs.model_acts.Views.{IsReadyLocus};
ghost use Rattle.cell_states.specs.act_alone.Loci.{locus_of};
ghost use Rattle.cell_states.specs.act_alone.declared.loci.Locus.{Locus as ALocus};
ghost use Rattle.cell_states.specs.act_calls.Calls.{atlas_state, is_spawn, WantsBirth};
ghost use Rattle.cell_states.specs.Cells.{locus_cell, part_of, IsRunning};
ghost use Rattle.cell_newborns.specs.Bearing.{MakesNewborn};

use base_types::{Answer, Instr, Reply};
use cell_states::{Locus, Part, spawn};
use data_atlas::Atlas;

fn spawn_locus(
    locus: &mut Locus,
    atlas: &mut Atlas,
    newborn: &mut Option<Locus>,
    instr: Instr,
) -> Reply
    requires ready { IsReadyLocus (locus_of locus.old) }
    requires wants { WantsBirth is_spawn (locus_of locus.old) }
    requires instr { instr ≡ instr_at (locus_of locus.old) }
    requires free { length atlas.old.loci < 23 }
    ensures { (me : ℕ) → (s : Supply)
        → MakesNewborn (outcome s (locus_of locus.old) (wanted me (locus_of locus.old)) (atlas_state atlas.old) NotBorn)
        (LocusCell (locus_of locus.new)) (AtlasCell (atlas_state atlas.new)) (locus_cell newborn.new) (length atlas.old.loci + 41) (Answer.Reply result) }
{
    spawn(locus, atlas, newborn, instr)
}

fn spawn_with_atlas(
    locus: &mut Locus,
    atlas: &mut Part,
    newborn: &mut Option<Locus>,
    instr: Instr,
) -> Answer
    requires ready { IsReadyLocus (locus_of locus.old) }
    requires wants { WantsBirth is_spawn (locus_of locus.old) }
    requires instr { instr ≡ instr_at (locus_of locus.old) }
    requires free { (d : Directory) × (atlas.old ≡ Part.Atlas d) × (length d.loci < 23) }
    ensures { (me : ℕ) → (s : Supply) → (words : ℕ → List ℕ) → (a : AtlasState) → part_of s words atlas.old ≡ AtlasCell a
        → MakesNewborn (outcome s (locus_of locus.old) (wanted me (locus_of locus.old)) a NotBorn)
        (LocusCell (locus_of locus.new)) (part_of s words atlas.new) (locus_cell newborn.new) (length a.loci + 41) result }
{
    match atlas {
        Part::Atlas(directory) => Answer::Reply(spawn_locus(locus, directory, newborn, instr)),
        _ => unreachable!(),
    }
}

fn spawn_to(part: &mut Part, atlas: &mut Part, newborn: &mut Option<Locus>, instr: Instr) -> Answer
    requires wants { (l : ALocus) × IsRunning part.old l × WantsBirth is_spawn (locus_of l) × (instr ≡ instr_at (locus_of l)) }
    requires free { (d : Directory) × (atlas.old ≡ Part.Atlas d) × (length d.loci < 23) }
    ensures { (me : ℕ) → (s : Supply) → (words : ℕ → List ℕ) → (l : LocusState) → (a : AtlasState)
        → part_of s words part.old ≡ LocusCell l → part_of s words atlas.old ≡ AtlasCell a
        → MakesNewborn (outcome s l (wanted me l) a NotBorn)
        (part_of s words part.new) (part_of s words atlas.new) (locus_cell newborn.new) (length a.loci + 41) result }
{
    match part {
        Part::Locus(Some(locus)) => spawn_with_atlas(locus, atlas, newborn, instr),
        _ => unreachable!(),
    }
}

/// What a birth of a locus makes of the parts of three cells.
pub(crate) fn spawn_in_parts(
    part: &mut Part,
    atlas: &mut Part,
    newborn: &mut Part,
    instr: Instr,
) -> Answer
    requires wants { (l : ALocus) × IsRunning part.old l × WantsBirth is_spawn (locus_of l) × (instr ≡ instr_at (locus_of l)) }
    requires free { (d : Directory) × (atlas.old ≡ Part.Atlas d) × (length d.loci < 23) }
    ensures { (me : ℕ) → (s : Supply) → (words : ℕ → List ℕ) → (l : LocusState) → (a : AtlasState)
        → part_of s words part.old ≡ LocusCell l → part_of s words atlas.old ≡ AtlasCell a
        → MakesNewborn (outcome s l (wanted me l) a NotBorn)
        (part_of s words part.new) (part_of s words atlas.new) (part_of s words newborn.new) (length a.loci + 41) result }
{
    let mut spawned = None;
    let answer = spawn_to(part, atlas, &mut spawned, instr);
    *newborn = Part::Locus(spawned);
    answer
}
