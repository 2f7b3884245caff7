// A container that a locus makes, on the parts of three cells.
ghost use Rattle.std.specs.Prelude.{◌≡◌, ◌≤◌, ◌<◌, ◌+◌, ℕ, List, length};
ghost use Rattle.cell_states.specs.model_kernel.Acts.{wanted};
ghost use Rattle.cell_states.specs.model_kernel.Outcomes.{outcome, supplied};
ghost use Rattle.cell_states.specs.model_kernel.Refusals.{instr_at};
ghost use Rattle.cell_states.specs.model_kernel.State.{AtlasState, AtlasCell, ContainerCell, LocusCell, LocusState, NotBorn, Supply};
ghost use Rattle.data_atlas.specs.data_atlas_facts.Directory.{Directory};
ghost use Rattle.cell_states.specs.model_acts.Views.{IsReadyLocus};
ghost use Rattle.cell_states.specs.act_alone.Loci.{locus_of, container_with};
ghost use Rattle.cell_states.specs.act_alone.declared.loci.Locus.{Locus as ALocus};
ghost use Rattle.cell_states.specs.act_calls.Calls.{atlas_state, is_make, WantsBirth};
ghost use Rattle.cell_states.specs.Cells.{part_of, IsRunning};
ghost use Rattle.cell_newborns.specs.Bearing.{IsNewContainer, IsUnbornContainer, MakesNewborn};

use base_types::{Answer, Instr, Reply};
use cell_states::{Head, Locus, Part, ShadowTable, Storage, make};
use data_atlas::Atlas;

/// Puts a new container into its place. No page is resident, and none has a block.
fn begin(storage: &mut Storage, head: Head)
    requires some { 1 ≤ head.pages }
    requires few { head.pages ≤ 256 }
    ensures cell { (s : Supply) → (words : ℕ → List ℕ) → part_of s words (Part.Container storage.new) ≡ ContainerCell (container_with (supplied s head.tag) head) }
    ensures memory { IsNewContainer (Part.Container storage.new) }
{
    storage
        .memory
        .begin(head.tag, head.pages, &ShadowTable::new());
    storage.head = Some(head);
}

fn make_storage(locus: &mut Locus, atlas: &mut Atlas, storage: &mut Storage, instr: Instr) -> Reply
    requires ready { IsReadyLocus (locus_of locus.old) }
    requires wants { WantsBirth is_make (locus_of locus.old) }
    requires instr { instr ≡ instr_at (locus_of locus.old) }
    requires free { length atlas.old.containers < 40 }
    ensures made { (me : ℕ) → (s : Supply) → (words : ℕ → List ℕ)
        → MakesNewborn (outcome s (locus_of locus.old) (wanted me (locus_of locus.old)) (atlas_state atlas.old) NotBorn)
        (LocusCell (locus_of locus.new)) (AtlasCell (atlas_state atlas.new)) (part_of s words (Part.Container storage.new)) (length atlas.old.containers + 1) (Answer.Reply result) }
    ensures memory { IsNewContainer (Part.Container storage.new) }
{
    let mut newborn = None;
    let reply = make(locus, atlas, &mut newborn, instr);
    let Some(head) = newborn else { unreachable!() };
    begin(storage, head);
    reply
}

fn make_part(locus: &mut Locus, atlas: &mut Atlas, newborn: &mut Part, instr: Instr) -> Reply
    requires ready { IsReadyLocus (locus_of locus.old) }
    requires wants { WantsBirth is_make (locus_of locus.old) }
    requires instr { instr ≡ instr_at (locus_of locus.old) }
    requires free { length atlas.old.containers < 40 }
    requires unborn { IsUnbornContainer newborn.old }
    ensures made { (me : ℕ) → (s : Supply) → (words : ℕ → List ℕ)
        → MakesNewborn (outcome s (locus_of locus.old) (wanted me (locus_of locus.old)) (atlas_state atlas.old) NotBorn)
        (LocusCell (locus_of locus.new)) (AtlasCell (atlas_state atlas.new)) (part_of s words newborn.new) (length atlas.old.containers + 1) (Answer.Reply result) }
    ensures memory { IsNewContainer newborn.new }
{
    match newborn {
        Part::Container(storage) => make_storage(locus, atlas, storage, instr),
        _ => unreachable!(),
    }
}

fn make_with_atlas(locus: &mut Locus, atlas: &mut Part, newborn: &mut Part, instr: Instr) -> Answer
    requires ready { IsReadyLocus (locus_of locus.old) }
    requires wants { WantsBirth is_make (locus_of locus.old) }
    requires instr { instr ≡ instr_at (locus_of locus.old) }
    requires free { (d : Directory) × (atlas.old ≡ Part.Atlas d) × (length d.containers < 40) }
    requires unborn { IsUnbornContainer newborn.old }
    ensures made { (me : ℕ) → (s : Supply) → (words : ℕ → List ℕ) → (a : AtlasState) → part_of s words atlas.old ≡ AtlasCell a
        → MakesNewborn (outcome s (locus_of locus.old) (wanted me (locus_of locus.old)) a NotBorn)
        (LocusCell (locus_of locus.new)) (part_of s words atlas.new) (part_of s words newborn.new) (length a.containers + 1) result }
    ensures memory { IsNewContainer newborn.new }
{
    match atlas {
        Part::Atlas(directory) => Answer::Reply(make_part(locus, directory, newborn, instr)),
        _ => unreachable!(),
    }
}

/// What a birth of a container makes of the parts of three cells.
pub(crate) fn make_in_parts(
    part: &mut Part,
    atlas: &mut Part,
    newborn: &mut Part,
    instr: Instr,
) -> Answer
    requires wants { (l : ALocus) × IsRunning part.old l × WantsBirth is_make (locus_of l) × (instr ≡ instr_at (locus_of l)) }
    requires free { (d : Directory) × (atlas.old ≡ Part.Atlas d) × (length d.containers < 40) }
    requires unborn { IsUnbornContainer newborn.old }
    ensures made { (me : ℕ) → (s : Supply) → (words : ℕ → List ℕ) → (l : LocusState) → (a : AtlasState)
        → part_of s words part.old ≡ LocusCell l → part_of s words atlas.old ≡ AtlasCell a
        → MakesNewborn (outcome s l (wanted me l) a NotBorn)
        (part_of s words part.new) (part_of s words atlas.new) (part_of s words newborn.new) (length a.containers + 1) result }
    ensures memory { IsNewContainer newborn.new }
{
    match part {
        Part::Locus(Some(locus)) => make_with_atlas(locus, atlas, newborn, instr),
        _ => unreachable!(),
    }
}
