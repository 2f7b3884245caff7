// Mappings on the parts of three cells.
ghost use Rattle.std.specs.Prelude.{◌≡◌, ℕ, List, Some, None};
ghost use Rattle.cell_states.specs.model_kernel.Acts.{wanted};
ghost use Rattle.cell_states.specs.model_kernel.Outcomes.{outcome};
ghost use Rattle.cell_states.specs.model_kernel.State.{AtlasState, AtlasCell, ContainerCell, LocusCell, LocusState, Supply};
ghost use Rattle.data_atlas.specs.data_atlas_facts.Directory.{Directory};
ghost use Rattle.cell_states.specs.model_acts.Views.{IsReadyLocus};
ghost use Rattle.cell_states.specs.act_alone.Loci.{locus_of, container_with};
ghost use Rattle.cell_states.specs.act_alone.declared.loci.Head.{Head as AHead};
ghost use Rattle.cell_states.specs.act_alone.declared.loci.Locus.{Locus as ALocus};
ghost use Rattle.cell_states.specs.act_calls.Calls.{atlas_state, AtlasCallMade};
ghost use Rattle.cell_states.specs.Cells.{part_of, IsRunning};
ghost use Rattle.cell_calls.specs.Besides.{KeepsMemory};
ghost use Rattle.cell_calls.specs.Mapping.{IsDirectoryPart, IsHeadPart, MakesThree, MayMap, WantsMapping};

use crate::{Head, Locus, Part, Storage, map, unmap};
use base_types::{Answer, Entity, Instr, Reply};
use data_atlas::Atlas;

fn map_head(
    locus: &mut Locus,
    atlas: &mut Atlas,
    number: Entity,
    head: &mut Head,
    instr: Instr,
) -> Reply
    requires ready { IsReadyLocus (locus_of locus.old) }
    requires wants { WantsMapping (locus_of locus.old) instr number }
    requires may { MayMap atlas.old (locus_of locus.old) number head.old }
    ensures extent { (head.new.tag ≡ head.old.tag) × (head.new.pages ≡ head.old.pages) }
    ensures made { (me : ℕ) → (s : Supply) → (words : ℕ → ℕ)
        → AtlasCallMade (outcome s (locus_of locus.old) (wanted me (locus_of locus.old)) (atlas_state atlas.old) (ContainerCell (container_with words head.old)))
        (locus_of locus.new) result (atlas_state atlas.new) (Some (ContainerCell (container_with words head.new))) None }
{
    match instr {
        Instr::Map(..) => map(locus, atlas, number, head, instr),
        Instr::Unmap(..) => unmap(locus, atlas, number, head, instr),
        _ => unreachable!(),
    }
}

fn map_part(
    locus: &mut Locus,
    atlas: &mut Atlas,
    number: Entity,
    other: &mut Part,
    instr: Instr,
) -> Reply
    requires ready { IsReadyLocus (locus_of locus.old) }
    requires wants { WantsMapping (locus_of locus.old) instr number }
    requires may { (h : AHead) × IsHeadPart other.old h × MayMap atlas.old (locus_of locus.old) number h }
    ensures memory { KeepsMemory other.old other.new }
    ensures made { (me : ℕ) → (s : Supply) → (words : ℕ → List ℕ)
        → AtlasCallMade (outcome s (locus_of locus.old) (wanted me (locus_of locus.old)) (atlas_state atlas.old) (part_of s words other.old))
        (locus_of locus.new) result (atlas_state atlas.new) (Some (part_of s words other.new)) None }
{
    match other {
        Part::Container(
            Storage {
                head: Some(head),
                ..
            },
        ) => { map_head(locus, atlas, number, head, instr) }
        _ => unreachable!(),
    }
}

fn map_with_atlas(
    locus: &mut Locus,
    atlas: &mut Part,
    number: Entity,
    other: &mut Part,
    instr: Instr,
) -> Answer
    requires ready { IsReadyLocus (locus_of locus.old) }
    requires wants { WantsMapping (locus_of locus.old) instr number }
    requires may { (d : Directory) × IsDirectoryPart atlas.old d × (h : AHead) × IsHeadPart other.old h × MayMap d (locus_of locus.old) number h }
    ensures memory { KeepsMemory other.old other.new }
    ensures made { (me : ℕ) → (s : Supply) → (words : ℕ → List ℕ) → (a : AtlasState) → part_of s words atlas.old ≡ AtlasCell a
        → MakesThree (outcome s (locus_of locus.old) (wanted me (locus_of locus.old)) a (part_of s words other.old))
        (LocusCell (locus_of locus.new)) (part_of s words atlas.new) (part_of s words other.new) result }
{
    match atlas {
        Part::Atlas(directory) => {
            Answer::Reply(map_part(locus, directory, number, other, instr))
        }
        _ => unreachable!(),
    }
}

/// What a mapping makes of the parts of three cells.
pub(crate) fn map_in_parts(
    part: &mut Part,
    atlas: &mut Part,
    number: Entity,
    other: &mut Part,
    instr: Instr,
) -> Answer
    requires wants { (l : ALocus) × IsRunning part.old l × WantsMapping (locus_of l) instr number
        × (d : Directory) × IsDirectoryPart atlas.old d × (h : AHead) × IsHeadPart other.old h × MayMap d (locus_of l) number h }
    ensures memory { KeepsMemory other.old other.new }
    ensures made { (me : ℕ) → (s : Supply) → (words : ℕ → List ℕ) → (l : LocusState) → (a : AtlasState)
        → part_of s words part.old ≡ LocusCell l → part_of s words atlas.old ≡ AtlasCell a
        → MakesThree (outcome s l (wanted me l) a (part_of s words other.old))
        (part_of s words part.new) (part_of s words atlas.new) (part_of s words other.new) result }
{
    match part {
        Part::Locus(Some(locus)) => map_with_atlas(locus, atlas, number, other, instr),
        _ => unreachable!(),
    }
}
