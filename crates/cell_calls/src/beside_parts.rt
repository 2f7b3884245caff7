// Acts on the parts of two cells.
ghost use Rattle.std.specs.Prelude.{◌≡◌, ◌≢◌, ℕ, List, IsTrue, Some};
ghost use Rattle.cell_states.specs.model_kernel.Acts.{wanted};
ghost use Rattle.cell_states.specs.model_kernel.Outcomes.{outcome};
ghost use Rattle.cell_states.specs.model_kernel.State.{AtlasState, Cell as ModelCell, ContainerCell, LocusCell, LocusState, Supply};
ghost use Rattle.cell_states.specs.model_acts.Views.{IsReadyLocus, may_name_itself};
ghost use Rattle.cell_states.specs.act_alone.Loci.{locus_of, container_with};
ghost use Rattle.cell_states.specs.act_alone.declared.loci.Locus.{Locus as ALocus};
ghost use Rattle.cell_states.specs.act_calls.Calls.{CallMade};
ghost use Rattle.cell_states.specs.Cells.{part_of, IsRunning};
ghost use Rattle.cell_calls.specs.Besides.{calls_container, is_snap, FitsBeside, KeepsMemory, MakesBoth, WantsOther};

use base_types::{Answer, Entity, Instr, Reply};
use cell_states::{Head, Locus, Part, Storage, back, give, go, invoke, leave, stop, take};

/// A snap, which leaves the other entity as it is.
fn record_it(locus: &mut Locus, number: Entity, instr: Instr) -> Reply
    requires ready { IsReadyLocus (locus_of locus.old) }
    requires wants { WantsOther (locus_of locus.old) instr number }
    requires snap { IsTrue (is_snap instr) }
    ensures { (me : ℕ) → (s : Supply) → (a : AtlasState) → (cell : ModelCell) → me ≢ number
        → CallMade (outcome s (locus_of locus.old) (wanted me (locus_of locus.old)) a cell) (locus_of locus.new) result (Some cell) }
{
    let _answer = locus.finish(Reply::Ok);
    Reply::Ok
}

/// An act beside a container that neither looks at its words nor maps.
fn act_on_head(locus: &mut Locus, number: Entity, head: &mut Head, instr: Instr) -> Reply
    requires ready { IsReadyLocus (locus_of locus.old) }
    requires wants { WantsOther (locus_of locus.old) instr number }
    requires calls { IsTrue (calls_container instr) }
    ensures extent { (head.new.tag ≡ head.old.tag) × (head.new.pages ≡ head.old.pages) }
    ensures made { (me : ℕ) → (s : Supply) → (a : AtlasState) → (words : ℕ → ℕ) → me ≢ number
        → CallMade (outcome s (locus_of locus.old) (wanted me (locus_of locus.old)) a (ContainerCell (container_with words head.old)))
        (locus_of locus.new) result (Some (ContainerCell (container_with words head.new))) }
{
    match instr {
        Instr::Invoke(_) => invoke(locus, number, head),
        Instr::Leave(_) => leave(locus, number, head),
        Instr::Return => back(locus, head),
        Instr::Take(..) => take(locus, head, instr),
        Instr::Give(..) => give(locus, head, instr),
        Instr::Snap(_) => record_it(locus, number, instr),
        _ => unreachable!(),
    }
}

/// An act beside another locus.
fn act_on_locus(locus: &mut Locus, number: Entity, other: &mut Locus, instr: Instr) -> Reply
    requires ready { IsReadyLocus (locus_of locus.old) }
    requires wants { WantsOther (locus_of locus.old) instr number }
    requires names { IsTrue (may_name_itself instr) }
    ensures { (me : ℕ) → (s : Supply) → (a : AtlasState) → me ≢ number
        → CallMade (outcome s (locus_of locus.old) (wanted me (locus_of locus.old)) a (LocusCell (locus_of other.old)))
        (locus_of locus.new) result (Some (LocusCell (locus_of other.new))) }
{
    match instr {
        Instr::Stop(_) => stop(locus, other),
        Instr::Go(_) => go(locus, other),
        Instr::Snap(_) => record_it(locus, number, instr),
        _ => unreachable!(),
    }
}

/// An act beside another entity, which both are written by.
fn act_beside(locus: &mut Locus, number: Entity, other: &mut Part, instr: Instr) -> Reply
    requires ready { IsReadyLocus (locus_of locus.old) }
    requires wants { WantsOther (locus_of locus.old) instr number }
    requires fits { FitsBeside instr other.old }
    ensures memory { KeepsMemory other.old other.new }
    ensures made { (me : ℕ) → (s : Supply) → (words : ℕ → List ℕ) → (a : AtlasState) → me ≢ number
        → CallMade (outcome s (locus_of locus.old) (wanted me (locus_of locus.old)) a (part_of s words other.old))
        (locus_of locus.new) result (Some (part_of s words other.new)) }
{
    match other {
        Part::Container(
            Storage {
                head: Some(head),
                ..
            },
        ) => act_on_head(locus, number, head, instr),
        Part::Locus(Some(target)) => act_on_locus(locus, number, target, instr),
        Part::Atlas(_) => record_it(locus, number, instr),
        _ => unreachable!(),
    }
}

/// The same, of the locus of a cell.
pub(crate) fn act_in_parts(
    part: &mut Part,
    number: Entity,
    other: &mut Part,
    instr: Instr,
) -> Answer
    requires wants { (l : ALocus) × IsRunning part.old l × WantsOther (locus_of l) instr number }
    requires fits { FitsBeside instr other.old }
    ensures memory { KeepsMemory other.old other.new }
    ensures made { (me : ℕ) → (s : Supply) → (words : ℕ → List ℕ) → (l : LocusState) → (a : AtlasState) → me ≢ number
        → part_of s words part.old ≡ LocusCell l
        → MakesBoth (outcome s l (wanted me l) a (part_of s words other.old)) (part_of s words part.new) (part_of s words other.new) result }
{
    match part {
        Part::Locus(Some(locus)) => Answer::Reply(act_beside(locus, number, other, instr)),
        _ => unreachable!(),
    }
}
