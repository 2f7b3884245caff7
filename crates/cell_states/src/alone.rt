// Steps that touch the locus alone.
ghost use Rattle.std.specs.Prelude.{◌≡◌, ◌<◌, ◌^◌, ℕ, List, Some};
ghost use Rattle.cell_clocks.specs.model_kernel.Acts.{wanted};
ghost use Rattle.cell_clocks.specs.model_kernel.Outcomes.{outcome};
ghost use Rattle.cell_clocks.specs.model_kernel.State.{AtlasState, Cell as ModelCell, KernelState, LocusCell, LocusState, Supply};
ghost use Rattle.act_calls.specs.model_acts.Views.{IsReadyLocus};
ghost use Rattle.act_calls.specs.act_alone.Loci.{locus_of};
ghost use Rattle.act_calls.specs.act_alone.declared.loci.Locus.{Locus as ALocus};
ghost use Rattle.cell_states.specs.Cells.{part_of, HasCell, IsRunning};
ghost use Rattle.act_calls.specs.model_act_facts.Itself.{WantsItself};
ghost use Rattle.cell_states.specs.Steps.{ActsAlone, MakesAlone, Steps};

use crate::cells::{Cell, Part};
use act_calls::{Act, Locus, go_itself, stop_itself};
use base_types::{Answer, Entity, Entry, Event, Instr, Reply};
use cell_clocks::write_one;

/// An act of the locus with this number that names the locus itself.
fn on_itself(me: Entity, locus: &mut Locus, instr: Instr) -> Answer
    requires ready { IsReadyLocus (locus_of locus.old) }
    requires wants { WantsItself (locus_of locus.old) instr me }
    ensures locus { (s : Supply) → (a : AtlasState) → (cell : ModelCell)
        → locus_of locus.new ≡ (outcome s (locus_of locus.old) (wanted me (locus_of locus.old)) a cell).locus }
    ensures answer { (s : Supply) → (a : AtlasState) → (cell : ModelCell)
        → result ≡ (outcome s (locus_of locus.old) (wanted me (locus_of locus.old)) a cell).answer }
{
    match instr {
        Instr::Stop(_) => Answer::Reply(stop_itself(locus)),
        Instr::Go(_) => Answer::Reply(go_itself(locus)),
        Instr::Snap(_) => locus.finish(Reply::Ok),
        _ => unreachable!(),
    }
}

/// Carries out this act of the locus with this number, which touches the locus alone.
pub fn act_alone(me: Entity, locus: &mut Locus, act: Act) -> Answer
    requires ready { IsReadyLocus (locus_of locus.old) }
    requires acts { ActsAlone me (locus_of locus.old) act }
    ensures locus { (s : Supply) → (a : AtlasState) → (cell : ModelCell)
        → locus_of locus.new ≡ (outcome s (locus_of locus.old) (wanted me (locus_of locus.old)) a cell).locus }
    ensures answer { (s : Supply) → (a : AtlasState) → (cell : ModelCell)
        → result ≡ (outcome s (locus_of locus.old) (wanted me (locus_of locus.old)) a cell).answer }
{
    match act.other {
        Some(_) => on_itself(me, locus, act.instr),
        None => locus.perform(act),
    }
}

/// Carries out this act of a cell's locus, which touches the locus alone.
fn act_in_part(me: Entity, part: &mut Part, act: Act) -> Answer
    requires running { (l : ALocus) × IsRunning part.old l × ActsAlone me (locus_of l) act }
    ensures { (s : Supply) → (words : ℕ → List ℕ) → (l : LocusState) → (a : AtlasState) → (cell : ModelCell)
        → part_of s words part.old ≡ LocusCell l → MakesAlone (outcome s l (wanted me l) a cell) (part_of s words part.new) result }
{
    match part {
        Part::Locus(Some(locus)) => act_alone(me, locus, act),
        _ => unreachable!(),
    }
}

/// The step of a running locus by this act, which touches the locus alone. Its wish and its steps left are as before.
pub fn step_alone(cell: &mut Cell, act: Act) -> Entry
    requires running { (l : ALocus) × IsRunning cell.old.part l × ActsAlone cell.old.clock.entity (locus_of l) act }
    requires few { cell.old.clock.version < 2 ^ 63 }
    ensures step { (s : Supply) → (words : ℕ → List ℕ) → (w : KernelState) → HasCell s words w cell.old
        → Steps s cell.old.clock.entity w result (λ v. HasCell s words v cell.new) }
    ensures entity { cell.new.clock.entity ≡ cell.old.clock.entity }
    ensures rest { (cell.new.wish ≡ cell.old.wish) × (cell.new.left ≡ cell.old.left) }
{
    let me = cell.clock.entity;
    let answer = act_in_part(me, &mut cell.part, act);
    write_one(Event::Step, me, answer, &mut cell.clock)
}
