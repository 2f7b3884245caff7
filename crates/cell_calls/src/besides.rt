// The step of a locus beside another entity, which writes both.
ghost use Rattle.std.specs.Prelude.{◌≡◌, ◌≢◌, ◌<◌, ◌^◌, ℕ, List};
ghost use Rattle.base_types.specs.declared.histories.Event.TheVariants.{Step as StepEvent};
ghost use Rattle.cell_states.specs.model_kernel.State.{Cell as ModelCell, KernelState, Supply};
ghost use Rattle.cell_states.specs.act_alone.Loci.{locus_of};
ghost use Rattle.cell_states.specs.act_alone.declared.loci.Locus.{Locus as ALocus};
ghost use Rattle.cell_states.specs.cell_clocks.Clocks.{CarriesTwo, HasClock};
ghost use Rattle.cell_states.specs.Cells.{HasCell, IsRunning};
ghost use Rattle.cell_states.specs.Steps.{Steps};
ghost use Rattle.cell_calls.specs.Besides.{pair_of, FitsBeside, KeepsMemory, WantsOther};

use crate::beside_parts::act_in_parts;
use base_types::{Answer, Entry, Event, Instr};
use cell_states::{Cell, Clock, write_two};

/// The entry of a step that writes the locus and another entity.
fn write_both(locus: &mut Clock, other: &mut Clock, answer: Answer) -> Entry
    requires few_locus { locus.old.version < 2 ^ 63 }
    requires few_other { other.old.version < 2 ^ 63 }
    requires apart { other.old.entity ≢ locus.old.entity }
    ensures entity_locus { locus.new.entity ≡ locus.old.entity }
    ensures entity_other { other.new.entity ≡ other.old.entity }
    ensures carries { (w : KernelState) → HasClock w locus.old → HasClock w other.old → (j k : ModelCell)
        → CarriesTwo StepEvent locus.old.entity answer w (pair_of locus.old.entity j other.old.entity k) result locus.new other.new }
{
    let me = locus.entity;
    if other.entity.number() < me.number() {
        return write_two(Event::Step, me, answer, other, locus);
    }
    write_two(Event::Step, me, answer, locus, other)
}

/// The step of a running locus beside another entity: an invocation, a copy of a capability, control of another locus, or
/// a snap. Both are written. Their wishes and the steps left are as before.
pub fn step_beside(locus: &mut Cell, other: &mut Cell, instr: Instr) -> Entry
    requires wants { (l : ALocus) × IsRunning locus.old.part l × WantsOther (locus_of l) instr other.old.clock.entity }
    requires fits { FitsBeside instr other.old.part }
    requires apart { other.old.clock.entity ≢ locus.old.clock.entity }
    requires few_locus { locus.old.clock.version < 2 ^ 63 }
    requires few_other { other.old.clock.version < 2 ^ 63 }
    ensures step { (s : Supply) → (words : ℕ → List ℕ) → (w : KernelState) → HasCell s words w locus.old → HasCell s words w other.old
        → Steps s locus.old.clock.entity w result (λ v. HasCell s words v locus.new × HasCell s words v other.new) }
    ensures memory { KeepsMemory other.old.part other.new.part }
    ensures entities { (locus.new.clock.entity ≡ locus.old.clock.entity) × (other.new.clock.entity ≡ other.old.clock.entity) }
    ensures rest_locus { (locus.new.wish ≡ locus.old.wish) × (locus.new.left ≡ locus.old.left) }
    ensures rest_other { (other.new.wish ≡ other.old.wish) × (other.new.left ≡ other.old.left) }
{
    let number = other.clock.entity;
    let answer = act_in_parts(&mut locus.part, number, &mut other.part, instr);
    write_both(&mut locus.clock, &mut other.clock, answer)
}
