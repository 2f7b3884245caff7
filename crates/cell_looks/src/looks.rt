// The step of a locus that looks at a container.
ghost use Rattle.std.specs.Prelude.{◌≡◌, ◌↔◌, ◌<◌, ◌^◌, [], ◌∷◌, Option, is_some, IfOk, IsErrOf, OnErr};
ghost use Rattle.base_types.specs.declared.histories.Event.TheVariants.{Step as StepEvent};
ghost use Rattle.cell_states.specs.model_kernel.Refusals.{instr_at};
ghost use Rattle.cell_states.specs.model_kernel.State.{Cell as ModelCell, KernelState};
ghost use Rattle.act_look.specs.act_alone.Loci.{locus_of};
ghost use Rattle.act_look.specs.act_alone.declared.loci.Locus.{Locus as ALocus};
ghost use Rattle.act_look.specs.act_invoke.Entries.{WantsBeside};
ghost use Rattle.act_look.specs.edge_disk.declared.disk.NoBlocks.{NoBlocks};
ghost use Rattle.act_look.specs.page_memory.Calls.{PagesOnce};
ghost use Rattle.act_look.specs.Looks.{is_look};
ghost use Rattle.cell_states.specs.cell_clocks.Clocks.{writing, CarriesTwo, HasClock};
ghost use Rattle.cell_states.specs.Cells.{part_of, HasCell, IsRunning};
ghost use Rattle.cell_states.specs.Steps.{Steps};
ghost use Rattle.cell_looks.specs.Looking.{is_stored, looking, IsLookShortIn, LooksAtWord, StepsSomehow, LeavesMemoryIn, MayLookIn, TurnsPart};

use crate::parts::look_in_parts;
use base_types::{Answer, Entry, Event, Instr, Reply};
use cell_states::{Cell, Clock, PageFault, PageStore, read_and_write, write_two};
use edge_managers::{Gate, Policy, Supplier};

/// Whether a look that is answered so stored a word.
fn stores(answer: Answer) -> bool
    ensures { result ≡ is_stored answer }
{
    matches!(answer, Answer::Reply(Reply::Ok))
}

/// The entry of a look: the container is written where a word was stored, and else read.
fn write_look(locus: &mut Clock, other: &mut Clock, answer: Answer) -> Entry
    requires few_locus { locus.old.version < 2 ^ 63 }
    requires few_other { other.old.version < 2 ^ 63 }
    requires lower { other.old.entity < locus.old.entity }
    ensures entity_locus { locus.new.entity ≡ locus.old.entity }
    ensures entity_other { other.new.entity ≡ other.old.entity }
    ensures actor { result.actor ≡ locus.old.entity }
    ensures carries { (w : KernelState) → HasClock w locus.old → HasClock w other.old → (j : ModelCell) → (k : Option ModelCell) → is_some k ≡ is_stored answer
        → CarriesTwo StepEvent locus.old.entity answer w (looking other.old.entity k ∷ writing locus.old.entity j ∷ []) result other.new locus.new }
{
    let me = locus.entity;
    if stores(answer) {
        return write_two(Event::Step, me, answer, other, locus);
    }
    read_and_write(Event::Step, me, answer, other, locus)
}

/// The step of a running locus that makes one look of a load or a store, which is this instruction, at a container. On a fault
/// of paging no cell has changed in the model, so that the same look can be tried again; it comes only of a look that reads or
/// writes a word, and `NoBlocks` exactly where that word's page is short of a block (`IsLookShort`). Wishes and steps left are as
/// before.
pub fn step_look<B: PageStore, S: Supplier, P: Policy>(
    locus: &mut Cell,
    other: &mut Cell,
    instr: Instr,
    store: &mut B,
    gate: &Gate<S, P>,
) -> Result<Entry, PageFault>
    requires keeps { S.keeps gate.now.supply }
    requires wants { (l : ALocus) × IsRunning locus.old.part l × WantsBeside is_look (locus_of l) other.old.clock.entity × (instr ≡ instr_at (locus_of l)) }
    requires memory { MayLookIn (S.word gate.now.supply) B.PageStore store.old other.old.part }
    requires lower { other.old.clock.entity < locus.old.clock.entity }
    requires few { (locus.old.clock.version < 2 ^ 63) × (other.old.clock.version < 2 ^ 63) }
    ensures step { B.tells → IfOk result (λ e. (w : KernelState)
        → HasCell (S.word gate.now.supply) (B.words store.old) w locus.old → HasCell (S.word gate.now.supply) (B.words store.old) w other.old
        → Steps (S.word gate.now.supply) locus.old.clock.entity w e (λ v. HasCell (S.word gate.now.supply) (B.words store.new) v locus.new × HasCell (S.word gate.now.supply) (B.words store.new) v other.new)) }
    ensures somehow { IfOk result (StepsSomehow locus.old locus.new other.old other.new) }
    ensures at_word { OnErr result (LooksAtWord locus.old other.old) }
    ensures no_blocks { (n : NoBlocks) → IsErrOf result (PageFault.NoBlocks n) ↔ IsLookShortIn B.PageStore store.old locus.old.part other.old.part n }
    ensures turned { (n : NoBlocks) → IsErrOf result (PageFault.NoBlocks n) → TurnsPart other.old.part other.new.part }
    ensures locus_stays { OnErr result (locus.new ≡ locus.old) }
    ensures other_stays { OnErr result ((other.new.clock ≡ other.old.clock) × (B.tells → part_of (S.word gate.now.supply) (B.words store.new) other.new.part ≡ part_of (S.word gate.now.supply) (B.words store.old) other.old.part)) }
    ensures memory { LeavesMemoryIn (S.word gate.now.supply) B.PageStore other.old.part other.new.part store.old store.new }
    ensures pages { PagesOnce B.PageStore store.old store.new result }
    ensures actor { IfOk result (λ e. e.actor ≡ locus.old.clock.entity) }
    ensures rest { (locus.new.wish ≡ locus.old.wish) × (locus.new.left ≡ locus.old.left) × (other.new.wish ≡ other.old.wish) × (other.new.left ≡ other.old.left) }
    ensures entities { (locus.new.clock.entity ≡ locus.old.clock.entity) × (other.new.clock.entity ≡ other.old.clock.entity) }
{
    let answer = look_in_parts(&mut locus.part, &mut other.part, instr, store, gate)?;
    Ok(write_look(&mut locus.clock, &mut other.clock, answer))
}
