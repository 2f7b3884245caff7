// Cells take in a step.
ghost use Rattle.std.specs.Prelude.{◌≡◌, ◌<◌, ℕ, List, Option};
ghost use Rattle.base_types.specs.declared.histories.Answer.TheVariants.{Reply as Replied};
ghost use Rattle.base_types.specs.declared.instructions.Reply.TheVariants.{Ok as OkReply};
ghost use Rattle.page_store.specs.model_kernel.Histories.{asked_by, asks, locus_in};
ghost use Rattle.page_store.specs.model_kernel.Refusals.{instr_at};
ghost use Rattle.page_store.specs.model_kernel.State.{LocusState, Supply};
ghost use Rattle.model_acts.specs.Views.{IsReadyLocus};
ghost use Rattle.cell_looks.specs.act_alone.Loci.{locus_of};
ghost use Rattle.cell_looks.specs.act_alone.declared.loci.Locus.{Locus as ALocus};
ghost use Rattle.cell_looks.specs.cell_states.Cells.{part_of, IsRunning};
ghost use Rattle.cell_steps.specs.Advances.{TakesIn};

use base_types::{Answer, Entity, Entry, Instr, Reply};
use cell_looks::{Cell, Part};
use cell_plans::Locus;
use model_acts::named_entity;

/// The entity that the locus names where its instruction, which is this one, is a snap.
fn named_by_locus(locus: &Locus, instr: Instr) -> Option<Entity>
    requires ready { IsReadyLocus (locus_of locus.now) }
    requires instr { instr ≡ instr_at (locus_of locus.now) }
    ensures { result ≡ asks (Replied OkReply) (instr_at (locus_of locus.now)) (locus_of locus.now) }
{
    match instr {
        Instr::Snap(slot) => Some(named_entity(&locus.view(), slot)),
        _ => None,
    }
}

/// The same, of the running locus of a cell.
pub(crate) fn named_by_snap(cell: &Cell, instr: Instr) -> Option<Entity>
    requires { (l : ALocus) × IsRunning cell.now.part l × (instr ≡ instr_at (locus_of l)) }
    ensures { (s : Supply) → (words : ℕ → List ℕ) → result ≡ asked_by (Replied OkReply) (locus_in (part_of s words cell.now.part)) }
{
    match &cell.part {
        Part::Locus(Some(locus)) => named_by_locus(locus, instr),
        _ => unreachable!(),
    }
}

/// The entity for which a step that is answered so asks a record.
fn asked_for(answer: Answer, named: &Option<Entity>) -> Option<Entity>
    ensures { (l : Option LocusState) → named.now ≡ asked_by (Replied OkReply) l → result ≡ asked_by answer l }
{
    match answer {
        Answer::Reply(Reply::Ok) => *named,
        _ => None,
    }
}

/// The cell takes in a step that touched it, of a locus whose snap would name this entity.
pub(crate) fn note(cell: &mut Cell, entry: &Entry, named: &Option<Entity>)
    requires { cell.old.clock.entity ≡ entry.now.actor → 0 < cell.old.left }
    ensures { TakesIn entry.now named.now cell.old cell.new }
{
    let asked = asked_for(entry.answer, named);
    cell.note_step(entry, asked);
}
