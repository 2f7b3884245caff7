// Whether a step owes a Stable.
ghost use Rattle.std.specs.Prelude.{◌≡◌};
ghost use Rattle.base_types.specs.declared.histories.Answer.TheVariants.{Reply as Replied};
ghost use Rattle.base_types.specs.declared.instructions.Reply.TheVariants.{Ok as OkReply};
ghost use Rattle.table_births.specs.model_kernel.Histories.{stabilises};
ghost use Rattle.kernel_core_facts.specs.Stepping.{is_owing};

use base_types::{Answer, Instr, Reply};
use table_births::Made;

/// Whether the instruction is a stabilise.
fn is_stabilise(instr: Instr) -> bool
    ensures { result ≡ stabilises (Replied OkReply) instr }
{
    matches!(instr, Instr::Stabilise(_))
}

/// Whether a step that was made owes a Stable: a stabilise that was answered Ok.
pub fn owes_stable(made: &Made) -> bool
    ensures { result ≡ is_owing made.now.instr made.now.entry.answer }
{
    is_stabilise(made.instr) && matches!(made.entry.answer, Answer::Reply(Reply::Ok))
}
