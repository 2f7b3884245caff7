// A command that is carried out on one thread.
ghost use Rattle.std.specs.Prelude.{◌≡◌, ◌≤◌, ◌<◌, ◌^◌, ℕ, Bool, map, string_bytes};
ghost use Rattle.edge_disk.specs.Counts.{Rose};
ghost use Rattle.edge_disk.specs.declared.disk.NoBlocks.{NoBlocks};
ghost use Rattle.command_check_trace.specs.image_facts.Layout.{least_blocks, most_blocks};
ghost use Rattle.command_words.specs.Commands.{IsCommand};
ghost use Rattle.command_words.specs.declared.Command.TheVariants.{Copy as CopyCommand, Format as FormatCommand};
ghost use Rattle.command_outcomes.specs.Seen.{gave, seen_disk, seen_sink, seen_source};
ghost use Rattle.command_outcomes.specs.Statuses.{IsComplete};
ghost use Rattle.command_check_trace.specs.command_promises.Openings.{Managers};
ghost use Rattle.hopper_top.specs.Leaving.{CanDo, CommandLeaves, CompletesBy, CopiesBy, IsSerial, asked_lines as told_lines};

use command_check_trace::check_trace;
use command_copy::copy_image;
use command_format::format_image;
use command_outcomes::{Outcome, Status};
use command_run::{Lines, run_drill, run_script};
use command_show::{report_image, show_image};
use command_words::{Command, copied_names};
use edge_disk::Disk;
use edge_streams::{Sink, Source};
use std::alloc::Global;

// Which lines a run is asked for.
pub(crate) fn asked_lines(trace: bool) -> Lines
    ensures { result ≡ told_lines trace }
{
    if trace {
        Lines::Entries
    } else {
        Lines::Printed
    }
}

// Carries out a command that is no run on threads.
pub(crate) fn do_command<
    R: Source,
    W: Sink,
    D: Disk,
    S: Fn(u64, u32, u16) -> u64,
    P: Fn(u32, u64) -> bool,
>(
    alloc: Global,
    command: Command,
    words: &[String],
    source: &mut R,
    sink: &mut W,
    disk: D,
    supply: &S,
    policy: &P,
) -> Outcome<D>
    ghost m: { Managers }
    // The managers give one answer for each question, and may be asked each.
    requires supplies { (t p a : ℕ) → t < 2 ^ 64 → p < 256 → a < 128 → S.pre supply.now t p a }
    requires supplied { (t p a r : ℕ) → t < 2 ^ 64 → p < 256 → a < 128 → S.post supply.now t p a r → r ≡ m.supply t p a }
    requires wishes { (e n : ℕ) → e < 2 ^ 32 → n < 2 ^ 64 → P.pre policy.now e n }
    requires wished { (e n : ℕ) (r : Bool) → e < 2 ^ 32 → n < 2 ^ 64 → P.post policy.now e n r → r ≡ m.policy e n }
    requires sized { (blocks : ℕ) → command ≡ FormatCommand blocks → (least_blocks ≤ blocks) × (blocks ≤ most_blocks) }
    requires serial { IsSerial command }
    requires copying { command ≡ CopyCommand → IsCommand (map string_bytes words.now) CopyCommand }
    ensures leaves { CommandLeaves m command (record {
      source = seen_source R.left R.faults source.old source.new;
      sink = seen_sink W.held W.faults sink.old sink.new;
      disk = seen_disk D.Disk disk result.disk;
    }) (gave result) }
    ensures copies { CopiesBy (map string_bytes words.now) command (record {
      source = seen_source R.left R.faults source.old source.new;
      sink = seen_sink W.held W.faults sink.old sink.new;
      disk = seen_disk D.Disk disk result.disk;
    }) (gave result) }
    ensures copied { CompletesBy (map string_bytes words.now) command (record {
      source = seen_source R.left R.faults source.old source.new;
      sink = seen_sink W.held W.faults sink.old sink.new;
      disk = seen_disk D.Disk disk result.disk;
    }) result.status }
    ensures blocks { D.block_count result.disk ≡ D.block_count disk }
    ensures complete { CanDo m command (record {
      source = seen_source R.left R.faults source.old source.new;
      sink = seen_sink W.held W.faults sink.old sink.new;
      disk = seen_disk D.Disk disk result.disk;
    }) → (Rose (R.faults source.old) (R.faults source.new) → ⊥) → (Rose (D.faults disk) (D.faults result.disk) → ⊥)
        → (Rose (W.faults sink.old) (W.faults sink.new) → ⊥) → ((n : NoBlocks) → result.status ≡ Status.BlocksFull n → ⊥) → IsComplete result.status }
{
    match command {
        Command::Format(blocks) => format_image(alloc, blocks, sink, disk),
        Command::Run { trace } => {
            let lines = asked_lines(trace);
            run_script(alloc, source, sink, disk, supply, policy, lines)
        }
        Command::RunOnThreads { .. } => unreachable!(),
        Command::Show => show_image(alloc, sink, disk, supply),
        Command::Report => report_image(alloc, sink, disk, supply),
        Command::Drill(number) => run_drill(alloc, number, sink, disk, supply, policy),
        Command::CheckTrace => check_trace(alloc, source, sink, disk, supply, policy),
        Command::Copy => {
            let (name, fresh) = copied_names(words);
            copy_image(alloc, name, fresh, sink, disk)
        }
    }
}
