//! The call that does it all.
ghost use Rattle.std.specs.Prelude.{◌≡◌, ◌≤◌, ◌<◌, ◌^◌, ℕ, Bool, IfNone, IfSome, map, string_bytes};
ghost use Rattle.edge_disk.specs.Counts.{Rose};
ghost use Rattle.edge_disk.specs.declared.disk.NoBlocks.{NoBlocks};
ghost use Rattle.command_words.specs.Commands.{IsCommand, IsCopyOf};
ghost use Rattle.command_outcomes.specs.Seen.{gave, seen_disk, seen_sink, seen_source};
ghost use Rattle.command_outcomes.specs.Statuses.{IsComplete};
ghost use Rattle.command_check_trace.specs.command_promises.Openings.{Managers};
ghost use Rattle.command_run.specs.model_kernel.State.{Text};
ghost use Rattle.command_check_trace.specs.image_facts.Layout.{least_blocks, most_blocks};
ghost use Rattle.command_words.specs.declared.Command.TheVariants.{Copy as CopyCommand, Format as FormatCommand, RunOnThreads as OnThreads};
ghost use Rattle.hopper_top.specs.Leaving.{CanDo, CommandLeaves, CompletesBy, CompletesCopy, CopiesBy, CopiesOrStays, HasCause, IsNoCommand, IsSerial, Leaves, UsageLeaves};

use crate::commands::{asked_lines, do_command};
use command_outcomes::{Fault, Outcome, Status, end_with};
use command_words::{Command, read_command};
use command_workers::{StepGate, run_on_workers};
use edge_disk::Disk;
use edge_streams::{Sink, Source};
use std::alloc::Global;
use std::sync::Wait;
use std::thread::Threads;

/// How many workers a run on threads has, and whether each entry gets a line.
fn on_threads(command: Command) -> Option<(u8, bool)>
    ensures some { IfSome result (λ r. command ≡ OnThreads r.0 r.1) }
    ensures none { IfNone result (IsSerial command) }
{
    match command {
        Command::RunOnThreads { workers, trace } => Some((workers, trace)),
        _ => None,
    }
}

/// Carries out a command, a run on threads with the others.
fn do_any<
    R: Source,
    W: Sink,
    D: Disk + Send,
    S: Fn(u64, u32, u16) -> u64 + Sync,
    P: Fn(u32, u64) -> bool + Sync,
    T: Threads + Wait + Sync,
    G: StepGate + Sync,
>(
    rt: &T,
    alloc: Global,
    command: Command,
    words: &[String],
    source: &mut R,
    sink: &mut W,
    disk: D,
    supply: &S,
    policy: &P,
    gate: &G,
) -> Outcome<D>
    ghost m: { Managers }
    // The managers give one answer for each question, and may be asked each.
    requires supplies { (t p a : ℕ) → t < 2 ^ 64 → p < 256 → a < 128 → S.pre supply.now t p a }
    requires supplied { (t p a r : ℕ) → t < 2 ^ 64 → p < 256 → a < 128 → S.post supply.now t p a r → r ≡ m.supply t p a }
    requires wishes { (e n : ℕ) → e < 2 ^ 32 → n < 2 ^ 64 → P.pre policy.now e n }
    requires wished { (e n : ℕ) (r : Bool) → e < 2 ^ 32 → n < 2 ^ 64 → P.post policy.now e n r → r ≡ m.policy e n }
    requires sized { (blocks : ℕ) → command ≡ FormatCommand blocks → (least_blocks ≤ blocks) × (blocks ≤ most_blocks) }
    requires workers { (workers : ℕ) (trace : Bool) → command ≡ OnThreads workers trace → (1 ≤ workers) × (workers ≤ 16) }
    requires copying { command ≡ CopyCommand → IsCommand (map string_bytes words.now) CopyCommand }
    ensures leaves { CommandLeaves m command (record {
      source = seen_source R.left R.faults source.old source.new;
      sink = seen_sink W.held W.faults sink.old sink.new;
      disk = seen_disk D.Disk disk result.disk;
    }) (gave result) }
    ensures copies { CopiesBy (map string_bytes words.now) command (record {
      source = seen_source R.left R.faults source.old source.new;
      sink = seen_sink W.held W.faults sink.old sink.new;
      disk = seen_disk D.Disk disk result.disk;
    }) (gave result) }
    ensures copied { CompletesBy (map string_bytes words.now) command (record {
      source = seen_source R.left R.faults source.old source.new;
      sink = seen_sink W.held W.faults sink.old sink.new;
      disk = seen_disk D.Disk disk result.disk;
    }) result.status }
    ensures blocks { D.block_count result.disk ≡ D.block_count disk }
    ensures complete { CanDo m command (record {
      source = seen_source R.left R.faults source.old source.new;
      sink = seen_sink W.held W.faults sink.old sink.new;
      disk = seen_disk D.Disk disk result.disk;
    }) → (Rose (R.faults source.old) (R.faults source.new) → ⊥) → (Rose (D.faults disk) (D.faults result.disk) → ⊥)
        → (Rose (W.faults sink.old) (W.faults sink.new) → ⊥) → ((n : NoBlocks) → result.status ≡ Status.BlocksFull n → ⊥) → IsComplete result.status }
{
    match on_threads(command) {
        Some((workers, trace)) => {
            let lines = asked_lines(trace);
            run_on_workers(
                rt, alloc, source, sink, disk, supply, policy, lines, workers, gate,
            )
        }
        None => do_command(alloc, command, words, source, sink, disk, supply, policy),
    }
}

/// Carries out the command that the words stand for on a disk: `format N` makes an empty image of N blocks, 2,600 to 65,536; `run` runs the
/// script that the source stands for, from the state that the disk's image means, and keeps it up to each record, and puts the lines that
/// loci print, `run --trace` a line for each entry in their place; `run --workers N` does the same by N workers, 1 to 16, each in a thread of its own; `drill N` runs the script that is drawn from the number N, and puts one
/// line with its summary; `show` puts the state that the image means, `report` the log with the cut; `check-trace` tells whether the trace
/// behind the script in the source is that of a legal history from that state; `copy NAME NEW` makes a second container in the image, as the one
/// with that name, under the new name, in full or not at all, and puts its number. In a run and in a check of a trace the managers that the
/// script brings answer for their numbers before the handed-in ones; `show` and `drill` ask the handed-in ones alone.
///
/// What stops the call first decides: the words, the source, the image, the script against it, the run, the output; a sink that fails at the
/// last line changes no status. After a fault of the disk the image has to be opened again.
///
/// Only `run --workers N` starts threads and waits for locks, and nothing says that it comes to an end; `serve` does all else without. Its history is that
/// of some order of looks at loci, one behind the other. `gate` is told of each step of a worker while its locks are held, and may wait.
pub fn hopper<
    R: Source,
    W: Sink,
    D: Disk + Send,
    S: Fn(u64, u32, u16) -> u64 + Sync,
    P: Fn(u32, u64) -> bool + Sync,
    T: Threads + Wait + Sync,
    G: StepGate + Sync,
>(
    rt: &T,
    alloc: Global,
    words: &[String],
    source: &mut R,
    sink: &mut W,
    disk: D,
    supply: &S,
    policy: &P,
    gate: &G,
) -> Outcome<D>
    ghost m: { Managers }
    // The managers give one answer for each question, and may be asked each.
    requires supplies { (t p a : ℕ) → t < 2 ^ 64 → p < 256 → a < 128 → S.pre supply.now t p a }
    requires supplied { (t p a r : ℕ) → t < 2 ^ 64 → p < 256 → a < 128 → S.post supply.now t p a r → r ≡ m.supply t p a }
    requires wishes { (e n : ℕ) → e < 2 ^ 32 → n < 2 ^ 64 → P.pre policy.now e n }
    requires wished { (e n : ℕ) (r : Bool) → e < 2 ^ 32 → n < 2 ^ 64 → P.post policy.now e n r → r ≡ m.policy e n }

    // What each command leaves, by how it ended.
    ensures leaves { (c : Command) → IsCommand (map string_bytes words.now) c → Leaves m c (record {
      source = seen_source R.left R.faults source.old source.new;
      sink = seen_sink W.held W.faults sink.old sink.new;
      disk = seen_disk D.Disk disk result.disk;
    }) (gave result) }

    // What a copy leaves of the image, by the two names.
    ensures copies { (name fresh : Text) → IsCopyOf (map string_bytes words.now) name fresh → CopiesOrStays name fresh (record {
      source = seen_source R.left R.faults source.old source.new;
      sink = seen_sink W.held W.faults sink.old sink.new;
      disk = seen_disk D.Disk disk result.disk;
    }) (gave result) }
    ensures copied { (name fresh : Text) → IsCopyOf (map string_bytes words.now) name fresh → CompletesCopy name fresh (record {
      source = seen_source R.left R.faults source.old source.new;
      sink = seen_sink W.held W.faults sink.old sink.new;
      disk = seen_disk D.Disk disk result.disk;
    }) result.status }

    // Words of no known form.
    ensures no_command { IsNoCommand (map string_bytes words.now) → UsageLeaves (record {
      source = seen_source R.left R.faults source.old source.new;
      sink = seen_sink W.held W.faults sink.old sink.new;
      disk = seen_disk D.Disk disk result.disk;
    }) (gave result) }
    ensures usage { result.status ≡ Status.Usage → IsNoCommand (map string_bytes words.now) }

    // Whatever the words: a fault of source, sink or disk is told only where its count rose, and the disk keeps its size.
    ensures causes { HasCause (record {
      source = seen_source R.left R.faults source.old source.new;
      sink = seen_sink W.held W.faults sink.old sink.new;
      disk = seen_disk D.Disk disk result.disk;
    }) result.status }
    ensures blocks { D.block_count result.disk ≡ D.block_count disk }

    // What can be done is done, but for want of memory.
    ensures complete { (c : Command) → IsCommand (map string_bytes words.now) c → CanDo m c (record {
      source = seen_source R.left R.faults source.old source.new;
      sink = seen_sink W.held W.faults sink.old sink.new;
      disk = seen_disk D.Disk disk result.disk;
    }) → (Rose (R.faults source.old) (R.faults source.new) → ⊥) → (Rose (D.faults disk) (D.faults result.disk) → ⊥)
        → (Rose (W.faults sink.old) (W.faults sink.new) → ⊥) → ((n : NoBlocks) → result.status ≡ Status.BlocksFull n → ⊥) → IsComplete result.status }
{
    match read_command(alloc, words) {
        Err(_) => end_with(alloc, sink, disk, Fault::Memory),
        Ok(None) => end_with(alloc, sink, disk, Fault::Usage),
        Ok(Some(command)) => {
            do_any(
                rt, alloc, command, words, source, sink, disk, supply, policy, gate,
            )
        }
    }
}
