// The call that does all that needs one thread.
ghost use Rattle.std.specs.Prelude.{◌≡◌, ◌<◌, ◌^◌, ℕ, Bool, false, map, string_bytes};
ghost use Rattle.std.specs.List.{list_any};
ghost use Rattle.edge_disk.specs.Counts.{Rose};
ghost use Rattle.edge_disk.specs.declared.disk.NoBlocks.{NoBlocks};
ghost use Rattle.command_words.specs.Commands.{IsCommand, IsCopyOf};
ghost use Rattle.command_words.specs.declared.Command.{Command};
ghost use Rattle.command_outcomes.specs.Seen.{gave, seen_disk, seen_sink, seen_source};
ghost use Rattle.command_outcomes.specs.Statuses.{IsComplete};
ghost use Rattle.command_check_trace.specs.command_promises.Openings.{Managers};
ghost use Rattle.command_run.specs.model_kernel.State.{Text};
ghost use Rattle.hopper_top.specs.Leaving.{CanDo, CompletesCopy, CopiesOrStays, HasCause, IsNoCommand, Leaves, UsageLeaves, names_workers, workers_word};

use crate::commands::do_command;
use command_outcomes::{Fault, Outcome, Status, end_with};
use command_words::read_command;
use edge_disk::Disk;
use edge_streams::{Sink, Source};
use std::alloc::Global;

fn is_workers(word: &String) -> bool
    ensures { result ≡ workers_word (string_bytes word.now) }
{
    word.as_str() == "--workers"
}

// Whether a word is `--workers`, told of the words one by one.
fn any_is_workers(words: &[String]) -> bool
    ensures { result ≡ list_any (λ word. workers_word (string_bytes word)) words.now }
{
    words.iter().any(|word| is_workers(word))
}

/// Whether a word is `--workers`. Words with it are for `hopper` alone.
pub fn has_workers(words: &[String]) -> bool
    ensures { result ≡ names_workers (map string_bytes words.now) }
{
    any_is_workers(words)
}

/// As `hopper`, for words none of which is `--workers`: it takes no handle that waits, and so it is proved to return. `has_workers` tells whether a word is.
pub fn serve<R: Source, W: Sink, D: Disk, S: Fn(u64, u32, u16) -> u64, P: Fn(u32, u64) -> bool>(
    alloc: Global,
    words: &[String],
    source: &mut R,
    sink: &mut W,
    disk: D,
    supply: &S,
    policy: &P,
) -> Outcome<D>
    ghost m: { Managers }
    // The managers give one answer for each question, and may be asked each.
    requires supplies { (t p a : ℕ) → t < 2 ^ 64 → p < 256 → a < 128 → S.pre supply.now t p a }
    requires supplied { (t p a r : ℕ) → t < 2 ^ 64 → p < 256 → a < 128 → S.post supply.now t p a r → r ≡ m.supply t p a }
    requires wishes { (e n : ℕ) → e < 2 ^ 32 → n < 2 ^ 64 → P.pre policy.now e n }
    requires wished { (e n : ℕ) (r : Bool) → e < 2 ^ 32 → n < 2 ^ 64 → P.post policy.now e n r → r ≡ m.policy e n }
    requires serial { names_workers (map string_bytes words.now) ≡ false }

    // What each command leaves, by how it ended.
    ensures leaves { (c : Command) → IsCommand (map string_bytes words.now) c → Leaves m c (record {
      source = seen_source R.left R.faults source.old source.new;
      sink = seen_sink W.held W.faults sink.old sink.new;
      disk = seen_disk D.Disk disk result.disk;
    }) (gave result) }

    // What a copy leaves of the image, by the two names.
    ensures copies { (name fresh : Text) → IsCopyOf (map string_bytes words.now) name fresh → CopiesOrStays name fresh (record {
      source = seen_source R.left R.faults source.old source.new;
      sink = seen_sink W.held W.faults sink.old sink.new;
      disk = seen_disk D.Disk disk result.disk;
    }) (gave result) }
    ensures copied { (name fresh : Text) → IsCopyOf (map string_bytes words.now) name fresh → CompletesCopy name fresh (record {
      source = seen_source R.left R.faults source.old source.new;
      sink = seen_sink W.held W.faults sink.old sink.new;
      disk = seen_disk D.Disk disk result.disk;
    }) result.status }

    // Words of no known form.
    ensures no_command { IsNoCommand (map string_bytes words.now) → UsageLeaves (record {
      source = seen_source R.left R.faults source.old source.new;
      sink = seen_sink W.held W.faults sink.old sink.new;
      disk = seen_disk D.Disk disk result.disk;
    }) (gave result) }
    ensures usage { result.status ≡ Status.Usage → IsNoCommand (map string_bytes words.now) }

    // Whatever the words: a fault of source, sink or disk is told only where its count rose, and the disk keeps its size.
    ensures causes { HasCause (record {
      source = seen_source R.left R.faults source.old source.new;
      sink = seen_sink W.held W.faults sink.old sink.new;
      disk = seen_disk D.Disk disk result.disk;
    }) result.status }
    ensures blocks { D.block_count result.disk ≡ D.block_count disk }

    // What can be done is done, but for want of memory.
    ensures complete { (c : Command) → IsCommand (map string_bytes words.now) c → CanDo m c (record {
      source = seen_source R.left R.faults source.old source.new;
      sink = seen_sink W.held W.faults sink.old sink.new;
      disk = seen_disk D.Disk disk result.disk;
    }) → (Rose (R.faults source.old) (R.faults source.new) → ⊥) → (Rose (D.faults disk) (D.faults result.disk) → ⊥)
        → (Rose (W.faults sink.old) (W.faults sink.new) → ⊥) → ((n : NoBlocks) → result.status ≡ Status.BlocksFull n → ⊥) → IsComplete result.status }
{
    match read_command(alloc, words) {
        Err(_) => end_with(alloc, sink, disk, Fault::Memory),
        Ok(None) => end_with(alloc, sink, disk, Fault::Usage),
        Ok(Some(command)) => {
            do_command(alloc, command, words, source, sink, disk, supply, policy)
        }
    }
}
