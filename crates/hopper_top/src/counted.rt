//! The call with the managers of the program.
ghost use Rattle.std.specs.Prelude.{◌≡◌, ◌<◌, ◌^◌, ℕ, Bool, map, string_bytes};
ghost use Rattle.edge_disk.specs.Counts.{Rose};
ghost use Rattle.edge_disk.specs.declared.disk.NoBlocks.{NoBlocks};
ghost use Rattle.command_words.specs.Commands.{IsCommand, IsCopyOf};
ghost use Rattle.command_words.specs.declared.Command.{Command};
ghost use Rattle.command_outcomes.specs.Seen.{gave, seen_disk, seen_sink, seen_source};
ghost use Rattle.command_outcomes.specs.Statuses.{IsComplete};
ghost use Rattle.command_run.specs.model_kernel.State.{Text};
ghost use Rattle.hopper_top.specs.Leaving.{CanDo, CompletesCopy, CopiesOrStays, HasCause, IsNoCommand, Leaves, UsageLeaves, counted_managers};

use crate::top::hopper;
use command_outcomes::{Outcome, Status};
use command_workers::StepGate;
use edge_disk::Disk;
use edge_managers::{CountedWords, EveryVersions, Policy, Supplier};
use edge_streams::{Sink, Source};
use std::alloc::Global;
use std::sync::Wait;
use std::thread::Threads;

/// `hopper` by managers that answer as `CountedWords` and `EveryVersions` do.
fn hopper_by<
    R: Source,
    W: Sink,
    D: Disk + Send,
    S: Fn(u64, u32, u16) -> u64 + Sync,
    P: Fn(u32, u64) -> bool + Sync,
    T: Threads + Wait + Sync,
    G: StepGate + Sync,
>(
    rt: &T,
    alloc: Global,
    words: &[String],
    source: &mut R,
    sink: &mut W,
    disk: D,
    supply: &S,
    policy: &P,
    gate: &G,
) -> Outcome<D>
    requires supplies { (t p a : ℕ) → t < 2 ^ 64 → p < 256 → a < 128 → S.pre supply.now t p a }
    requires supplied { (t p a r : ℕ) → t < 2 ^ 64 → p < 256 → a < 128 → S.post supply.now t p a r → r ≡ counted_managers.supply t p a }
    requires wishes { (e n : ℕ) → e < 2 ^ 32 → n < 2 ^ 64 → P.pre policy.now e n }
    requires wished { (e n : ℕ) (r : Bool) → e < 2 ^ 32 → n < 2 ^ 64 → P.post policy.now e n r → r ≡ counted_managers.policy e n }
    // What each command leaves, by how it ended.
    ensures leaves { (c : Command) → IsCommand (map string_bytes words.now) c → Leaves counted_managers c (record {
      source = seen_source R.left R.faults source.old source.new;
      sink = seen_sink W.held W.faults sink.old sink.new;
      disk = seen_disk D.Disk disk result.disk;
    }) (gave result) }

    // What a copy leaves of the image, by the two names.
    ensures copies { (name fresh : Text) → IsCopyOf (map string_bytes words.now) name fresh → CopiesOrStays name fresh (record {
      source = seen_source R.left R.faults source.old source.new;
      sink = seen_sink W.held W.faults sink.old sink.new;
      disk = seen_disk D.Disk disk result.disk;
    }) (gave result) }
    ensures copied { (name fresh : Text) → IsCopyOf (map string_bytes words.now) name fresh → CompletesCopy name fresh (record {
      source = seen_source R.left R.faults source.old source.new;
      sink = seen_sink W.held W.faults sink.old sink.new;
      disk = seen_disk D.Disk disk result.disk;
    }) result.status }

    // Words of no known form.
    ensures no_command { IsNoCommand (map string_bytes words.now) → UsageLeaves (record {
      source = seen_source R.left R.faults source.old source.new;
      sink = seen_sink W.held W.faults sink.old sink.new;
      disk = seen_disk D.Disk disk result.disk;
    }) (gave result) }
    ensures usage { result.status ≡ Status.Usage → IsNoCommand (map string_bytes words.now) }

    // Whatever the words: a fault of source, sink or disk is told only where its count rose, and the disk keeps its size.
    ensures causes { HasCause (record {
      source = seen_source R.left R.faults source.old source.new;
      sink = seen_sink W.held W.faults sink.old sink.new;
      disk = seen_disk D.Disk disk result.disk;
    }) result.status }
    ensures blocks { D.block_count result.disk ≡ D.block_count disk }

    // What can be done is done, but for want of memory.
    ensures complete { (c : Command) → IsCommand (map string_bytes words.now) c → CanDo counted_managers c (record {
      source = seen_source R.left R.faults source.old source.new;
      sink = seen_sink W.held W.faults sink.old sink.new;
      disk = seen_disk D.Disk disk result.disk;
    }) → (Rose (R.faults source.old) (R.faults source.new) → ⊥) → (Rose (D.faults disk) (D.faults result.disk) → ⊥)
        → (Rose (W.faults sink.old) (W.faults sink.new) → ⊥) → ((n : NoBlocks) → result.status ≡ Status.BlocksFull n → ⊥) → IsComplete result.status }
{
    hopper(rt, alloc, words, source, sink, disk, supply, policy, gate)
}

/// As `hopper`, by the managers that the program has: `CountedWords`, whose words count up from the tag, and `EveryVersions`, which wishes a snapshot every so
/// many versions.
pub fn hopper_counted<
    R: Source,
    W: Sink,
    D: Disk + Send,
    T: Threads + Wait + Sync,
    G: StepGate + Sync,
>(
    rt: &T,
    alloc: Global,
    words: &[String],
    source: &mut R,
    sink: &mut W,
    disk: D,
    gate: &G,
) -> Outcome<D>
    // What each command leaves, by how it ended.
    ensures leaves { (c : Command) → IsCommand (map string_bytes words.now) c → Leaves counted_managers c (record {
      source = seen_source R.left R.faults source.old source.new;
      sink = seen_sink W.held W.faults sink.old sink.new;
      disk = seen_disk D.Disk disk result.disk;
    }) (gave result) }

    // What a copy leaves of the image, by the two names.
    ensures copies { (name fresh : Text) → IsCopyOf (map string_bytes words.now) name fresh → CopiesOrStays name fresh (record {
      source = seen_source R.left R.faults source.old source.new;
      sink = seen_sink W.held W.faults sink.old sink.new;
      disk = seen_disk D.Disk disk result.disk;
    }) (gave result) }
    ensures copied { (name fresh : Text) → IsCopyOf (map string_bytes words.now) name fresh → CompletesCopy name fresh (record {
      source = seen_source R.left R.faults source.old source.new;
      sink = seen_sink W.held W.faults sink.old sink.new;
      disk = seen_disk D.Disk disk result.disk;
    }) result.status }

    // Words of no known form.
    ensures no_command { IsNoCommand (map string_bytes words.now) → UsageLeaves (record {
      source = seen_source R.left R.faults source.old source.new;
      sink = seen_sink W.held W.faults sink.old sink.new;
      disk = seen_disk D.Disk disk result.disk;
    }) (gave result) }
    ensures usage { result.status ≡ Status.Usage → IsNoCommand (map string_bytes words.now) }

    // Whatever the words: a fault of source, sink or disk is told only where its count rose, and the disk keeps its size.
    ensures causes { HasCause (record {
      source = seen_source R.left R.faults source.old source.new;
      sink = seen_sink W.held W.faults sink.old sink.new;
      disk = seen_disk D.Disk disk result.disk;
    }) result.status }
    ensures blocks { D.block_count result.disk ≡ D.block_count disk }

    // What can be done is done, but for want of memory.
    ensures complete { (c : Command) → IsCommand (map string_bytes words.now) c → CanDo counted_managers c (record {
      source = seen_source R.left R.faults source.old source.new;
      sink = seen_sink W.held W.faults sink.old sink.new;
      disk = seen_disk D.Disk disk result.disk;
    }) → (Rose (R.faults source.old) (R.faults source.new) → ⊥) → (Rose (D.faults disk) (D.faults result.disk) → ⊥)
        → (Rose (W.faults sink.old) (W.faults sink.new) → ⊥) → ((n : NoBlocks) → result.status ≡ Status.BlocksFull n → ⊥) → IsComplete result.status }
{
    hopper_by(
        rt,
        alloc,
        words,
        source,
        sink,
        disk,
        &|tag, page, place| CountedWords.word(tag, page, place),
        &|every, since| EveryVersions.wish(every, since),
        gate,
    )
}
