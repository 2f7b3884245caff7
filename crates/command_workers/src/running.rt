//! The command `run --workers N`.
ghost use Rattle.std.specs.Prelude.{◌≡◌, ◌≤◌, ◌<◌, ◌^◌, ℕ, Bool};
ghost use Rattle.edge_disk.specs.Counts.{Rose};
ghost use Rattle.edge_disk.specs.declared.disk.NoBlocks.{NoBlocks};
ghost use Rattle.command_outcomes.specs.Seen.{gave, seen_disk, seen_sink, seen_source};
ghost use Rattle.command_outcomes.specs.Statuses.{IsComplete, ending};
ghost use Rattle.command_open.specs.command_promises.Leaving.{CanRun, RunLeaves};
ghost use Rattle.command_open.specs.command_promises.Manners.{on_threads};
ghost use Rattle.command_run.specs.Tellings.{lines_of};
ghost use Rattle.command_open.specs.command_promises.Openings.{Managers};

use crate::watching::run_read;
use command_outcomes::{Outcome, Status, end_with};
use command_run::Lines;
use command_source::read_source;
use edge_disk::Disk;
use edge_streams::{Sink, Source};
use std::alloc::Global;
use std::marker::Brand;
use std::sync::Wait;
use std::thread::Threads;
use thread_runs::StepGate;

/// Runs the script that a source stands for by so many workers, 1 to 16, from the state that the disk's image means, and puts these lines of its history.
/// It is as `command_run::run_script`, but for the order in which loci are looked at: each worker makes rounds over its own loci, those whose number
/// leaves its own by the number of workers, until in one round none of them could step; and what is left is done in rounds over all. The script's
/// order has no part in it. The history is that of some order of looks, one behind the other.
///
/// It takes memory in the midst of a run, too: for the board of locks, for the threads, and for an item of each look. Where that runs out the run ends, its lines so far are put, and behind
/// them that of the fault. It may wait for locks; that it comes to an end is not promised.
pub fn run_on_workers<
    R: Source,
    W: Sink,
    D: Disk + Send,
    S: Fn(u64, u32, u16) -> u64 + Sync,
    P: Fn(u32, u64) -> bool + Sync,
    T: Threads + Wait + Sync,
    G: StepGate + Sync,
>(
    rt: &T,
    alloc: Global,
    source: &mut R,
    sink: &mut W,
    disk: D,
    supply: &S,
    policy: &P,
    lines: Lines,
    workers: u8,
    steps: &G,
) -> Outcome<D>
    ghost m: { Managers }
    // The managers give one answer for each question, and may be asked each.
    requires supplies { (t p a : ℕ) → t < 2 ^ 64 → p < 256 → a < 128 → S.pre supply.now t p a }
    requires supplied { (t p a r : ℕ) → t < 2 ^ 64 → p < 256 → a < 128 → S.post supply.now t p a r → r ≡ m.supply t p a }
    requires wishes { (e n : ℕ) → e < 2 ^ 32 → n < 2 ^ 64 → P.pre policy.now e n }
    requires wished { (e n : ℕ) (r : Bool) → e < 2 ^ 32 → n < 2 ^ 64 → P.post policy.now e n r → r ≡ m.policy e n }
    requires workers { (1 ≤ workers) × (workers ≤ 16) }
    ensures leaves { RunLeaves (on_threads (lines_of lines)) m (record {
      source = seen_source R.left R.faults source.old source.new;
      sink = seen_sink W.held W.faults sink.old sink.new;
      disk = seen_disk D.Disk disk result.disk;
    }) (gave result) (ending result.status) }
    ensures count { D.block_count result.disk ≡ D.block_count disk }
    ensures complete { CanRun m (record {
      source = seen_source R.left R.faults source.old source.new;
      sink = seen_sink W.held W.faults sink.old sink.new;
      disk = seen_disk D.Disk disk result.disk;
    }) → (Rose (R.faults source.old) (R.faults source.new) → ⊥) → (Rose (D.faults disk) (D.faults result.disk) → ⊥) → (Rose (W.faults sink.old) (W.faults sink.new) → ⊥)
        → ((n : NoBlocks) → result.status ≡ Status.BlocksFull n → ⊥) → IsComplete result.status }
{
    match read_source(alloc, source) {
        Ok(read) => run_read::<W, D, S, P, T, G, Brand>(
            rt, alloc, &read, workers, steps, lines, sink, disk, supply, policy,
        ),
        Err(fault) => end_with(alloc, sink, disk, fault),
    }
}
