//! The command `run`.
ghost use Rattle.std.specs.Prelude.{◌≡◌, ◌<◌, ◌^◌, ℕ, Bool};
ghost use Rattle.edge_disk.specs.Counts.{Rose};
ghost use Rattle.edge_disk.specs.declared.disk.NoBlocks.{NoBlocks};
ghost use Rattle.command_outcomes.specs.Seen.{gave, seen_disk, seen_sink, seen_source};
ghost use Rattle.command_outcomes.specs.Statuses.{IsComplete, ending};
ghost use Rattle.command_open.specs.command_promises.Leaving.{CanRun, RunLeaves};
ghost use Rattle.command_open.specs.command_promises.Manners.{serial};
ghost use Rattle.command_run.specs.Tellings.{lines_of};
ghost use Rattle.command_open.specs.command_promises.Openings.{Managers};

use crate::putting::Lines;
use crate::watching::run_read;
use command_outcomes::{Outcome, Status, end_with};
use command_source::read_source;
use edge_disk::Disk;
use edge_streams::{Sink, Source};
use std::alloc::Global;
use std::marker::Brand;

/// Runs the script that a source stands for, from the state that the disk's image means, and puts these lines of its history: what its
/// loci printed, a line for each entry, or the summary. The managers that the script brings answer for their numbers, and the
/// handed-in ones for all others. The source is read to its end first, then the image is opened; the kernel makes the births, the picks of the
/// order and rounds to the end, and makes records as the policy wishes and the loci ask. What stops the call first decides how it ends: the
/// source, the image, the script against it, the run, the output.
///
/// It takes memory for the source, its script, and what an opening takes (`open_kernel::open_image`), before anything is run; the run
/// itself takes none. Where it is stopped the lines of what was run so far are put, and behind them that of the fault.
pub fn run_script<
    R: Source,
    W: Sink,
    D: Disk,
    S: Fn(u64, u32, u16) -> u64,
    P: Fn(u32, u64) -> bool,
>(
    alloc: Global,
    source: &mut R,
    sink: &mut W,
    disk: D,
    supply: &S,
    policy: &P,
    lines: Lines,
) -> Outcome<D>
    ghost m: { Managers }
    // The managers give one answer for each question, and may be asked each.
    requires supplies { (t p a : ℕ) → t < 2 ^ 64 → p < 256 → a < 128 → S.pre supply.now t p a }
    requires supplied { (t p a r : ℕ) → t < 2 ^ 64 → p < 256 → a < 128 → S.post supply.now t p a r → r ≡ m.supply t p a }
    requires wishes { (e n : ℕ) → e < 2 ^ 32 → n < 2 ^ 64 → P.pre policy.now e n }
    requires wished { (e n : ℕ) (r : Bool) → e < 2 ^ 32 → n < 2 ^ 64 → P.post policy.now e n r → r ≡ m.policy e n }
    ensures leaves { RunLeaves (serial (lines_of lines)) m (record {
      source = seen_source R.left R.faults source.old source.new;
      sink = seen_sink W.held W.faults sink.old sink.new;
      disk = seen_disk D.Disk disk result.disk;
    }) (gave result) (ending result.status) }
    ensures count { D.block_count result.disk ≡ D.block_count disk }
    ensures complete { CanRun m (record {
      source = seen_source R.left R.faults source.old source.new;
      sink = seen_sink W.held W.faults sink.old sink.new;
      disk = seen_disk D.Disk disk result.disk;
    }) → (Rose (R.faults source.old) (R.faults source.new) → ⊥) → (Rose (D.faults disk) (D.faults result.disk) → ⊥) → (Rose (W.faults sink.old) (W.faults sink.new) → ⊥)
        → ((n : NoBlocks) → result.status ≡ Status.BlocksFull n → ⊥) → IsComplete result.status }
{
    match read_source(alloc, source) {
        Ok(read) => run_read::<W, D, S, P, Brand>(alloc, &read, lines, sink, disk, supply, policy),
        Err(fault) => end_with(alloc, sink, disk, fault),
    }
}
