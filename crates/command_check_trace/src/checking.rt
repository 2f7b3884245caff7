//! The command `check-trace`.
ghost use Rattle.std.specs.Prelude.{◌≡◌, ◌≤◌, ◌<◌, ◌^◌, ℕ, Bool, length};
ghost use Rattle.edge_disk.specs.Counts.{Rose};
ghost use Rattle.base_managers.specs.Managing.{AreScriptManagers, managers_of};
ghost use Rattle.script_types.specs.Rules.{IsScript};
ghost use Rattle.script_types.specs.Scripts.{tables_of};
ghost use Rattle.trace_checker.specs.trace_step_facts.Standing.{Managers};
ghost use Rattle.command_outcomes.specs.Seen.{gave, seen_disk, seen_sink, seen_source};
ghost use Rattle.command_outcomes.specs.Statuses.{IsComplete, ending};
ghost use Rattle.command_promises.specs.TraceBooked.{over};
ghost use Rattle.command_promises.specs.TraceLeaving.{CanCheck, TraceLeaves};
ghost use Rattle.command_promises.specs.Sources.{from_bytes, from_parts, from_source, most_bytes};
ghost use Rattle.command_check_trace.specs.Sources.{traced_of};

use crate::judging::judge_by;
use crate::putting::end_by;
use crate::reading::{Traced, read_bytes, read_traced};
use act_managers::book_over;
use command_outcomes::{Fault, Outcome, end_with};
use edge_disk::Disk;
use edge_managers::{Answers, Gate};
use edge_streams::{Sink, Source};
use std::alloc::Global;
use std::marker::Brand;

/// Checks a trace of a script that was read, by its managers over the handed-in ones, and puts the verdict. `N` has the answers of the
/// handed-in ones, and `B` those of the script's over them.
fn check_read<
    W: Sink,
    D: Disk,
    S: Fn(u64, u32, u16) -> u64,
    P: Fn(u32, u64) -> bool,
    N: Answers,
    B: Answers,
>(
    alloc: Global,
    traced: &Traced<'_>,
    sink: &mut W,
    mut disk: D,
    supply: &S,
    policy: &P,
) -> Outcome<D>
    requires words { (t p a : ℕ) → t < 2 ^ 64 → p < 256 → a < 128 → S.pre supply.now t p a }
    requires supplied { (t p a r : ℕ) → t < 2 ^ 64 → p < 256 → a < 128 → S.post supply.now t p a r → r ≡ N.word t p a }
    requires callable { (every since : ℕ) → every < 2 ^ 32 → since < 2 ^ 64 → P.pre policy.now every since }
    requires answers { (every since : ℕ) (r : Bool) → every < 2 ^ 32 → since < 2 ^ 64 → P.post policy.now every since r → r ≡ N.wish every since }
    requires allowed { IsScript (tables_of traced.now.read.script) }
    requires managers { AreScriptManagers (managers_of traced.now.read.managers) }
    requires booked { over (managers_of traced.now.read.managers) (record { word = N.word; wish = N.wish }) ≡ record { word = B.word; wish = B.wish } }
    ensures leaves { TraceLeaves (record { word = N.word; wish = N.wish }) (from_parts (traced_of traced.now)) (seen_sink W.held W.faults sink.old sink.new)
        (seen_disk D.Disk disk result.disk) (gave result) (ending result.status) }
    ensures count { W.faults sink.old ≤ W.faults sink.new }
{
    let book = book_over::<S, P, N>(&traced.read.managers, supply, policy);
    let gate = Gate::new(&book, &book);
    let verdict = judge_by::<D, _, _, B>(
        alloc,
        &mut disk,
        &traced.read.script,
        traced.trace,
        &gate,
    );
    end_by(alloc, sink, disk, verdict)
}

/// Checks a trace in bytes that were read, and puts the verdict.
fn check_bytes<W: Sink, D: Disk, S: Fn(u64, u32, u16) -> u64, P: Fn(u32, u64) -> bool>(
    alloc: Global,
    bytes: &[u8],
    sink: &mut W,
    disk: D,
    supply: &S,
    policy: &P,
) -> Outcome<D>
    ghost m: { Managers }
    requires words { (t p a : ℕ) → t < 2 ^ 64 → p < 256 → a < 128 → S.pre supply.now t p a }
    requires supplied { (t p a r : ℕ) → t < 2 ^ 64 → p < 256 → a < 128 → S.post supply.now t p a r → r ≡ m.word t p a }
    requires callable { (every since : ℕ) → every < 2 ^ 32 → since < 2 ^ 64 → P.pre policy.now every since }
    requires answers { (every since : ℕ) (r : Bool) → every < 2 ^ 32 → since < 2 ^ 64 → P.post policy.now every since r → r ≡ m.wish every since }
    requires short { length bytes.now ≤ most_bytes }
    ensures leaves { TraceLeaves m (from_bytes bytes.now) (seen_sink W.held W.faults sink.old sink.new)
        (seen_disk D.Disk disk result.disk) (gave result) (ending result.status) }
    ensures count { W.faults sink.old ≤ W.faults sink.new }
{
    match read_traced(alloc, bytes) {
        Ok(traced) => {
            check_read::<W, D, S, P, Brand, Brand>(alloc, &traced, sink, disk, supply, policy)
        }
        Err(fault) => end_with(alloc, sink, disk, Fault::from(fault)),
    }
}

/// Checks whether the trace that a source holds is that of a legal history of its script, from the state that the image on a disk means. The
/// source has a script, a line `---` and the trace; the first such line counts. The line `ok LINES` is put, or `fault 10 LINE want ENTRY`
/// with the first line that is that of no entry that may be next. The managers that the script brings answer for their numbers, and the
/// handed-in ones for all others, in what the image means too. The disk is only read: no write and no sync is begun.
///
/// What stops the call first decides: the source, with at most 67,108,864 bytes and 1,048,576 before the line `---`; the image; the script
/// against it; the trace. It takes memory for as many bytes, for the script, for what `read_image` takes, and for what a check keeps.
pub fn check_trace<
    R: Source,
    W: Sink,
    D: Disk,
    S: Fn(u64, u32, u16) -> u64,
    P: Fn(u32, u64) -> bool,
>(alloc: Global, source: &mut R, sink: &mut W, disk: D, supply: &S, policy: &P) -> Outcome<D>
    ghost m: { Managers }
    // The managers give one answer for each question, and may be asked each.
    requires words { (t p a : ℕ) → t < 2 ^ 64 → p < 256 → a < 128 → S.pre supply.now t p a }
    requires supplied { (t p a r : ℕ) → t < 2 ^ 64 → p < 256 → a < 128 → S.post supply.now t p a r → r ≡ m.word t p a }
    requires callable { (every since : ℕ) → every < 2 ^ 32 → since < 2 ^ 64 → P.pre policy.now every since }
    requires answers { (every since : ℕ) (r : Bool) → every < 2 ^ 32 → since < 2 ^ 64 → P.post policy.now every since r → r ≡ m.wish every since }
    ensures leaves { TraceLeaves m (from_source (seen_source R.left R.faults source.old source.new)) (seen_sink W.held W.faults sink.old sink.new)
        (seen_disk D.Disk disk result.disk) (gave result) (ending result.status) }
    ensures complete { CanCheck m (record {
      source = seen_source R.left R.faults source.old source.new;
      sink = seen_sink W.held W.faults sink.old sink.new;
      disk = seen_disk D.Disk disk result.disk;
    }) → (Rose (R.faults source.old) (R.faults source.new) → ⊥) → (Rose (D.faults disk) (D.faults result.disk) → ⊥)
        → (Rose (W.faults sink.old) (W.faults sink.new) → ⊥) → IsComplete result.status }
    ensures count { (R.faults source.old ≤ R.faults source.new) × (W.faults sink.old ≤ W.faults sink.new) }
{
    match read_bytes(alloc, source) {
        Ok(bytes) => check_bytes(alloc, &bytes, sink, disk, supply, policy),
        Err(fault) => end_with(alloc, sink, disk, fault),
    }
}
