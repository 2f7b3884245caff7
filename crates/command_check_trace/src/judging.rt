// The verdict on a trace.
ghost use Rattle.std.specs.Prelude.{◌≡◌, ◌≤◌, ◌<◌, ◌^◌, ℕ, All, Bool};
ghost use Rattle.plain_states.specs.Born.{AreEdges};
ghost use Rattle.plain_states.specs.Plains.{cells_of};
ghost use Rattle.plain_states.specs.model_kernel.Soundness.{IsSound};
ghost use Rattle.plain_states.specs.model_kernel.State.{KernelState};
ghost use Rattle.image_reading.specs.log_facts.Reads.{ReadsOnly};
ghost use Rattle.script_types.specs.Rules.{IsScript};
ghost use Rattle.script_types.specs.Scripts.{tables_of};
ghost use Rattle.trace_checker.specs.trace_step_facts.Standing.{Managers};
ghost use Rattle.trace_checker.specs.trace_facts.Traces.{Begins};
ghost use Rattle.command_outcomes.specs.Seen.{seen_disk};
ghost use Rattle.command_check_trace.specs.Verdicts.{IsJudged, IsVerdict, verdict_of as told_verdict};

use arrayvec::ArrayString;
use base_types::Entry;
use command_outcomes::Fault;
use edge_disk::Disk;
use edge_managers::{Answers, Gate, Policy, Supplier};
use image_reading::{ImageFacts, read_image};
use line_text::LINE;
use plain_runs::against;
use plain_states::Plain;
use script_types::Script;
use std::alloc::Global;
use trace_checker::{TraceFault, check};

/// What became of a trace that was to be checked.
#[derive(Debug, Drop)]
pub(crate) enum Verdict {
    /// It is that of a legal history, with so many lines.
    Legal(u64),
    /// It goes wrong in this line, which wants this entry; its line, or `none`.
    Wrong {
        line: u64,
        want: Option<Entry>,
        text: ArrayString<LINE>,
    },
    /// Nothing was checked.
    Stopped(Fault),
}

/// The verdict that a check comes to.
fn verdict_of(checked: Result<u64, TraceFault>) -> Verdict
    ensures { result ≡ told_verdict checked }
{
    match checked {
        Ok(lines) => Verdict::Legal(lines),
        Err(TraceFault::At { line, want, text }) => Verdict::Wrong { line, want, text },
        Err(TraceFault::Memory) => Verdict::Stopped(Fault::Memory),
    }
}

/// Checks a trace from a plain state with these versions.
fn verdict_from<S: Fn(u64, u32, u16) -> u64, P: Fn(u32, u64) -> bool>(
    alloc: Global,
    state: Plain,
    versions: [u64; 64],
    script: &Script,
    trace: &[u8],
    supply: &S,
    policy: &P,
) -> Verdict
    ghost m: { Managers }
    requires words { (t p a : ℕ) → t < 2 ^ 64 → p < 256 → a < 128 → S.pre supply.now t p a }
    requires supplied { (t p a r : ℕ) → t < 2 ^ 64 → p < 256 → a < 128 → S.post supply.now t p a r → r ≡ m.word t p a }
    requires callable { (every since : ℕ) → every < 2 ^ 32 → since < 2 ^ 64 → P.pre policy.now every since }
    requires answers { (every since : ℕ) (r : Bool) → every < 2 ^ 32 → since < 2 ^ 64 → P.post policy.now every since r → r ≡ m.wish every since }
    requires sound { IsSound (cells_of m.word state) }
    requires edges { AreEdges state.atlas.edges.items }
    requires low { All (λ v. v ≤ 2 ^ 62) versions }
    requires allowed { IsScript (tables_of script.now) }
    ensures { (w : KernelState) → Begins w (cells_of m.word state) versions → IsVerdict m (tables_of script.now) trace.now w result }
{
    match against(alloc, script, &state.atlas) {
        Ok(()) => { verdict_of(check(alloc, state, versions, script, supply, policy, trace)) }
        Err(fault) => Verdict::Stopped(Fault::from(fault)),
    }
}

/// Checks a trace of a script from the state that the image on a disk means. The disk is only read. `N` has the answers of the managers.
fn judge<D: Disk, S: Fn(u64, u32, u16) -> u64, P: Fn(u32, u64) -> bool, N: Answers>(
    alloc: Global,
    disk: &mut D,
    script: &Script,
    trace: &[u8],
    supply: &S,
    policy: &P,
) -> Verdict
    requires words { (t p a : ℕ) → t < 2 ^ 64 → p < 256 → a < 128 → S.pre supply.now t p a }
    requires supplied { (t p a r : ℕ) → t < 2 ^ 64 → p < 256 → a < 128 → S.post supply.now t p a r → r ≡ N.word t p a }
    requires callable { (every since : ℕ) → every < 2 ^ 32 → since < 2 ^ 64 → P.pre policy.now every since }
    requires answers { (every since : ℕ) (r : Bool) → every < 2 ^ 32 → since < 2 ^ 64 → P.post policy.now every since r → r ≡ N.wish every since }
    requires allowed { IsScript (tables_of script.now) }
    ensures judged { IsJudged (record { word = N.word; wish = N.wish }) (tables_of script.now) trace.now
        (seen_disk D.Disk disk.old disk.new) result }
    ensures same { ReadsOnly D.Disk disk.old disk.new }
{
    match read_image(alloc, disk, supply) {
        Ok(ImageFacts { cut, state, .. }) => {
            verdict_from(alloc, state, cut.0, script, trace, supply, policy)
        }
        Err(fault) => Verdict::Stopped(Fault::from(fault)),
    }
}

/// Checks a trace of a script by the managers of a gate, whose answers `N` has. The disk is only read.
pub(crate) fn judge_by<D: Disk, S: Supplier, P: Policy, N: Answers>(
    alloc: Global,
    disk: &mut D,
    script: &Script,
    trace: &[u8],
    gate: &Gate<S, P>,
) -> Verdict
    requires supplies { S.keeps gate.now.supply }
    requires wishes { P.keeps gate.now.policy }
    requires word { S.word gate.now.supply ≡ N.word }
    requires wish { P.wish gate.now.policy ≡ N.wish }
    requires allowed { IsScript (tables_of script.now) }
    ensures judged { IsJudged (record { word = N.word; wish = N.wish }) (tables_of script.now) trace.now
        (seen_disk D.Disk disk.old disk.new) result }
    ensures same { ReadsOnly D.Disk disk.old disk.new }
{
    let words = |tag: u64, page: u32, place: u16|
        requires keeps { S.keeps gate.now.supply }
        requires page { page < 256 }
        requires place { place < 128 }
        ensures { result ≡ S.word gate.entry.now.supply tag page place }
    { gate.supply.word(tag, page, place) };
    let wishes = |every: u32, since: u64|
        requires { P.keeps gate.now.policy }
        ensures { result ≡ P.wish gate.entry.now.policy every since }
    { gate.policy.wish(every, since) };
    judge::<D, _, _, N>(alloc, disk, script, trace, &words, &wishes)
}
