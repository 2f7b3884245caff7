//! A trace checked line by line.
ghost use Rattle.std.specs.Prelude.{◌≡◌, ◌≤◌, ◌<◌, ◌^◌, ◌++◌, ◌∷◌, ◌↔◌, ℕ, All, Bool, IfErr, IfNone, IfOk, IfSome, IsTrue};
ghost use Rattle.model_clocks.specs.model_kernel.Soundness.{IsSound};
ghost use Rattle.model_clocks.specs.model_kernel.State.{KernelState, Supply, Text};
ghost use Rattle.plain_states.specs.Born.{AreEdges, AreOfOneKind};
ghost use Rattle.plain_states.specs.Plains.{atlas_of, cells_of};
ghost use Rattle.script_types.specs.Rules.{IsScript};
ghost use Rattle.script_types.specs.Scripts.{tables_of};
ghost use Rattle.trace_checker.specs.Reading.{IsFault, IsPlayedFault, IsStop, IsUnwanted};
ghost use Rattle.trace_facts.specs.Reading.{ReadsOn};
ghost use Rattle.trace_facts.specs.trace_steps.Standing.{IsStanding};
ghost use Rattle.trace_facts.specs.trace_step_facts.Standing.{Managers};
ghost use Rattle.trace_facts.specs.Traces.{Begins, IsPlayed, Spells};

use crate::faults::TraceFault;
use crate::lines::{no_text, text_of};
use crate::reading::wanted;
use crate::words::before;
use arrayvec::ArrayString;
use base_types::{Entry, Event};
use line_text::LINE;
use plain_states::Plain;
use script_types::Script;
use std::alloc::{AllocError, Global};
use trace_facts::{Checker, begin};

fn is_same(a: &[u8], b: &[u8]) -> bool
    ensures { IsTrue result ↔ (a.now ≡ b.now) }
{
    a == b
}

/// What is left behind the text and a line feed, with which the rest has to begin.
fn behind_line<'a>(rest: &'a [u8], text: &str) -> Option<&'a [u8]>
    ensures some { IfSome result (λ left. rest.now ≡ text.now ++ 10 ∷ left.now) }
    ensures none { IfNone result ((left : Text) → rest.now ≡ text.now ++ 10 ∷ left → ⊥) }
{
    if rest.len() <= text.len() {
        return None;
    }
    let (line, left) = rest.split_at(text.len());
    let (end, behind) = left.split_at(1);
    if !is_same(line, text.as_bytes()) {
        return None;
    }
    if !is_same(end, "\n".as_bytes()) {
        return None;
    }
    Some(behind)
}

/// The fault of a line that wants no entry.
fn unwanted(line: u64) -> TraceFault
    ensures { IsUnwanted line result }
{
    TraceFault::At {
        line,
        want: None,
        text: no_text(),
    }
}

/// The fault of a line that names this entry, which may be next and has this line.
fn wrong(entry: Entry, text: ArrayString<LINE>, line: u64) -> TraceFault
    ensures played { IsPlayed entry.event → IsPlayedFault line entry text.bytes result }
    ensures other { (IsPlayed entry.event → ⊥) → IsUnwanted line result }
{
    match entry.event {
        Event::Birth | Event::Step => TraceFault::At {
            line,
            want: Some(entry),
            text,
        },
        _ => unwanted(line),
    }
}

/// Reads the line of this number, with which the rest begins. What is left behind it.
fn read_line<'a, S: Fn(u64, u32, u16) -> u64, P: Fn(u32, u64) -> bool>(
    alloc: Global,
    checker: &mut Checker,
    script: &Script,
    supply: &S,
    policy: &P,
    rest: &'a [u8],
    line: u64,
) -> Result<&'a [u8], TraceFault>
    ghost gate: { Managers }
    requires words { (t p a : ℕ) → t < 2 ^ 64 → p < 256 → a < 128 → S.pre supply.now t p a }
    requires supplied { (t p a r : ℕ) → t < 2 ^ 64 → p < 256 → a < 128 → S.post supply.now t p a r → r ≡ gate.word t p a }
    requires callable { (every since : ℕ) → every < 2 ^ 32 → since < 2 ^ 64 → P.pre policy.now every since }
    requires answers { (every since : ℕ) (r : Bool) → every < 2 ^ 32 → since < 2 ^ 64 → P.post policy.now every since r → r ≡ gate.wish every since }
    requires stands { IsStanding gate.word gate.wish (tables_of script.now) checker.old }
    ensures ok { IfOk result (λ left. ReadsOn gate.word gate.wish (tables_of script.now) checker.old rest.now left.now checker.new) }
    ensures err { IfErr result (λ fault. IsStop gate.word gate.wish (tables_of script.now) checker.old rest.now line fault) }
{
    let found = match wanted(alloc, checker, script, supply, policy, before(rest, b'\n')) {
        Ok(found) => found,
        Err(_) => return Err(TraceFault::Memory),
    };
    let Some(entry) = found else {
        return Err(unwanted(line));
    };
    let text = text_of(&checker.state.atlas, &entry);
    let Some(left) = behind_line(rest, text.as_str()) else {
        return Err(wrong(entry, text, line));
    };
    Ok(left)
}

/// How many lines the trace has, where it is that of a legal history of the script from this state. Else the first line that is
/// that of no entry that may be next, or `Memory`.
///
/// Each entry's line ends with a line feed, the last one's too. What a line costs doesn't grow with the trace, but for the commits
/// that the cut has not passed.
pub fn check<S: Fn(u64, u32, u16) -> u64, P: Fn(u32, u64) -> bool>(
    alloc: Global,
    start: Plain,
    versions: [u64; 64],
    script: &Script,
    supply: &S,
    policy: &P,
    trace: &[u8],
) -> Result<u64, TraceFault>
    ghost gate: { Managers }
    requires words { (t p a : ℕ) → t < 2 ^ 64 → p < 256 → a < 128 → S.pre supply.now t p a }
    requires supplied { (t p a r : ℕ) → t < 2 ^ 64 → p < 256 → a < 128 → S.post supply.now t p a r → r ≡ gate.word t p a }
    requires callable { (every since : ℕ) → every < 2 ^ 32 → since < 2 ^ 64 → P.pre policy.now every since }
    requires answers { (every since : ℕ) (r : Bool) → every < 2 ^ 32 → since < 2 ^ 64 → P.post policy.now every since r → r ≡ gate.wish every since }
    requires sound { (s : Supply) → IsSound (cells_of s start) }
    requires edges { AreEdges start.atlas.edges.items }
    requires low { All (λ v. v ≤ 2 ^ 62) versions }
    requires script { IsScript (tables_of script.now) }
    requires kinds { AreOfOneKind (atlas_of start.atlas) (tables_of script.now) }
    ensures ok { IfOk result (λ lines. (w : KernelState) → Begins w (cells_of gate.word start) versions → Spells gate.word gate.wish w (tables_of script.now) trace.now lines) }
    ensures at { IfErr result (λ f. (w : KernelState) → Begins w (cells_of gate.word start) versions → IsFault gate.word gate.wish w (tables_of script.now) trace.now f) }
{
    let mut checker = match begin(alloc, start, versions, script) {
        Ok(checker) => checker,
        Err(_) => return Err(TraceFault::Memory),
    };
    let mut rest = trace;
    let mut lines = 0;
    while rest.len() > 0 {
        rest = match read_line(alloc, &mut checker, script, supply, policy, rest, lines + 1) {
            Ok(left) => left,
            Err(fault) => return Err(fault),
        };
        lines += 1;
    }
    Ok(lines)
}
