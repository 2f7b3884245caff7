//! A script that runs with its trace, and the trace as it is checked.
ghost use Rattle.std.specs.Prelude.{◌≡◌, ◌≤◌, IfOk, length};
ghost use Rattle.hopper_top.specs.command_promises.Manners.{on_threads, serial};
ghost use Rattle.hopper_clients.specs.Calls.{IsCount};
ghost use Rattle.hopper_clients.specs.TracePromise.{AcceptsOwn, IsCheckOf, IsTraceable, IsTraced, most_bytes, traced_source};

use crate::calling::{call_on_threads, traced_words};
use crate::{Called, call, new_image, one_word, two_words};
use base_types::Entry;
use command_outcomes::Status;
use edge_disk::MemoryDisk;
use edge_streams::{MemorySink, MemorySource};
use std::alloc::{AllocError, Global};
use std::sync::Wait;
use std::thread::Threads;

/// What became of a script that was run with its trace, and of the trace as it was checked.
#[derive(Drop)]
pub struct Checked {
    /// How the `format` and the `run` of the one disk ended, and the `format` and the check of the other.
    pub formatted: Status,
    pub ran: Status,
    pub formatted_again: Status,
    pub checked: Status,
    /// The run's entries in order.
    pub history: Vec<Entry>,
    /// The lines that the run put, and the line that the check put.
    pub trace: Vec<u8>,
    pub verdict: Vec<u8>,
    /// Source, sink and disk as the check left them.
    pub source: MemorySource,
    pub sink: MemorySink,
    pub disk: MemoryDisk,
}

// A script, a line `---`, and a trace.
fn with_rule(alloc: Global, script: &[u8], trace: &[u8]) -> Result<Vec<u8>, AllocError>
    ensures { IfOk result (λ source. source.items ≡ traced_source script.now trace.now) }
{
    let mut source = script.to_vec(alloc)?;
    source.extend_from_slice("---\n".as_bytes())?;
    source.extend_from_slice(trace)?;
    Ok(source)
}

// Checks the trace that a run put by its script, on a new image on a second disk.
fn check_again(
    alloc: Global,
    script: &str,
    formatted: Status,
    ran: Called,
) -> Result<Checked, AllocError>
    ensures { IfOk result (λ c. IsCheckOf script.now formatted ran c) }
{
    let Called {
        outcome: ran,
        text: trace,
        ..
    } = ran;
    let traced = with_rule(alloc, script.as_bytes(), &trace)?;
    let formatted_again = new_image(alloc)?.outcome;
    let Called {
        outcome: checked,
        text: verdict,
        source,
        sink,
    } = call(
        alloc,
        &one_word(alloc, "check-trace")?,
        &traced,
        formatted_again.disk,
    )?;
    Ok(Checked {
        formatted,
        ran: ran.status,
        formatted_again: formatted_again.status,
        checked: checked.status,
        history: ran.history,
        trace,
        verdict,
        source,
        sink,
        disk: checked.disk,
    })
}

/// Runs a script with its trace on a new image, and checks the trace by the script on another new image.
pub fn trace_and_check(alloc: Global, script: &str) -> Result<Checked, AllocError>
    ensures traced { IfOk result (λ c. c.formatted ≡ Status.Done → c.ran ≡ Status.Done → IsTraced serial script.now c) }
    ensures accepted { IfOk result (λ c. c.formatted ≡ Status.Done → c.ran ≡ Status.Done → c.formatted_again ≡ Status.Done
        → IsTraceable script.now → length (traced_source script.now c.trace.items) ≤ most_bytes → AcceptsOwn c) }
{
    let formatted = new_image(alloc)?.outcome;
    let ran = call(
        alloc,
        &two_words(alloc, "run", "--trace")?,
        script.as_bytes(),
        formatted.disk,
    )?;
    check_again(alloc, script, formatted.status, ran)
}

/// As `trace_and_check`, for a run by so many workers as the digits say, each in a thread of its own.
pub fn trace_on_threads_and_check<R: Threads + Wait + Sync>(
    rt: &R,
    alloc: Global,
    workers: &str,
    script: &str,
) -> Result<Checked, AllocError>
    requires count { IsCount workers.now }
    ensures traced { IfOk result (λ c. c.formatted ≡ Status.Done → c.ran ≡ Status.Done → IsTraced on_threads script.now c) }
    ensures accepted { IfOk result (λ c. c.formatted ≡ Status.Done → c.ran ≡ Status.Done → c.formatted_again ≡ Status.Done
        → IsTraceable script.now → length (traced_source script.now c.trace.items) ≤ most_bytes → AcceptsOwn c) }
{
    let formatted = new_image(alloc)?.outcome;
    let ran = call_on_threads(
        rt,
        alloc,
        &traced_words(alloc, workers)?,
        script.as_bytes(),
        formatted.disk,
    )?;
    check_again(alloc, script, formatted.status, ran)
}
