//! A script that runs until the machine stops.
ghost use Rattle.std.specs.Prelude.{◌≡◌, ◌<◌, ◌+◌, IfOk, min};
ghost use Rattle.edge_disk.specs.MemoryDisk.{moments_of};
ghost use Rattle.hopper_top.specs.command_promises.Manners.{on_threads, serial};
ghost use Rattle.hopper_clients.specs.Calls.{IsCount};
ghost use Rattle.hopper_clients.specs.StopPromise.{IsStopOf, KeepsPromise};

use crate::calling::{call_on_threads, run_words};
use crate::{Called, call, new_image, one_word};
use base_types::Entry;
use command_outcomes::Status;
use edge_disk::{MemoryDisk, Torn};
use std::alloc::{AllocError, Global};
use std::sync::Wait;
use std::thread::Threads;

/// What became of a script on a machine that stopped.
#[derive(Drop)]
pub struct Shown {
    /// How `format`, `run` and `show` ended.
    pub formatted: Status,
    pub ran: Status,
    pub shown: Status,
    /// The run's entries in order, and for each Snap and Stable its mark.
    pub history: Vec<Entry>,
    pub marks: Vec<u64>,
    /// The lines that the run put.
    pub lines: Vec<u8>,
    /// The disk as the run left it at its return.
    pub disk: MemoryDisk,
    /// The disk's clock where the run began, from which marks count, and where the machine stopped.
    pub since: u64,
    pub stopped: u64,
    /// What was shown of the image that the stop left.
    pub text: Vec<u8>,
}

/// The moment so many moments behind one, or the present one where that is earlier.
fn stop_at(since: u64, after: u64, now: u64) -> u64
    ensures { result ≡ min (since + after) now }
{
    since.saturating_add(after).min(now)
}

// Lets the machine stop once `after` writes and syncs of a run were begun, or at its return, and shows what the image means that the stop leaves.
fn stop_and_show(
    alloc: Global,
    formatted: Status,
    since: u64,
    ran: Called,
    after: u64,
    torn: Torn,
) -> Result<Shown, AllocError>
    ensures { IfOk result (λ s. IsStopOf formatted since ran after torn s) }
{
    let Called {
        outcome: ran,
        text: lines,
        ..
    } = ran;
    let stopped = stop_at(since, after, ran.disk.moments());
    let left = ran.disk.crash(stopped, torn)?;
    let Called {
        outcome: showed,
        text,
        ..
    } = call(alloc, &one_word(alloc, "show")?, "".as_bytes(), left)?;
    Ok(Shown {
        formatted,
        ran: ran.status,
        shown: showed.status,
        history: ran.history,
        marks: ran.marks,
        lines,
        disk: ran.disk,
        since,
        stopped,
        text,
    })
}

/// Runs a script on a new image, lets the machine stop once `after` writes and syncs of the run were begun, or at its return where that
/// is earlier, and shows what the image means that the stop leaves. `torn` says what becomes of blocks that were pending then.
pub fn run_and_stop(
    alloc: Global,
    script: &str,
    after: u64,
    torn: Torn,
) -> Result<Shown, AllocError>
    ensures stopped { IfOk result (λ s. s.stopped ≡ min (s.since + after) (moments_of s.disk)) }
    ensures kept { IfOk result (λ s. s.formatted ≡ Status.Done → 0 < after → KeepsPromise serial script.now torn s) }
{
    let formatted = new_image(alloc)?.outcome;
    let since = formatted.disk.moments();
    let ran = call(
        alloc,
        &one_word(alloc, "run")?,
        script.as_bytes(),
        formatted.disk,
    )?;
    stop_and_show(alloc, formatted.status, since, ran, after, torn)
}

/// As `run_and_stop`, for a run by so many workers as the digits say, each in a thread of its own.
pub fn run_on_threads_and_stop<R: Threads + Wait + Sync>(
    rt: &R,
    alloc: Global,
    workers: &str,
    script: &str,
    after: u64,
    torn: Torn,
) -> Result<Shown, AllocError>
    requires count { IsCount workers.now }
    ensures stopped { IfOk result (λ s. s.stopped ≡ min (s.since + after) (moments_of s.disk)) }
    ensures kept { IfOk result (λ s. s.formatted ≡ Status.Done → 0 < after → KeepsPromise on_threads script.now torn s) }
{
    let formatted = new_image(alloc)?.outcome;
    let since = formatted.disk.moments();
    let ran = call_on_threads(
        rt,
        alloc,
        &run_words(alloc, workers)?,
        script.as_bytes(),
        formatted.disk,
    )?;
    stop_and_show(alloc, formatted.status, since, ran, after, torn)
}
