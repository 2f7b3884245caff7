//! Runs by two workers of which a call of the disk fails, or one of the sink.
use crate::gates::Crowd;
use edge_disk::MemoryDisk;
use script_reading::read_script;
use std::alloc::Global;
use std::sync::Wait;
use std::test::Fail;
use std::thread::Threads;
use test_system::{
    FORMAT_CALLS, OpenGate, checked, copy_of, disk_of, formatted, left_by, put, put_on_threads,
    scripts,
};

// Two containers and two loci, with wishes, and a Stable of one of them.
pub(crate) const TWO: &[u8] = b"steps = 9
program.p = ['set r0 7', 'store r1 r0', 'print r0', 'add r0 r0', 'store r1 r0', 'jump @2']
program.q = ['set r1 130', 'store r0 r1', 'stabilise r2', 'store r0 r1', 'load r2 r1', 'print r2', 'halt']
container = [
    { name = 'a', pages = 2, every = 2, program = 'p' },
    { name = 'b', pages = 2, tag = 5, every = 1, program = 'q', regions = ['1 a 1 1 rw'] },
]
locus = [
    { name = 'l', host = 'a', every = 4 },
    { name = 'm', host = 'b', every = 5, caps = ['atlas t'] },
]
";

// The last line of a run that was ended so.
const FAULT: &str = "fault 5 disk\n";

// A disk with an empty image, of which this call fails.
fn failing_at(alloc: Global, failing: u64) -> Result<MemoryDisk, Fail> {
    let disk = disk_of(alloc, 2700, &[failing])?;
    let (_, made) = put(alloc, &["format", "2600"], b"", disk)?;
    Ok(made.disk)
}

// A run by two workers of which this call of the disk fails. What isn't so of it: its lines are those of a legal history, and behind them that of the fault;
// its image means what all its commits make, the tried one in or out; and it can be made again on the disk that came back. None where the run came to its
// end before.
fn wrong_at<R: Threads + Wait + Sync + Alloc<A = Global>>(
    rt: &R,
    text: &[u8],
    failing: u64,
) -> Result<Option<&'static str>, Fail> {
    let alloc = rt.alloc();
    let script = read_script(alloc, text)?.script;
    let disk = failing_at(alloc, failing)?;
    let before = copy_of(&disk)?;
    let words = ["run", "--workers", "2", "--trace"];
    let (lines, outcome) = put_on_threads(rt, alloc, &words, text, &[], disk, &Crowd)?;
    if outcome.status.number() == 0 {
        return Ok(None);
    }
    let Some(trace) = lines.as_str().strip_suffix(FAULT) else {
        return Ok(Some("the line of the fault"));
    };
    let wanted = format!(in alloc; "ok {}\n", outcome.history.len())?;
    if checked(alloc, text, trace, before)?.as_str() != wanted.as_str() {
        return Ok(Some("the check of its trace"));
    }
    let fronts = left_by(alloc, &script, &outcome.history)?;
    let (shown, left) = put(alloc, &["show"], b"", outcome.disk)?;
    if !fronts.iter().any(|front| front.shows(shown.as_str())) {
        return Ok(Some("what is shown"));
    }
    let (_, again) = put_on_threads(rt, alloc, &words, text, &[], left.disk, &OpenGate)?;
    if again.status.number() != 0 {
        return Ok(Some("the run made again"));
    }
    Ok(Some(""))
}

#[test]
fn each_failing_call_leaves_a_cut(rt: HostRuntime) -> Result<(), Fail> {
    for text in [scripts::WISHES, scripts::COUNTS_ON, TWO] {
        let mut stopped = 0u32;
        for failing in FORMAT_CALLS + 1..FORMAT_CALLS + 90 {
            if let Some(told) = wrong_at(&rt, text, failing)? {
                assert!(rt; told == "", "{told}: at {failing}");
                stopped = stopped.saturating_add(1);
            }
        }
        // The records of those born alone take more calls than these.
        assert!(rt; stopped > 12, "{stopped}");
    }
    Ok(())
}

#[test]
fn a_sink_that_fails_is_told_by_the_status(rt: HostRuntime) -> Result<(), Fail> {
    let alloc = rt.alloc();
    let disk = formatted(alloc, &[])?;
    let words = ["run", "--workers", "2"];
    let (lines, outcome) = put_on_threads(&rt, alloc, &words, TWO, &[1], disk, &OpenGate)?;
    assert!(rt; lines.is_empty());
    assert!(rt; outcome.status.number() == 7);
    Ok(())
}
