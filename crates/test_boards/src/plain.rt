//! What the checker of traces and the plain kernel say of a history, which know of no board.
use crate::boards::Left;
use crate::cases::Case;
use base_types::{Entry, Event};
use command_check_trace::check_trace;
use edge_managers::{CountedWords, EveryVersions, Policy, Supplier};
use edge_streams::{MemorySink, MemorySource};
use std::alloc::Global;
use std::process::Abort;
use std::test::Fail;
use test_replays::{commits_of, fronts_from, means_one_of, text_of};

/// The text of a script, a line `---`, and the lines of a history.
fn with_trace(alloc: Global, script: &[u8], trace: &[u8]) -> Result<Vec<u8>, Fail> {
    let mut source = script.to_vec(alloc)?;
    source.extend_from_slice(b"---\n")?;
    source.extend_from_slice(trace)?;
    Ok(source)
}

/// What the checker of traces puts of what was left of a case.
fn verdict(alloc: Global, case: &Case, left: &Left) -> Result<String, Fail> {
    let bytes = with_trace(alloc, case.text(), &left.trace)?;
    let mut source = MemorySource::new(bytes, Vec::new(alloc));
    let mut sink = MemorySink::new(alloc, 1000, Vec::new(alloc))?;
    let supply = |tag, page, place| CountedWords.word(tag, page, place);
    let policy = |every, since| EveryVersions.wish(every, since);
    let disk = case.empty(alloc)?.memory;
    let _ = check_trace(alloc, &mut source, &mut sink, disk, &supply, &policy);
    text_of(alloc, &sink)
}

/// How many of so many commits of a history are sure: the last is not where it was only tried.
fn sure(history: &[Entry], commits: usize) -> usize {
    match history.last() {
        Some(entry) if entry.event == Event::Tried => commits.saturating_sub(1),
        _ => commits,
    }
}

/// The image means what the plain kernel makes of the part of the history that its commits take, the tried one in or out.
fn means_plainly(alloc: Global, case: &Case, left: &mut Left) -> Result<(), Fail> {
    let history = left.ended.history.as_slice();
    let recs = commits_of(alloc, history)?.recs;
    let least = sure(history, recs.len());
    let fronts = fronts_from(alloc, case.script(), history, &recs, least)?;
    means_one_of(alloc, &mut left.ended.disk.memory, &fronts, &recs)
}

/// The history is legal, and the image means what it makes.
pub(crate) fn is_plain<R: Abort>(
    rt: &R,
    alloc: Global,
    case: &Case,
    left: &mut Left,
) -> Result<(), Fail> {
    let wanted = format!(in alloc; "ok {}\n", left.ended.history.len())?;
    let told = verdict(alloc, case, left)?;
    assert!(rt; told.as_str() == wanted.as_str(), "{told}");
    means_plainly(alloc, case, left)
}
