//! Runs that are traced, and traces that are checked.
use crate::put;
use command_outcomes::Outcome;
use edge_disk::MemoryDisk;
use std::alloc::Global;
use std::test::Fail;

/// A run of a script, told entry by entry.
pub(crate) fn traced(
    alloc: Global,
    script: &[u8],
    disk: MemoryDisk,
) -> Result<(String, Outcome<MemoryDisk>), Fail> {
    put(alloc, &["run", "--trace"], script, disk)
}

// How the line begins that a check of a trace puts where it ends so.
fn line_front(status: u8) -> &'static str {
    match status {
        0 => "ok ",
        3 => "fault 3 ",
        10 => "fault 10 ",
        _ => "no other end",
    }
}

/// The line that a check of a source puts, and the disk, on which it made no write and no sync.
pub(crate) fn told(
    alloc: Global,
    source: &[u8],
    disk: MemoryDisk,
) -> Result<(String, MemoryDisk), Fail> {
    let moments = disk.moments();
    let (line, outcome) = put(alloc, &["check-trace"], source, disk)?;
    if outcome.disk.moments() != moments || !outcome.history.is_empty() {
        return Err(Fail::from("the disk is not only read"));
    }
    if !line.starts_with(line_front(outcome.status.number())) {
        return Err(Fail::from("the line is not that of the status"));
    }
    Ok((line, outcome.disk))
}

/// The line that a check of a trace puts, of a run of this script on this disk.
pub fn checked(
    alloc: Global,
    script: &[u8],
    trace: &str,
    disk: MemoryDisk,
) -> Result<String, Fail> {
    let mut source = script.to_vec(alloc)?;
    source.extend_from_slice(b"---\n")?;
    source.extend_from_slice(trace.as_bytes())?;
    let (line, _) = told(alloc, &source, disk)?;
    Ok(line)
}
