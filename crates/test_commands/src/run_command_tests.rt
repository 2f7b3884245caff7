//! Runs and drills on a disk in memory: lines, faults, and each failing call.
ghost use Rattle.std.specs.Prelude.{◌≤◌};

use command_outcomes::{Outcome, Status};
use command_run::{Lines, run_drill, run_script};
use edge_disk::{MemoryDisk, NoBlocks};
use edge_managers::{CountedWords, EveryVersions, Policy, Supplier};
use edge_streams::{MemorySink, MemorySource};
use image_format::{FormatFault, format};
use script_types::Why;
use std::alloc::{AllocError, Global};
use std::test::Fail;

// Counts in a page and prints the count, once a run; each run makes it stable.
const COUNT: &[u8] = b"steps = 6
program.p = ['set r2 1', 'load r1 r0', 'add r1 r2', 'store r0 r1', 'print r1', 'stabilise r3', 'jump @1']
container = [{ name = 'box', pages = 1, program = 'p' }]
locus = [{ name = 'counter', host = 'box', caps = ['atlas t'] }]
";

// Names a locus as the container of the script before.
const CLASH: &[u8] = b"program.p = ['halt']
container = [{ name = 'other', pages = 1, program = 'p' }]
locus = [{ name = 'box', host = 'other' }]
";

// Prints, and stores into one page after another, with a frame for one.
const WIDE: &[u8] = b"frames = 1
program.p = ['set r1 128', 'print r1', 'store r0 r2', 'add r0 r1', 'jump @2']
container = [{ name = 'wide', pages = 64, program = 'p' }]
locus = [{ name = 'l', host = 'wide' }]
";

// Stores a word, and loads and prints it.
const STORED: &[u8] = b"program.p = ['set r0 5', 'store r1 r0', 'load r2 r1', 'print r2', 'halt']
container = [{ name = 'a', pages = 1, program = 'p' }]
locus = [{ name = 'l', host = 'a' }]
";

// Its births with their Stable, and a step for each instruction, with the version of each entity behind a colon where it was written.
const STORED_TRACE: &str = "birth a atlas:1,a:1
birth l atlas:2,a:2,l:1
stable atlas
step l l:2 quiet
step l a:3,l:3 reply 0
step l a=3,l:4 read 5
step l l:5 print 5
step l l:6 quiet
";

// A disk with the empty image, of which the calls of these numbers fail; the first ten format it.
fn formatted(alloc: Global, fails: &[u64]) -> Result<MemoryDisk, Fail> {
    formatted_with(alloc, 2600, 300, fails)
}

// One of so many blocks, which keeps so many writes and syncs.
fn formatted_with(alloc: Global, blocks: u32, room: u32, fails: &[u64]) -> Result<MemoryDisk, Fail>
    requires least { 2600 ≤ blocks }
    requires most { blocks ≤ 65536 }
{
    let disk = MemoryDisk::new(alloc, blocks, room, fails.to_vec(alloc)?)?;
    match format(disk, blocks) {
        Ok(disk) => Ok(disk),
        Err(FormatFault { .. }) => Err(AllocError.into()),
    }
}

// Runs a script, where these takes of the source and puts of the sink fail: what was put, and what is left.
fn run(
    alloc: Global,
    script: &[u8],
    fails: (&[u64], &[u64]),
    disk: MemoryDisk,
) -> Result<(String, Outcome<MemoryDisk>), Fail> {
    run_for(alloc, script, Lines::Printed, fails, disk)
}

// The same, where these lines are put.
fn run_for(
    alloc: Global,
    script: &[u8],
    lines: Lines,
    fails: (&[u64], &[u64]),
    disk: MemoryDisk,
) -> Result<(String, Outcome<MemoryDisk>), Fail> {
    let mut source = MemorySource::new(script.to_vec(alloc)?, fails.0.to_vec(alloc)?);
    let mut sink = MemorySink::new(alloc, 400, fails.1.to_vec(alloc)?)?;
    let words = |tag, page, place| CountedWords.word(tag, page, place);
    let wishes = |every, since| EveryVersions.wish(every, since);
    let outcome = run_script(alloc, &mut source, &mut sink, disk, &words, &wishes, lines);
    let held = std::str::from_utf8(sink.held()).ok().ok_or("text")?;
    Ok((String::from_str(alloc, held)?, outcome))
}

#[test]
fn a_second_run_goes_on_where_the_first_ended(rt: HostRuntime) -> Result<(), Fail> {
    let (lines, first) = run(rt.alloc(), COUNT, (&[], &[]), formatted(rt.alloc(), &[])?)?;
    assert!(rt; lines.as_str() == "counter 1\n");
    assert!(rt; first.status.number() == 0);
    // The births with their Stable, and six steps with one.
    assert!(rt; first.history.len() == 10);
    assert!(rt; first.marks.len() == 2);
    let (lines, second) = run(rt.alloc(), COUNT, (&[], &[]), first.disk)?;
    assert!(rt; lines.as_str() == "counter 2\n");
    assert!(rt; second.status.number() == 0);
    Ok(())
}

#[test]
fn a_traced_run_has_a_line_for_each_entry(rt: HostRuntime) -> Result<(), Fail> {
    let disk = formatted(rt.alloc(), &[])?;
    let (lines, traced) = run_for(rt.alloc(), STORED, Lines::Entries, (&[], &[]), disk)?;
    assert!(rt; lines.as_str() == STORED_TRACE);
    assert!(rt; traced.status.number() == 0);
    Ok(())
}

// The drill of this number on a disk with the empty image: what was put, and how it ended.
fn drilled(alloc: Global, number: u64) -> Result<(String, Status), Fail> {
    let mut sink = MemorySink::new(alloc, 400, Vec::new(alloc))?;
    let words = |tag, page, place| CountedWords.word(tag, page, place);
    let wishes = |every, since| EveryVersions.wish(every, since);
    let disk = formatted_with(alloc, 4500, 60_000, &[])?;
    let outcome = run_drill(alloc, number, &mut sink, disk, &words, &wishes);
    let held = std::str::from_utf8(sink.held()).ok().ok_or("text")?;
    Ok((String::from_str(alloc, held)?, outcome.status))
}

#[test]
fn a_drill_has_the_same_line_on_each_new_image(rt: HostRuntime) -> Result<(), Fail> {
    let (line, first) = drilled(rt.alloc(), 1)?;
    let (again, second) = drilled(rt.alloc(), 1)?;
    assert!(rt; (first.number(), second.number()) == (0, 0), "{line}");
    assert!(rt; line.starts_with("entries ") && line.as_str().lines().count() == 1);
    assert!(rt; line.as_str() == again.as_str());
    Ok(())
}

#[test]
fn what_stops_first_decides(rt: HostRuntime) -> Result<(), Fail> {
    let disk = formatted(rt.alloc(), &[])?;
    let (calls, moments) = (disk.calls(), disk.moments());
    // A source that isn't read, and one that is refused, stop before the disk.
    let (lines, unread) = run(rt.alloc(), COUNT, (&[1], &[]), disk)?;
    assert!(rt; lines.as_str() == "fault 6 source\n");
    let (lines, refused) = run(rt.alloc(), b"steps = 0", (&[], &[]), unread.disk)?;
    assert!(rt; lines.as_str() == "fault 3 6 steps\n");
    assert!(rt; (refused.disk.calls(), refused.disk.moments()) == (calls, moments));
    // A script that doesn't fit is told behind the opening.
    let (_, first) = run(rt.alloc(), COUNT, (&[], &[]), refused.disk)?;
    let (lines, misfit) = run(rt.alloc(), CLASH, (&[], &[]), first.disk)?;
    assert!(rt; lines.as_str() == "fault 3 11 locus.0.name\n");
    assert!(rt; matches!(&misfit.status, Status::Script(refusal) if refusal.why == Why::Clash));
    assert!(rt; misfit.history.len() == 0);
    Ok(())
}

#[test]
fn a_sink_that_fails_is_told(rt: HostRuntime) -> Result<(), Fail> {
    let (lines, outcome) = run(rt.alloc(), COUNT, (&[], &[1]), formatted(rt.alloc(), &[])?)?;
    assert!(rt; lines.as_str() == "");
    assert!(rt; outcome.status.number() == 7);
    assert!(rt; outcome.history.len() == 10);
    let (lines, next) = run(rt.alloc(), COUNT, (&[], &[]), outcome.disk)?;
    assert!(rt; lines.as_str() == "counter 2\n");
    assert!(rt; next.status.number() == 0);
    Ok(())
}

#[test]
fn too_few_blocks_are_told_behind_the_lines(rt: HostRuntime) -> Result<(), Fail> {
    let (lines, outcome) = run(rt.alloc(), WIDE, (&[], &[]), formatted(rt.alloc(), &[])?)?;
    assert!(rt; lines.as_str() == "l 128\nfault 9 1 0\n");
    assert!(rt;
        matches!(
            outcome.status,
            Status::BlocksFull(NoBlocks { need: 1, free: 0 })
        )
    );
    Ok(())
}

// A run of which the call of this number fails, and the run behind it: how both ended, and their lines.
fn twice(alloc: Global, failing: u64) -> Result<(u8, String, u8, String), Fail> {
    let (lines, first) = run(alloc, COUNT, (&[], &[]), formatted(alloc, &[failing])?)?;
    let (next, second) = run(alloc, COUNT, (&[], &[]), first.disk)?;
    Ok((first.status.number(), lines, second.status.number(), next))
}

#[test]
fn each_call_of_the_disk_that_fails_is_told(rt: HostRuntime) -> Result<(), Fail> {
    let (_, whole) = run(rt.alloc(), COUNT, (&[], &[]), formatted(rt.alloc(), &[])?)?;
    for failing in 11..=whole.disk.calls() {
        let (number, lines, next, more) = twice(rt.alloc(), failing)?;
        assert!(rt; number == 5, "call {failing}");
        assert!(rt;
            lines.as_str() == "fault 5 disk\n" || lines.as_str() == "counter 1\nfault 5 disk\n",
            "call {failing}"
        );
        assert!(rt; next == 0, "call {failing}");
        // What was counted stands from the second Stable's record of it on.
        assert!(rt;
            more.as_str() == "counter 1\n" || (lines.len() > 13 && more.as_str() == "counter 2\n"),
            "call {failing}"
        );
    }
    Ok(())
}
