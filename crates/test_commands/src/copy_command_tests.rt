//! Copies made by the command, with their line, and copies that are refused or that fail.
use command_copy::copy_image;
use command_format::format_image;
use command_outcomes::{Outcome, Status};
use command_run::{Lines, run_script};
use edge_disk::MemoryDisk;
use edge_managers::{CountedWords, EveryVersions, Policy, Supplier};
use edge_streams::{MemorySink, MemorySource};
use std::alloc::Global;
use std::test::Fail;

// An empty image, made by ten calls of the disk, of which the calls of these numbers fail.
fn empty_image(alloc: Global, fails: &[u64]) -> Result<MemoryDisk, Fail> {
    let mut sink = MemorySink::new(alloc, 0, Vec::new(alloc))?;
    let disk = MemoryDisk::new(alloc, 2600, 600, fails.to_vec(alloc)?)?;
    let outcome = format_image(alloc, 2600, &mut sink, disk);
    Ok(outcome.disk)
}

// A word is stored, and there the locus halts; the container is snapped at each version.
const STORES: &[u8] = b"program.p = ['set r0 5', 'store r1 r0', 'halt']
container = [{ name = 'a', pages = 1, every = 1, program = 'p' }]
locus = [{ name = 'l', host = 'a' }]
";

// Raise the word 0 of `a`, or of its copy `b`, print it, and halt. Each version is recorded.
const COUNTS: [&[u8]; 4] = [
    b"program.p = ['load r1 r0', 'set r2 1', 'add r1 r2', 'store r0 r1', 'print r1', 'halt']
container = [{ name = 'a', pages = 1, every = 1, program = 'p' }]
locus = [{ name = 'l', host = 'a', every = 1 }]
",
    b"container = [{ name = 'b', pages = 1 }]
locus = [{ name = 'm', host = 'b', every = 1 }]
",
    b"container = [{ name = 'b', pages = 1 }]
locus = [{ name = 'n', host = 'b', every = 1 }]
",
    b"container = [{ name = 'a', pages = 1 }]
locus = [{ name = 'o', host = 'a', every = 1 }]
",
];

// What the run of a script prints, and the disk with the image that it leaves.
fn run(alloc: Global, script: &[u8], disk: MemoryDisk) -> Result<(String, MemoryDisk), Fail> {
    let mut source = MemorySource::new(script.to_vec(alloc)?, Vec::new(alloc));
    let mut sink = MemorySink::new(alloc, 100, Vec::new(alloc))?;
    let words = |tag, page, place| CountedWords.word(tag, page, place);
    let wishes = |every, since| EveryVersions.wish(every, since);
    let lines = Lines::Printed;
    let outcome = run_script(alloc, &mut source, &mut sink, disk, &words, &wishes, lines);
    let held = std::str::from_utf8(sink.held()).ok().ok_or("text")?;
    Ok((String::from_str(alloc, held)?, outcome.disk))
}

// The image that the run of `STORES` leaves.
fn image_of_a_run(alloc: Global) -> Result<MemoryDisk, Fail> {
    let (_, disk) = run(alloc, STORES, empty_image(alloc, &[])?)?;
    Ok(disk)
}

// A copy on a disk, over a sink of so much room, and what the sink got.
fn copied_into(
    alloc: Global,
    room: u32,
    disk: MemoryDisk,
    name: &str,
    fresh: &str,
) -> Result<(Outcome<MemoryDisk>, MemorySink), Fail> {
    let name = String::from_str(alloc, name)?;
    let fresh = String::from_str(alloc, fresh)?;
    let mut sink = MemorySink::new(alloc, room, Vec::new(alloc))?;
    let outcome = copy_image(alloc, &name, &fresh, &mut sink, disk);
    Ok((outcome, sink))
}

// The same, where there is room for a line.
fn copied(
    alloc: Global,
    disk: MemoryDisk,
    name: &str,
    fresh: &str,
) -> Result<(Outcome<MemoryDisk>, MemorySink), Fail> {
    copied_into(alloc, 100, disk, name, fresh)
}

#[test]
fn a_copy_is_told_with_its_number(rt: HostRuntime) -> Result<(), Fail> {
    let (outcome, sink) = copied(rt.alloc(), image_of_a_run(rt.alloc())?, "a", "b")?;
    assert!(rt; outcome.status.number() == 0);
    assert!(rt; outcome.history.is_empty() && outcome.marks.is_empty());
    assert!(rt; sink.held() == b"copied b 2\n".as_slice());
    // Behind it the name is taken, and the locus is no container.
    let (outcome, sink) = copied(rt.alloc(), outcome.disk, "a", "b")?;
    assert!(rt; sink.held() == b"fault 3 4 b\n".as_slice());
    let (_, sink) = copied(rt.alloc(), outcome.disk, "l", "x")?;
    assert!(rt; sink.held() == b"fault 3 5 l\n".as_slice());
    Ok(())
}

#[test]
fn a_copy_runs_apart_from_its_container(rt: HostRuntime) -> Result<(), Fail> {
    let (lines, disk) = run(rt.alloc(), COUNTS[0], empty_image(rt.alloc(), &[])?)?;
    assert!(rt; lines.as_str() == "l 1\n", "{lines}");
    let (outcome, _) = copied(rt.alloc(), disk, "a", "b")?;
    // The copy counts on from 1, and so does the first container behind it.
    let (lines, disk) = run(rt.alloc(), COUNTS[1], outcome.disk)?;
    assert!(rt; lines.as_str() == "m 2\n", "{lines}");
    let (lines, disk) = run(rt.alloc(), COUNTS[2], disk)?;
    assert!(rt; lines.as_str() == "n 3\n", "{lines}");
    let (lines, _) = run(rt.alloc(), COUNTS[3], disk)?;
    assert!(rt; lines.as_str() == "o 2\n", "{lines}");
    Ok(())
}

#[test]
fn a_sink_that_fails_leaves_the_copy(rt: HostRuntime) -> Result<(), Fail> {
    let disk = image_of_a_run(rt.alloc())?;
    let (outcome, _) = copied_into(rt.alloc(), 9, disk, "a", "b")?;
    assert!(rt; outcome.status.number() == 7);
    let (_, sink) = copied(rt.alloc(), outcome.disk, "a", "b")?;
    assert!(rt; sink.held() == b"fault 3 4 b\n".as_slice());
    Ok(())
}

#[test]
fn an_empty_image_has_nothing_to_copy(rt: HostRuntime) -> Result<(), Fail> {
    let (outcome, sink) = copied(rt.alloc(), empty_image(rt.alloc(), &[])?, "a", "b")?;
    assert!(rt; matches!(outcome.status, Status::Script(_)));
    assert!(rt; outcome.history.is_empty() && outcome.marks.is_empty());
    assert!(rt; sink.held() == b"fault 3 5 a\n".as_slice());
    Ok(())
}

#[test]
fn a_disk_without_an_image_is_told(rt: HostRuntime) -> Result<(), Fail> {
    let disk = MemoryDisk::new(rt.alloc(), 2600, 10, Vec::new(rt.alloc()))?;
    let (outcome, sink) = copied(rt.alloc(), disk, "a", "b")?;
    assert!(rt; outcome.status.number() == 4);
    assert!(rt; sink.held() == b"fault 4 0 0\n".as_slice());
    Ok(())
}

#[test]
fn a_call_that_fails_is_told(rt: HostRuntime) -> Result<(), Fail> {
    // The sync of the opening, and the first read behind it.
    for failing in 11..=12 {
        let (outcome, sink) = copied(rt.alloc(), empty_image(rt.alloc(), &[failing])?, "a", "b")?;
        assert!(rt; outcome.status.number() == 5);
        assert!(rt; sink.held() == b"fault 5 disk\n".as_slice());
    }
    Ok(())
}
