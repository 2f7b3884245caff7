//! Traces checked on an empty image: worked ones, sources that are refused, and calls that fail.
use command_check_trace::check_trace;
use command_outcomes::{Outcome, Status};
use edge_disk::{Disk, DiskFault, MemoryDisk};
use edge_managers::{CountedWords, EveryVersions, Policy, Supplier};
use edge_streams::{MemorySink, MemorySource};
use image_blocks::{header_block, open_gate, superblock};
use std::alloc::Global;
use std::test::Fail;

// Writes a block, where there is one.
fn put(disk: &mut MemoryDisk, at: u32, block: &[u8; 1024]) -> Result<(), DiskFault> {
    if at >= disk.blocks() {
        return Err(DiskFault);
    }
    disk.write(at, block)
}

// A disk of 2,600 blocks with an image that has no record, made by the calls 1 to 3.
fn image(alloc: Global, fails: &[u64]) -> Result<MemoryDisk, Fail> {
    let mut disk = MemoryDisk::new(alloc, 2600, 40, fails.to_vec(alloc)?)?;
    put(&mut disk, 0, &superblock(2600))?;
    put(&mut disk, 1, &header_block(1))?;
    put(&mut disk, 2, &open_gate())?;
    Ok(disk)
}

// Checks what the source holds, where these of its takes fail: how that ended, and the line.
fn checked(
    alloc: Global,
    source: &str,
    fails: &[u64],
    disk: MemoryDisk,
) -> Result<(Outcome<MemoryDisk>, String), Fail> {
    let mut source = MemorySource::new(source.as_bytes().to_vec(alloc)?, fails.to_vec(alloc)?);
    let mut sink = MemorySink::new(alloc, 200, Vec::new(alloc))?;
    let words = |tag, page, place| CountedWords.word(tag, page, place);
    let wishes = |every, since| EveryVersions.wish(every, since);
    let outcome = check_trace(alloc, &mut source, &mut sink, disk, &words, &wishes);
    let held = std::str::from_utf8(sink.held()).ok().ok_or("text")?;
    Ok((outcome, String::from_str(alloc, held)?))
}

// The line that is told of a source on an empty image.
fn told(alloc: Global, source: &str) -> Result<String, Fail> {
    let (_, line) = checked(alloc, source, &[], image(alloc, &[])?)?;
    Ok(line)
}

const STORED: &str = "program.p = ['set r0 5', 'store r1 r0', 'load r2 r1', 'print r2', 'halt']
container = [{ name = 'a', pages = 1, program = 'p' }]
locus = [{ name = 'l', host = 'a' }]
";

const STORED_TRACE: &str = "birth a atlas:1,a:1
birth l atlas:2,a:2,l:1
stable atlas
step l l:2 quiet
step l a:3,l:3 reply 0
step l a=3,l:4 read 5
step l l:5 print 5
step l l:6 quiet
";

#[test]
fn a_run_s_trace_is_accepted(rt: HostRuntime) -> Result<(), Fail> {
    let alloc = rt.alloc();
    let source = format!(in alloc; "{STORED}---\n{STORED_TRACE}")?;
    let (outcome, line) = checked(alloc, source.as_str(), &[], image(alloc, &[])?)?;
    assert!(rt; line.as_str() == "ok 8\n");
    assert!(rt; outcome.status.number() == 0);
    assert!(rt; outcome.history.len() == 0);
    assert!(rt; outcome.disk.moments() == 3);
    Ok(())
}

#[test]
fn one_word_changed_goes_wrong_in_its_line(rt: HostRuntime) -> Result<(), Fail> {
    let alloc = rt.alloc();
    let rows = [
        (
            "read 5",
            "read 6",
            "fault 10 6 want step l a=3,l:4 read 5\n",
        ),
        (
            "reply 0",
            "read 0",
            "fault 10 5 want step l a:3,l:3 reply 0\n",
        ),
        (
            "l:6 quiet\n",
            "l:6 quiet",
            "fault 10 8 want step l l:6 quiet\n",
        ),
        ("stable atlas\n", "", "fault 10 3 want none\n"),
        ("birth a", "birth b", "fault 10 1 want none\n"),
    ];
    for &(old, new, line) in &rows {
        let (front, back) = STORED_TRACE.split_once(old).ok_or("the words")?;
        let source = format!(in alloc; "{STORED}---\n{front}{new}{back}")?;
        assert!(rt; told(alloc, source.as_str())?.as_str() == line);
    }
    let source = format!(in alloc; "{STORED}---\nsnap a 1\n")?;
    let (outcome, _) = checked(alloc, source.as_str(), &[], image(alloc, &[])?)?;
    assert!(rt;
        matches!(
            outcome.status,
            Status::TraceWrong {
                line: 1,
                want: None,
            }
        )
    );
    Ok(())
}

// The script of two stores, with these intervals of the container and the locus, and the births of its trace.
fn twice(alloc: Global, every: u32, locus_every: u32, rest: &str) -> Result<String, Fail> {
    Ok(format!(in alloc;
        "program.p = ['set r0 5', 'store r1 r0', 'halt', 'set r0 9', 'store r1 r0', 'halt']
container = [{{ name = 'a', pages = 1, every = {every}, program = 'p' }}]
locus = [{{ name = 'l', host = 'a', every = {locus_every} }}]
---
birth a atlas:1,a:1
birth l atlas:2,a:2,l:1
stable atlas
step l l:2 quiet
{rest}"
    )?)
}

#[test]
fn a_due_snapshot_stands_behind_its_store(rt: HostRuntime) -> Result<(), Fail> {
    let alloc = rt.alloc();
    let rows = [
        (
            0,
            "step l a:3,l:3 reply 0\nsnap a 3\nstep l l:4 quiet\n",
            "ok 7\n",
        ),
        (0, "step l a:3,l:3 reply 0\nstep l l:4 quiet\n", "ok 6\n"),
        (
            2,
            "step l a:3,l:3 reply 0\nsnap a 3\nsnap l 3\nstep l l:4 quiet\n",
            "ok 8\n",
        ),
        (
            2,
            "snap l 3\nstep l a:3,l:3 reply 0\n",
            "fault 10 5 want none\n",
        ),
        (
            2,
            "step l a:3,l:3 reply 0\nsnap a 3\nstep l l:4 quiet\n",
            "fault 10 7 want none\n",
        ),
        (
            0,
            "step l a:3,l:3 reply 0\ntried a 3\nstep l l:4 quiet\n",
            "fault 10 7 want none\n",
        ),
    ];
    for &(locus_every, rest, line) in &rows {
        let source = twice(alloc, 1, locus_every, rest)?;
        assert!(rt; told(alloc, source.as_str())?.as_str() == line);
    }
    Ok(())
}

const LOADED: &str = "program.p = ['load r2 r1', 'halt']
program.answer = ['set r3 42', 'halt']
container = [{ name = 'a', pages = 1, tag = 7, program = 'p' }]
locus = [{ name = 'l', host = 'a' }]
---
birth a atlas:1,a:1
birth l atlas:2,a:2,l:1
stable atlas
";

#[test]
fn words_are_by_the_script_s_suppliers(rt: HostRuntime) -> Result<(), Fail> {
    let alloc = rt.alloc();
    let rows = [
        ("supply = ['7 answer']", "42", "ok 5\n"),
        (
            "supply = ['7 answer']",
            "7",
            "fault 10 4 want step l a=2,l:2 read 42\n",
        ),
        (
            "supply = ['8 answer']",
            "42",
            "fault 10 4 want step l a=2,l:2 read 7\n",
        ),
        ("", "42", "fault 10 4 want step l a=2,l:2 read 7\n"),
        ("", "7", "ok 5\n"),
    ];
    for &(managers, word, line) in &rows {
        let source = format!(in alloc;
            "{managers}\n{LOADED}step l a=2,l:2 read {word}\nstep l l:3 quiet\n"
        )?;
        assert!(rt;
            told(alloc, source.as_str())?.as_str() == line,
            "at {managers}, {word}"
        );
    }
    Ok(())
}

#[test]
fn snapshots_are_by_the_script_s_policies(rt: HostRuntime) -> Result<(), Fail> {
    let alloc = rt.alloc();
    let source = twice(
        alloc,
        5,
        0,
        "step l a:3,l:3 reply 0\nsnap a 3\nstep l l:4 quiet\n",
    )?;
    let rows = [
        ("policy = ['5 always']", "ok 7\n"),
        ("policy = ['6 always']", "fault 10 6 want none\n"),
        ("", "fault 10 6 want none\n"),
    ];
    for &(managers, line) in &rows {
        let source = format!(in alloc;
            "{managers}\nprogram.always = ['set r3 1', 'halt']\n{source}"
        )?;
        assert!(rt;
            told(alloc, source.as_str())?.as_str() == line,
            "at {managers}"
        );
    }
    Ok(())
}

#[test]
fn sources_are_refused_as_scripts_are(rt: HostRuntime) -> Result<(), Fail> {
    let alloc = rt.alloc();
    let rows = [
        ("", "fault 3 2 ---\n"),
        ("steps = 5\n--- \n", "fault 3 2 ---\n"),
        ("steps = 0\n---\n", "fault 3 6 steps\n"),
        ("---", "ok 0\n"),
        ("---\n", "ok 0\n"),
        ("steps = 5\n---", "ok 0\n"),
        ("---\n---\n", "fault 10 1 want none\n"),
    ];
    for &(source, line) in &rows {
        assert!(rt; told(alloc, source)?.as_str() == line, "at {source}");
    }
    Ok(())
}

#[test]
fn what_stops_first_is_told(rt: HostRuntime) -> Result<(), Fail> {
    let alloc = rt.alloc();
    let (outcome, line) = checked(alloc, "---\n", &[1], image(alloc, &[])?)?;
    assert!(rt; (outcome.status.number(), line.as_str()) == (6, "fault 6 source\n"));
    let (outcome, line) = checked(alloc, "---\n", &[], image(alloc, &[4])?)?;
    assert!(rt; (outcome.status.number(), line.as_str()) == (5, "fault 5 disk\n"));
    let bare = MemoryDisk::new(alloc, 8, 4, Vec::new(alloc))?;
    let (outcome, line) = checked(alloc, "---\n", &[], bare)?;
    assert!(rt; (outcome.status.number(), line.as_str()) == (4, "fault 4 0 0\n"));
    Ok(())
}
