//! Commands on disks, sources and sinks in memory, with the program's managers.
ghost use Rattle.std.specs.Prelude.{◌≡◌, [], IfOk, length, replicate};
ghost use Rattle.edge_disk.specs.Kept.{IsTorn};
ghost use Rattle.edge_disk.specs.MemoryDisk.{StartsWith, moments_of, reading_of, room_of, stood_at};

use command_outcomes::Outcome;
use edge_disk::{MemoryDisk, Torn};
use edge_managers::{CountedWords, EveryVersions, Policy, Supplier};
use edge_streams::{MemorySink, MemorySource};
use hopper_clients::{StepGate, has_workers, hopper_counted, serve};
use std::alloc::{AllocError, Global};
use std::sync::Wait;
use std::test::Fail;
use std::thread::Threads;

/// Calls that `format` makes of a disk, all of them writes and syncs.
pub const FORMAT_CALLS: u64 = 10;

/// How many bytes a call may put.
const MOST_PUT: u32 = 262_144;

/// How many writes and syncs a disk keeps where nothing else is said; those beyond fail.
const KEPT_CALLS: u32 = 3000;

// The words of a command.
fn given(alloc: Global, words: &[&str]) -> Result<Vec<String>, AllocError> {
    let mut given = Vec::new(alloc);
    for word in words {
        given.push(String::from_str(alloc, word)?)?;
    }
    Ok(given)
}

// What a sink holds, as text.
fn text_of(alloc: Global, sink: &MemorySink) -> Result<String, Fail> {
    let held = std::str::from_utf8(sink.held()).ok().ok_or("text")?;
    Ok(String::from_str(alloc, held)?)
}

/// Calls `serve` with the program's managers: words count up from the tag, and a snapshot is wished every so many versions. No word may be `--workers`.
fn call(
    alloc: Global,
    words: &[&str],
    source: &mut MemorySource,
    sink: &mut MemorySink,
    disk: MemoryDisk,
) -> Result<Outcome<MemoryDisk>, Fail>
    ensures { IfOk result (λ outcome. length (reading_of outcome.disk) ≡ length (reading_of disk)) }
{
    let words = given(alloc, words)?;
    if has_workers(&words) {
        return Err("words for threads".into());
    }
    let supply = |tag, page, place| CountedWords.word(tag, page, place);
    let policy = |every, since| EveryVersions.wish(every, since);
    Ok(serve(alloc, &words, source, sink, disk, &supply, &policy))
}

/// A disk of zero blocks with room for 3,000 writes and syncs, whose calls with these numbers fail.
pub fn disk_of(alloc: Global, blocks: u32, fails: &[u64]) -> Result<MemoryDisk, AllocError>
    ensures { IfOk result (StartsWith (replicate blocks (replicate 1024 0)) KEPT_CALLS fails.now) }
{
    MemoryDisk::new(alloc, blocks, KEPT_CALLS, fails.to_vec(alloc)?)
}

/// What a command puts, and what it leaves, where these takes of the source and puts of the sink fail.
pub fn put_failing(
    alloc: Global,
    words: &[&str],
    text: &[u8],
    fails: (&[u64], &[u64]),
    disk: MemoryDisk,
) -> Result<(String, Outcome<MemoryDisk>), Fail>
    ensures { IfOk result (λ called. length (reading_of called.1.disk) ≡ length (reading_of disk)) }
{
    let (takes, puts) = fails;
    let mut source = MemorySource::new(text.to_vec(alloc)?, takes.to_vec(alloc)?);
    let mut sink = MemorySink::new(alloc, MOST_PUT, puts.to_vec(alloc)?)?;
    let outcome = call(alloc, words, &mut source, &mut sink, disk)?;
    Ok((text_of(alloc, &sink)?, outcome))
}

/// What a command puts, and what it leaves, where these puts of the sink fail: by `hopper_counted`, so that words with `--workers` start threads, of whose steps the
/// gate is told.
pub fn put_on_threads<R: Threads + Wait + Sync, G: StepGate + Sync>(
    rt: &R,
    alloc: Global,
    words: &[&str],
    text: &[u8],
    puts: &[u64],
    disk: MemoryDisk,
    gate: &G,
) -> Result<(String, Outcome<MemoryDisk>), Fail> {
    let words = given(alloc, words)?;
    let mut source = MemorySource::new(text.to_vec(alloc)?, Vec::new(alloc));
    let mut sink = MemorySink::new(alloc, MOST_PUT, puts.to_vec(alloc)?)?;
    let outcome = hopper_counted(rt, alloc, &words, &mut source, &mut sink, disk, gate);
    Ok((text_of(alloc, &sink)?, outcome))
}

/// What a command puts, and what it leaves.
pub fn put(
    alloc: Global,
    words: &[&str],
    text: &[u8],
    disk: MemoryDisk,
) -> Result<(String, Outcome<MemoryDisk>), Fail>
    ensures { IfOk result (λ called. length (reading_of called.1.disk) ≡ length (reading_of disk)) }
{
    put_failing(alloc, words, text, (&[], &[]), disk)
}

/// A disk with an empty image on all of its blocks, and with room for so many writes and syncs.
pub fn formatted_with(alloc: Global, blocks: u32, room: u32) -> Result<MemoryDisk, Fail>
    ensures { IfOk result (λ disk. length (reading_of disk) ≡ blocks) }
{
    let disk = MemoryDisk::new(alloc, blocks, room, Vec::new(alloc))?;
    let number = format!(in alloc; "{blocks}")?;
    let (_, outcome) = put(alloc, &["format", number.as_str()], b"", disk)?;
    Ok(outcome.disk)
}

/// A disk of 4,096 blocks with an empty image on all of them.
pub fn formatted(alloc: Global, fails: &[u64]) -> Result<MemoryDisk, Fail>
    ensures { IfOk result (λ disk. length (reading_of disk) ≡ 4096) }
{
    let disk = disk_of(alloc, 4096, fails)?;
    let (_, outcome) = put(alloc, &["format", "4096"], b"", disk)?;
    Ok(outcome.disk)
}

/// A disk of 2,700 blocks with an empty image on 2,600 of them.
pub fn small(alloc: Global, fails: &[u64]) -> Result<MemoryDisk, Fail>
    ensures { IfOk result (λ disk. length (reading_of disk) ≡ 2700) }
{
    let disk = disk_of(alloc, 2700, fails)?;
    let (_, outcome) = put(alloc, &["format", "2600"], b"", disk)?;
    Ok(outcome.disk)
}

/// A run on an empty image.
pub fn run(alloc: Global, script: &[u8]) -> Result<(String, Outcome<MemoryDisk>), Fail>
    ensures { IfOk result (λ called. length (reading_of called.1.disk) ≡ 4096) }
{
    put(alloc, &["run"], script, formatted(alloc, &[])?)
}

/// What the image of a disk shows, if it is one.
pub fn shown(alloc: Global, disk: MemoryDisk) -> Result<String, Fail> {
    let (text, outcome) = put(alloc, &["show"], b"", disk)?;
    if outcome.status.number() != 0 {
        return Err(Fail::from("an image"));
    }
    Ok(text)
}

/// A disk with the same blocks, if none of them is pending.
pub fn copy_of(disk: &MemoryDisk) -> Result<MemoryDisk, AllocError>
    ensures torn { IfOk result (λ copy. IsTorn Torn.New (stood_at disk.now (moments_of disk.now)) (reading_of copy)) }
    ensures starts { IfOk result (λ copy. StartsWith (reading_of copy) (room_of disk.now) [] copy) }
{
    disk.crash(disk.moments(), Torn::New)
}
