// Commands on a disk in memory.
ghost use Rattle.std.specs.Prelude.{◌≡◌, [], ◌∷◌, IfOk, codes, false, map, string_bytes};
ghost use Rattle.command_words.specs.Commands.{IsCommand};
ghost use Rattle.command_words.specs.declared.Command.{Command};
ghost use Rattle.hopper_clients.specs.Calls.{IsCalled, IsToldOf, new_sink, new_source};
ghost use Rattle.hopper_clients.specs.Images.{HasNewImage};
ghost use Rattle.hopper_top.specs.Leaving.{names_workers};

use command_outcomes::{Outcome, Status};
use edge_disk::MemoryDisk;
use edge_managers::{CountedWords, EveryVersions, Policy, Supplier};
use edge_streams::{MemorySink, MemorySource};
use hopper_top::{OpenGate, hopper_counted, serve};
use std::alloc::{AllocError, Global};
use std::sync::Wait;
use std::thread::Threads;

/// How many blocks the disk has, all of which the image takes.
const BLOCKS: u32 = 4096;

/// How many writes and syncs the disk keeps; those beyond fail.
const ROOM: u32 = 4096;

/// How many bytes a call may put.
const TEXT: u32 = 65_536;

/// How a command ended, and the text that it put.
#[derive(Drop)]
pub struct Called {
    pub outcome: Outcome<MemoryDisk>,
    pub text: Vec<u8>,
    /// The source and the sink as the command left them.
    pub source: MemorySource,
    pub sink: MemorySink,
}

/// The words of a command that has one.
pub fn one_word(alloc: Global, word: &str) -> Result<Vec<String>, AllocError>
    ensures { IfOk result (λ words. map string_bytes words.items ≡ word.now ∷ []) }
{
    Ok(vec![in alloc; String::from_str(alloc, word)?]?)
}

/// The words of a command that has two.
pub fn two_words(alloc: Global, first: &str, second: &str) -> Result<Vec<String>, AllocError>
    ensures { IfOk result (λ words. map string_bytes words.items ≡ first.now ∷ second.now ∷ []) }
{
    Ok(vec![in alloc;
        String::from_str(alloc, first)?,
        String::from_str(alloc, second)?,
    ]?)
}

/// The words of a run by so many workers, as the digits say.
pub fn run_words(alloc: Global, workers: &str) -> Result<Vec<String>, AllocError>
    ensures { IfOk result (λ words. map string_bytes words.items ≡ codes "run" ∷ codes "--workers" ∷ workers.now ∷ []) }
{
    Ok(vec![in alloc;
        String::from_str(alloc, "run")?,
        String::from_str(alloc, "--workers")?,
        String::from_str(alloc, workers)?,
    ]?)
}

/// The words of a traced run by so many workers, as the digits say.
pub fn traced_words(alloc: Global, workers: &str) -> Result<Vec<String>, AllocError>
    ensures { IfOk result (λ words. map string_bytes words.items ≡ codes "run" ∷ codes "--trace" ∷ codes "--workers" ∷ workers.now ∷ []) }
{
    Ok(vec![in alloc;
        String::from_str(alloc, "run")?,
        String::from_str(alloc, "--trace")?,
        String::from_str(alloc, "--workers")?,
        String::from_str(alloc, workers)?,
    ]?)
}

/// A source with this text, and a sink.
fn new_streams(alloc: Global, text: &[u8]) -> Result<(MemorySource, MemorySink), AllocError>
    ensures { IfOk result (λ streams. (streams.0 ≡ new_source text.now) × (streams.1 ≡ new_sink)) }
{
    let source = MemorySource::new(text.to_vec(alloc)?, Vec::new(alloc));
    let sink = MemorySink::new(alloc, TEXT, Vec::new(alloc))?;
    Ok((source, sink))
}

/// How a command ended that left these, with the text that the sink holds.
fn called_by(
    alloc: Global,
    outcome: Outcome<MemoryDisk>,
    source: MemorySource,
    sink: MemorySink,
) -> Result<Called, AllocError>
    ensures { IfOk result (λ called. IsToldOf outcome source sink called) }
{
    let put = sink.held().to_vec(alloc)?;
    Ok(Called {
        outcome,
        text: put,
        source,
        sink,
    })
}

/// Carries out a command on a disk, with a text as its source, and with the managers that the program has. No word is `--workers`.
pub fn call(
    alloc: Global,
    words: &[String],
    text: &[u8],
    disk: MemoryDisk,
) -> Result<Called, AllocError>
    requires { names_workers (map string_bytes words.now) ≡ false }
    ensures { IfOk result (λ called. (c : Command) → IsCommand (map string_bytes words.now) c → IsCalled c text.now disk called) }
{
    let (mut source, mut sink) = new_streams(alloc, text)?;
    let outcome = serve(
        alloc,
        words,
        &mut source,
        &mut sink,
        disk,
        &|tag, page, place| CountedWords.word(tag, page, place),
        &|every, since| EveryVersions.wish(every, since),
    );
    called_by(alloc, outcome, source, sink)
}

/// As `call`, for any words: with `--workers` it starts threads, and may wait.
pub fn call_on_threads<R: Threads + Wait + Sync>(
    rt: &R,
    alloc: Global,
    words: &[String],
    text: &[u8],
    disk: MemoryDisk,
) -> Result<Called, AllocError>
    ensures { IfOk result (λ called. (c : Command) → IsCommand (map string_bytes words.now) c → IsCalled c text.now disk called) }
{
    let (mut source, mut sink) = new_streams(alloc, text)?;
    let outcome = hopper_counted(rt, alloc, words, &mut source, &mut sink, disk, &OpenGate);
    called_by(alloc, outcome, source, sink)
}

/// Makes an image on a new disk of 4,096 blocks, which keeps 4,096 writes and syncs.
pub fn new_image(alloc: Global) -> Result<Called, AllocError>
    ensures { IfOk result (λ called. called.outcome.status ≡ Status.Done → HasNewImage called.outcome.disk) }
{
    let new = MemoryDisk::new(alloc, BLOCKS, ROOM, Vec::new(alloc))?;
    call(
        alloc,
        &two_words(alloc, "format", "4096")?,
        "".as_bytes(),
        new,
    )
}
