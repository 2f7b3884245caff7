//! The sentences.
ghost use Rattle.std.specs.Prelude.{◌≡◌, ◌≤◌, ◌++◌, OnErr};
ghost use Rattle.edge_disk.specs.Counts.{Rose};
ghost use Rattle.edge_streams.specs.Streams.{Puts};
ghost use Rattle.command_outcomes.specs.Faults.{line};
ghost use Rattle.line_sentences.specs.Sentences.{blocks_text, is_of_program, misspelling, place_text, reason, sentence, subject, trace_text, unopened};

use arrayvec::ArrayString;
use command_outcomes::Status;
use edge_disk::NoBlocks;
use edge_streams::{Sink, SinkFault};
use itoa::Buffer;
use script_types::{Refusal, Why};

/// A length that no text of two numbers exceeds.
const NUMBERS_TEXT: usize = 64;

/// The sentence on words that are no command's.
const USAGE: &[u8] =
    b"usage: hopper_program IMAGE COMMAND; a command is format N, with N from 2600 to 65536 blocks, run, run --trace, run --workers N with N from 1 to 16, mirror STANDBY SEED LOSS, drill N, show, report, copy NAME NEW or check-trace; run and mirror read a script from standard input, and check-trace a script, a line --- and a trace (docs/SCRIPTS.md)\n";

/// The sentence on a fault of the disk.
const DISK_FAULT: &[u8] =
    b"disk fault: the image's file could not be read, written or synced; its disk may be full or gone, and when that is mended the command can be given again\n";

/// The sentence on a fault of the source.
const SOURCE_FAULT: &[u8] =
    b"source fault: standard input could not be read, and nothing was run; give the command again\n";

/// The sentence on a fault of the sink.
const SINK_FAULT: &[u8] =
    b"output fault: standard output did not take all lines; what the command did to the image stands\n";

/// The sentence where memory ran out.
const NO_MEMORY: &[u8] =
    b"out of memory: nothing was run, and the image means what it meant; or a run by workers was stopped where it was, and what was made stable stays; a script with fewer steps takes less (docs/SCRIPTS.md)\n";

/// What a refusal of a script or of a copy speaks of: its key, or the script as a whole.
fn subject(refusal: &Refusal) -> &str
    ensures { result.now ≡ subject refusal.now }
{
    match refusal.why {
        Why::NotToml | Why::Long => "it",
        _ => refusal.key.as_str(),
    }
}

/// Whether a key is that of a line of a program.
fn is_of_program(key: &str) -> bool
    ensures { result ≡ is_of_program key.now }
{
    key.as_bytes().starts_with(b"program.")
}

/// What is spelled wrong there.
fn misspelling(key: &str) -> &'static str
    ensures { result.now ≡ misspelling key.now }
{
    if is_of_program(key) {
        " is no instruction (docs/SCRIPTS.md)"
    } else {
        " is no region or capability (docs/SCRIPTS.md)"
    }
}

/// What is wrong there.
fn reason(refusal: &Refusal) -> &'static str
    ensures { result.now ≡ reason refusal.now }
{
    match refusal.why {
        Why::NotToml => " is no TOML in UTF-8 (docs/SCRIPTS.md)",
        Why::Missing => " is missing (docs/SCRIPTS.md)",
        Why::Kind => " is a value of another kind than it has to be (docs/SCRIPTS.md)",
        Why::Name => " is no name, or a name that is taken (docs/SCRIPTS.md)",
        Why::Unknown => " is no key of a script, or names what is not there (docs/SCRIPTS.md)",
        Why::Range => " is out of its range (docs/SCRIPTS.md)",
        Why::TooMany => " has too many items (docs/SCRIPTS.md)",
        Why::BadCode => misspelling(refusal.key.as_str()),
        Why::Long => " has more than 1048576 bytes (docs/SCRIPTS.md)",
        Why::NoRoom => ": the image has no number left for one more (docs/SCRIPTS.md)",
        Why::Clash => " is the name of another kind of entity in the image (docs/SCRIPTS.md)",
    }
}

/// A place of the image.
fn place_text(block: u32, place: u16) -> ArrayString<NUMBERS_TEXT>
    ensures { result.bytes ≡ place_text block place }
{
    let mut digits = Buffer::new();
    let mut text = ArrayString::new();
    text.push_str("byte ");
    text.push_str(digits.format(place));
    text.push_str(" of block ");
    text.push_str(digits.format(block));
    text
}

/// How many blocks are needed, and how many there are.
fn blocks_text(blocks: NoBlocks) -> ArrayString<NUMBERS_TEXT>
    ensures { result.bytes ≡ blocks_text blocks }
{
    let mut digits = Buffer::new();
    let mut text = ArrayString::new();
    text.push_str(digits.format(blocks.need));
    text.push_str(" are needed and ");
    text.push_str(digits.format(blocks.free));
    text.push_str(" are free");
    text
}

/// A line of a trace.
fn trace_text(number: u64) -> ArrayString<NUMBERS_TEXT>
    ensures { result.bytes ≡ trace_text number }
{
    let mut digits = Buffer::new();
    let mut text = ArrayString::new();
    text.push_str("line ");
    text.push_str(digits.format(number));
    text
}

/// Puts a line in three pieces.
#[tactic(auto, using(edge_streams::proofs::Streams::puts))]
fn put_line<W: Sink>(sink: &mut W, front: &str, middle: &str, rest: &str) -> Result<(), SinkFault>
    ensures bytes { Puts (W.held sink.old) (W.held sink.new) result (line (front.now ++ middle.now ++ rest.now)) }
    ensures count { W.faults sink.old ≤ W.faults sink.new }
    ensures cause { OnErr result (Rose (W.faults sink.old) (W.faults sink.new)) }
{
    sink.put(front.as_bytes())?;
    sink.put(middle.as_bytes())?;
    sink.put(rest.as_bytes())?;
    sink.put(b"\n")?;
    Ok(())
}

/// Puts the sentence on a status: what was refused or failed, where, and what to do. Nothing for `Done`.
///
/// After a fault of the sink a front of the sentence was put.
pub fn put_sentence<W: Sink>(sink: &mut W, status: &Status) -> Result<(), SinkFault>
    ensures bytes { Puts (W.held sink.old) (W.held sink.new) result (sentence status.now) }
    ensures count { W.faults sink.old ≤ W.faults sink.new }
    ensures cause { OnErr result (Rose (W.faults sink.old) (W.faults sink.new)) }
{
    match status {
        Status::Done => Ok(()),
        Status::Usage => sink.put(USAGE),
        Status::Script(refusal) => put_line(sink, "refused: ", subject(refusal), reason(refusal)),
        Status::Foreign { block, place } => put_line(
            sink,
            "image refused: ",
            place_text(*block, *place).as_str(),
            " is not as in an image; name another file, or make an empty image by format N (docs/IMAGE.md)",
        ),
        Status::DiskFault => sink.put(DISK_FAULT),
        Status::SourceFault => sink.put(SOURCE_FAULT),
        Status::SinkFault => sink.put(SINK_FAULT),
        Status::Memory => sink.put(NO_MEMORY),
        Status::BlocksFull(blocks) => put_line(
            sink,
            "too few blocks: ",
            blocks_text(*blocks).as_str(),
            "; what was made stable stays, and format N makes a larger image, an empty one",
        ),
        Status::TraceWrong { line, .. } => put_line(
            sink,
            "trace refused: ",
            trace_text(*line).as_str(),
            " is that of no entry that may come next in a run of the script; the output tells the birth or step that it may have been (docs/OUTPUT.md)",
        ),
    }
}

/// Puts the sentence on a file that can't be opened or made.
pub fn put_unopened<W: Sink>(sink: &mut W, path: &str) -> Result<(), SinkFault>
    ensures bytes { Puts (W.held sink.old) (W.held sink.new) result (unopened path.now) }
    ensures count { W.faults sink.old ≤ W.faults sink.new }
    ensures cause { OnErr result (Rose (W.faults sink.old) (W.faults sink.new)) }
{
    put_line(
        sink,
        "disk fault: ",
        path,
        " can't be opened or made as a file to read and write",
    )
}
