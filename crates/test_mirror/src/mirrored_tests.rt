//! A run on one disk in memory, and its standby on another: whole, with losses, and with calls of either disk that fail.
ghost use Rattle.std.specs.Prelude.{◌<◌, ◌≤◌};

use base_types::{Entry, Event};
use command_mirror::{MirrorOutcome, mirror};
use command_show::show_image;
use edge_disk::{MemoryDisk, Torn};
use edge_managers::{CountedWords, EveryVersions, Policy, Supplier};
use edge_streams::{MemorySink, MemorySource};
use image_format::{FormatFault, format};
use std::alloc::{AllocError, Global};
use std::test::Fail;

// A word is stored, and container and locus are snapped behind it.
const STORES: &str =
    "program.p = ['set r0 5', 'store r1 r0', 'halt', 'set r0 9', 'store r1 r0', 'halt']
container = [{ name = 'a', pages = 1, every = 1, program = 'p' }]
locus = [{ name = 'l', host = 'a', every = 2 }]
";

// What is shown behind it.
const STORED: &str = "container a 1 0 1 -
word a 0 5
locus l a 2 running 2 5 0 0 0 0 0 0 0
";

// And behind the births alone.
const BORN: &str = "container a 1 0 1 -
locus l a 0 running 2 0 0 0 0 0 0 0 0
";

// Eight steps make no record, the ninth stores a word and makes two, and the tenth halts. Nothing is wished for before that.
const WAITS: &str =
    "program.p = ['set r0 5', 'set r0 5', 'set r0 5', 'set r0 5', 'set r0 5', 'set r0 5', 'set r0 5', 'set r0 5', 'store r1 r0', 'halt']
container = [{ name = 'a', pages = 1, every = 1, program = 'p' }]
locus = [{ name = 'l', host = 'a', every = 9 }]
";

// Stores a word, loads it and prints it.
const PRINTS: &str = "program.p = ['set r0 5', 'store r1 r0', 'load r2 r1', 'print r2', 'halt']
container = [{ name = 'a', pages = 1, program = 'p' }]
locus = [{ name = 'l', host = 'a' }]
";

// Brings a supplier of its own.
const MANAGED: &str = "supply = ['7 p']
program.p = ['halt']
container = [{ name = 'a', pages = 1, program = 'p' }]
";

// A disk of so many blocks with the empty image, of which these calls fail; the first ten format it.
fn formatted_with(alloc: Global, blocks: u32, fails: &[u64]) -> Result<MemoryDisk, Fail>
    requires { (2600 ≤ blocks) × (blocks ≤ 65536) }
{
    let disk = MemoryDisk::new(alloc, blocks, 300, fails.to_vec(alloc)?)?;
    match format(disk, blocks) {
        Ok(disk) => Ok(disk),
        Err(FormatFault { .. }) => Err(AllocError.into()),
    }
}

fn formatted(alloc: Global, fails: &[u64]) -> Result<MemoryDisk, Fail> {
    formatted_with(alloc, 2600, fails)
}

// A mirrored run: what was put, and what is left.
fn mirrored(
    alloc: Global,
    script: &str,
    (seed, loss): (u64, u8),
    first: MemoryDisk,
    second: MemoryDisk,
) -> Result<(String, MirrorOutcome<MemoryDisk, MemoryDisk>), Fail> {
    let mut source = MemorySource::new(script.as_bytes().to_vec(alloc)?, Vec::new(alloc));
    let mut sink = MemorySink::new(alloc, 400, Vec::new(alloc))?;
    let words = |tag, page, place| CountedWords.word(tag, page, place);
    let wishes = |every, since| EveryVersions.wish(every, since);
    let outcome = mirror(
        alloc,
        seed,
        loss,
        &mut source,
        &mut sink,
        first,
        second,
        &words,
        &wishes,
    );
    let held = std::str::from_utf8(sink.held()).ok().ok_or("text")?;
    Ok((String::from_str(alloc, held)?, outcome))
}

// What is shown of an image.
fn shown(alloc: Global, disk: MemoryDisk) -> Result<String, Fail> {
    let mut sink = MemorySink::new(alloc, 400, Vec::new(alloc))?;
    let words = |tag, page, place| CountedWords.word(tag, page, place);
    let _ = show_image(alloc, &mut sink, disk, &words);
    let held = std::str::from_utf8(sink.held()).ok().ok_or("text")?;
    Ok(String::from_str(alloc, held)?)
}

#[test]
fn a_standby_has_all_that_the_first_node_made(rt: HostRuntime) -> Result<(), Fail> {
    let alloc = rt.alloc();
    let (lines, left) = mirrored(
        alloc,
        STORES,
        (1, 0),
        formatted_with(alloc, 4096, &[])?,
        formatted_with(alloc, 4096, &[])?,
    )?;
    assert!(rt; lines.as_str() == "mirror 5 of 5\n");
    assert!(rt; left.status.number() == 0);
    assert!(rt; left.kept == 5);
    assert!(rt; left.made == 5);
    assert!(rt; shown(alloc, left.second)?.as_str() == STORED);
    assert!(rt; shown(alloc, left.first)?.as_str() == STORED);
    Ok(())
}

#[test]
fn a_run_goes_on_from_the_standby(rt: HostRuntime) -> Result<(), Fail> {
    let alloc = rt.alloc();
    let (_, left) = mirrored(
        alloc,
        STORES,
        (1, 30),
        formatted(alloc, &[])?,
        formatted(alloc, &[])?,
    )?;
    // its records are offered to the next standby, with those of the second run
    let (_, again) = mirrored(alloc, STORES, (2, 30), left.second, formatted(alloc, &[])?)?;
    assert!(rt; again.status.number() == 0);
    assert!(rt; again.made >= 3);
    assert!(rt; again.kept == again.made);
    let first = shown(alloc, again.first)?;
    assert!(rt; shown(alloc, again.second)?.as_str() == first.as_str());
    Ok(())
}

#[test]
fn a_standby_with_records_is_refused(rt: HostRuntime) -> Result<(), Fail> {
    let alloc = rt.alloc();
    let (lines, used) = mirrored(
        alloc,
        PRINTS,
        (1, 0),
        formatted_with(alloc, 4096, &[])?,
        formatted_with(alloc, 4096, &[])?,
    )?;
    assert!(rt; lines.as_str() == "l 5\nmirror 3 of 3\n");
    let unused = formatted_with(alloc, 4096, &[])?;
    let (lines, left) = mirrored(alloc, PRINTS, (1, 0), unused, used.first)?;
    assert!(rt; lines.as_str() == "fault 11 3\n");
    assert!(rt; left.status.number() == 11);
    assert!(rt; left.history.is_empty());
    Ok(())
}

#[test]
fn images_are_opened_in_their_order(rt: HostRuntime) -> Result<(), Fail> {
    let alloc = rt.alloc();
    let blank = MemoryDisk::new(alloc, 2600, 300, Vec::new(alloc))?;
    let (lines, left) = mirrored(alloc, STORES, (1, 0), formatted(alloc, &[])?, blank)?;
    assert!(rt; lines.as_str() == "fault 24 0 0\n");
    assert!(rt; left.status.number() == 24);
    // what was handed in as the second disk is refused as the first one's, too
    let (lines, left) = mirrored(alloc, STORES, (1, 0), left.second, formatted(alloc, &[])?)?;
    assert!(rt; lines.as_str() == "fault 4 0 0\n");
    assert!(rt; left.status.number() == 4);
    Ok(())
}

#[test]
fn a_script_with_managers_is_refused(rt: HostRuntime) -> Result<(), Fail> {
    let alloc = rt.alloc();
    let (lines, left) = mirrored(
        alloc,
        MANAGED,
        (1, 0),
        formatted(alloc, &[])?,
        formatted(alloc, &[])?,
    )?;
    assert!(rt; lines.as_str() == "fault 3 5 supply\n");
    assert!(rt; left.status.number() == 3);
    Ok(())
}

// The generator of the rounds, written out: PCG XSH RR 64/32 on stream 55, seeded as its authors do.
#[derive(Drop)]
struct PlainWords {
    state: u64,
}

const MULTIPLIER: u64 = 6_364_136_223_846_793_005;

const INCREMENT: u64 = 111;

impl PlainWords {
    fn new(seed: u64) -> PlainWords {
        let mut words = PlainWords {
            state: seed.wrapping_add(INCREMENT),
        };
        words.go_on();
        words
    }

    fn go_on(&mut self) {
        self.state = self.state.wrapping_mul(MULTIPLIER).wrapping_add(INCREMENT);
    }

    // The next word modulo a number.
    fn draw(&mut self, below: u32) -> u32
        requires { 0 < below }
    {
        let state = self.state;
        self.go_on();
        let shifted = ((((state >> 18) ^ state) >> 27) & 0xffff_ffff) as u32;
        shifted.rotate_right((state >> 59) as u32) % below
    }
}

// How many a standby has behind rounds, before each of which so many are offered: counted by hand.
fn plain_kept(seed: u64, loss: u32, offers: &[u64]) -> u64 {
    let mut words = PlainWords::new(seed);
    let mut acked: u64 = 0;
    let mut kept: u64 = 0;
    for offered in offers {
        if acked < *offered {
            if words.draw(100) >= loss {
                if kept == acked {
                    kept = kept.saturating_add(1);
                }
                words.draw(8);
            }
            if words.draw(100) >= loss {
                acked = kept;
            }
        }
    }
    kept
}

// How many steps a history has.
fn steps_in(history: &[Entry]) -> usize {
    history
        .iter()
        .filter(|entry| entry.event == Event::Step)
        .count()
}

// What is offered before each round of a run that was stopped by the first disk, or came to its end.
fn offers_of(
    alloc: Global,
    left: &MirrorOutcome<MemoryDisk, MemoryDisk>,
) -> Result<Vec<u64>, Fail> {
    let steps = steps_in(&left.history);
    let whole = left.status.number() == 0;
    let rounds = if whole {
        steps
    } else {
        steps.saturating_sub(1)
    };
    let mut offers = Vec::new(alloc);
    for round in 0..rounds {
        offers.push(if round < 8 { 3 } else { 5 })?;
    }
    if whole {
        for _ in 0..1020 {
            offers.push(5)?;
        }
    }
    Ok(offers)
}

#[test]
fn packets_and_counts_are_lost_as_is_drawn(rt: HostRuntime) -> Result<(), Fail> {
    let alloc = rt.alloc();
    let mut whole = false;
    for call in 11..90u64 {
        let loss: u8 = if call % 2 == 0 { 30 } else { 90 };
        let first = formatted(alloc, &[call])?;
        let (_, left) = mirrored(alloc, WAITS, (call, loss), first, formatted(alloc, &[])?)?;
        let offers = offers_of(alloc, &left)?;
        assert!(rt; left.kept == plain_kept(call, u32::from(loss), &offers));
        // once the call that fails is behind the run, it is whole
        let number = left.status.number();
        assert!(rt; number == 0 || (number == 5 && !whole));
        whole = number == 0;
    }
    assert!(rt; whole);
    Ok(())
}

// How far the state is that is shown: nothing is born, all is as born, or all is stored.
fn stage(text: &str) -> Option<u8> {
    if text.is_empty() {
        return Some(0);
    }
    if text == BORN {
        return Some(1);
    }
    (text == STORED).then_some(2)
}

// How far the state is that a stop at that moment leaves: a cut of the run is one of them.
fn stage_at(alloc: Global, disk: &MemoryDisk, moment: u64, torn: Torn) -> Result<u8, Fail> {
    if moment > disk.moments() {
        return Err(Fail::from("a moment to come"));
    }
    let text = shown(alloc, disk.crash(moment, torn)?)?;
    Ok(stage(text.as_str()).ok_or("no cut of the run")?)
}

#[test]
fn each_failing_call_of_the_second_disk_ends_the_run(rt: HostRuntime) -> Result<(), Fail> {
    let alloc = rt.alloc();
    let mut whole = false;
    for call in 11..70u64 {
        let second = formatted(alloc, &[call])?;
        let (lines, left) = mirrored(alloc, STORES, (call, 30), formatted(alloc, &[])?, second)?;
        let number = left.status.number();
        assert!(rt; number == 0 || (number == 25 && !whole));
        assert!(rt; (number == 25) == (lines.as_str() == "fault 25 disk\n"));
        assert!(rt; left.kept <= left.made);
        let last = left.second.moments();
        stage_at(alloc, &left.second, last, Torn::Old)?;
        whole = number == 0;
    }
    assert!(rt; whole);
    Ok(())
}

#[test]
fn each_stop_leaves_a_cut_that_the_standby_was_sent(rt: HostRuntime) -> Result<(), Fail> {
    let alloc = rt.alloc();
    let (_, left) = mirrored(
        alloc,
        STORES,
        (3, 30),
        formatted(alloc, &[])?,
        formatted(alloc, &[])?,
    )?;
    let mut so_far = 0;
    for moment in 10..=left.second.moments() {
        let old = stage_at(alloc, &left.second, moment, Torn::Old)?;
        // no stop is behind an earlier one, whatever is torn
        assert!(rt; so_far <= old);
        assert!(rt; so_far <= stage_at(alloc, &left.second, moment, Torn::New)?);
        assert!(rt; so_far <= stage_at(alloc, &left.second, moment, Torn::Fill(200))?);
        so_far = old;
    }
    assert!(rt; so_far == 2);
    Ok(())
}
