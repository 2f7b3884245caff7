//! Drills, and the form of their line.
use crate::{formatted_with, put};
use base_types::{Entry, Event};
use command_outcomes::Outcome;
use edge_disk::MemoryDisk;
use std::alloc::Global;
use std::ops::Range;
use std::test::Fail;

// The first drill on a new image of so many blocks.
fn drilled(alloc: Global, blocks: u32) -> Result<(String, Outcome<MemoryDisk>), Fail> {
    put(
        alloc,
        &["drill", "1"],
        b"",
        formatted_with(alloc, blocks, 60_000)?,
    )
}

// How many entries of a history are of this kind, by containers or loci with numbers in a range.
fn count(history: &[Entry], event: Event, actors: Range<u8>) -> usize {
    history
        .iter()
        .filter(|entry| entry.event == event && actors.contains(&entry.actor.number()))
        .count()
}

const NAMES: &[&str] = &["entries", "prints", "refused", "snaps", "stables", "sum"];

// Whether the text is a number without leading zeros.
fn is_number(text: &str) -> bool {
    text == "0"
        || (!text.is_empty() && !text.starts_with("0") && text.bytes().all(|b| b.is_ascii_digit()))
}

// What isn't as a summary has it: names and numbers in turn, single blanks between them, and a line feed at the end.
fn wrong_form(line: &str) -> &'static str {
    let Some(text) = line.strip_suffix("\n") else {
        return "no line";
    };
    for (place, word) in text.split(' ').enumerate() {
        if place >= 12 {
            return "more words";
        }
        if place % 2 == 0 && NAMES[place / 2] != word {
            return "another name";
        }
        if place % 2 == 1 && !is_number(word) {
            return "no number";
        }
    }
    if text.split(' ').count() < 12 {
        return "fewer words";
    }
    ""
}

#[test]
fn a_drill_puts_its_summary(rt: HostRuntime) -> Result<(), Fail> {
    let (line, first) = drilled(rt.alloc(), 8192)?;
    assert!(rt; first.status.number() == 0);
    assert!(rt; wrong_form(line.as_str()) == "", "in {line}");
    let front = format!(in rt.alloc(); "entries {} ", first.history.len())?;
    assert!(rt; line.starts_with(front.as_str()));
    // Twelve containers and six loci, and at most 5,000 steps of each locus.
    assert!(rt; count(&first.history, Event::Birth, 1..13) == 12);
    assert!(rt; count(&first.history, Event::Birth, 41..47) == 6);
    assert!(rt; count(&first.history, Event::Birth, 0..64) == 18);
    assert!(rt; count(&first.history, Event::Step, 41..47) <= 30_000);
    assert!(rt; count(&first.history, Event::Step, 0..41) == 0);
    for &blocks in &[8192, 16_384, 16_384] {
        let (again, second) = drilled(rt.alloc(), blocks)?;
        assert!(rt; second.status.number() == 0);
        assert!(rt; again.as_str() == line.as_str(), "{again}");
    }
    Ok(())
}
