//! What runs print, and their histories.
ghost use Rattle.std.specs.Prelude.{◌≡◌};

use crate::run;
use crate::scripts::{
    ALL_PAGES, CIRCLES, COUNTS_ON, DENIED_OVER_A_MAPPING, FIVE, FULL_CHAIN, INVOKES_WITHOUT_ENTRY,
    NO_SNAP, ORDERED, PAST_THE_PAGE, PRIVATE_FIRST, PRIVATE_IN_ONE_HOST, SNAP, SPAWNS_TO_THE_LAST,
    STOPS_ITSELF, TAGGED, TAKES, UNSTABLE, WISHED, WISHES, all_pages_by,
};
use base_types::{Answer, Entity, Entry, Event, Reply, Touch, Touched};
use command_outcomes::Status;
use std::test::Fail;

// Scripts, what their runs print, and how many entries their histories have.
const RUNS: &[(&[u8], &[u8], usize)] = &[
    (FIVE, b"l 5\n", 8),
    (PAST_THE_PAGE, b"l 3\nl 0\n", 10),
    (b"", b"", 0),
    (TAGGED, b"l 137\n", 7),
    (PRIVATE_FIRST, b"l 1000\nl 2000\nl 1000\n", 19),
    (PRIVATE_IN_ONE_HOST, b"l 2000\nl 3000\nl 2000\n", 17),
    // Each call of `map` writes the atlas, which is wished; the fourth time it has four records already.
    (CIRCLES, b"l 0\nl 0\nl 4\nl 4\n", 21),
    (DENIED_OVER_A_MAPPING, b"l 17\n", 9),
    (INVOKES_WITHOUT_ENTRY, b"l 18\nl 8\n", 10),
    (FULL_CHAIN, b"m 7\nl 6\n", 74),
    (ALL_PAGES, b"l 32896\n", 2824),
    // So does each `spawn`.
    (SPAWNS_TO_THE_LAST, b"l 10\n", 76),
    (STOPS_ITSELF, b"", 4),
    (TAKES, b"l 1\nl 0\nl 1\n", 10),
    (COUNTS_ON, b"", 107),
    (ORDERED, b"m 0\nl 0\n", 8),
    (UNSTABLE, b"l 23\n", 6),
    (NO_SNAP, b"l 21\n", 6),
    (SNAP, b"l 0\n", 7),
    (WISHED, b"", 7),
    (WISHES, b"", 8),
];

#[test]
fn a_run_prints_its_lines_and_ends(rt: HostRuntime) -> Result<(), Fail> {
    for &(text, lines, entries) in RUNS {
        let (put, outcome) = run(rt.alloc(), text)?;
        assert!(rt; put.as_bytes() == lines);
        assert!(rt; matches!(outcome.status, Status::Done));
        assert!(rt; outcome.history.len() == entries);
    }
    Ok(())
}

#[test]
fn frames_change_no_history(rt: HostRuntime) -> Result<(), Fail> {
    let alloc = rt.alloc();
    let (lines, with_few) = run(alloc, &all_pages_by(alloc, b"1")?)?;
    assert!(rt; lines.as_str() == "l 32896\n");
    let (lines, with_many) = run(alloc, &all_pages_by(alloc, b"256")?)?;
    assert!(rt; lines.as_str() == "l 32896\n");
    assert!(rt; with_few.history.as_slice() == with_many.history.as_slice());
    Ok(())
}

/// An entry of version 0, as births, steps and Stable entries are.
fn entry(event: Event, actor: Entity, touched: Touched, answer: Answer) -> Entry {
    Entry {
        event,
        actor,
        touched,
        version: 0,
        answer,
    }
}

fn write(entity: Entity, version: u64) -> Touch
    ensures { result.entity ≡ entity }
{
    Touch {
        version,
        entity,
        wrote: true,
    }
}

fn read(entity: Entity, version: u64) -> Touch
    ensures { result.entity ≡ entity }
{
    Touch {
        version,
        entity,
        wrote: false,
    }
}

fn snap(entity: Entity, version: u64) -> Entry {
    Entry {
        event: Event::Snap,
        actor: entity,
        touched: Touched::none(),
        version,
        answer: Answer::Quiet,
    }
}

// The births of container `a` and of locus `l` in it, and the Stable behind.
fn births() -> [Entry; 3] {
    let (atlas, a, l) = (Entity::ATLAS, Entity::of(1), Entity::of(41));
    let born_a = Touched::two(write(atlas, 1), write(a, 1));
    let born_l = Touched::three(write(atlas, 2), write(a, 2), write(l, 1));
    [
        entry(Event::Birth, a, born_a, Answer::Quiet),
        entry(Event::Birth, l, born_l, Answer::Quiet),
        entry(Event::Stable, atlas, Touched::none(), Answer::Quiet),
    ]
}

// The first two steps of both programs: a register is set, and stored.
fn stores() -> [Entry; 2] {
    let (a, l) = (Entity::of(1), Entity::of(41));
    let stored = Touched::two(write(a, 3), write(l, 3));
    [
        entry(Event::Step, l, Touched::one(write(l, 2)), Answer::Quiet),
        entry(Event::Step, l, stored, Answer::Reply(Reply::Ok)),
    ]
}

// The last three of `FIVE`: what was stored is loaded, and printed, and the locus halts.
fn loads() -> [Entry; 3] {
    let (a, l) = (Entity::of(1), Entity::of(41));
    let loaded = Touched::two(read(a, 3), write(l, 4));
    [
        entry(Event::Step, l, loaded, Answer::Read(5)),
        entry(Event::Step, l, Touched::one(write(l, 5)), Answer::Print(5)),
        entry(Event::Step, l, Touched::one(write(l, 6)), Answer::Quiet),
    ]
}

// The last three of `WISHES`: both are snapped, and the locus halts.
fn snaps() -> [Entry; 3] {
    let (a, l) = (Entity::of(1), Entity::of(41));
    [
        snap(a, 3),
        snap(l, 3),
        entry(Event::Step, l, Touched::one(write(l, 4)), Answer::Quiet),
    ]
}

// Whether a history is that of the births, of the stores, and of this.
fn is_history(history: &[Entry], rest: &[Entry]) -> bool {
    history.len() == 8
        && history.starts_with(&births())
        && history[3..].starts_with(&stores())
        && history.ends_with(rest)
}

#[test]
fn a_history_has_births_a_stable_and_the_steps(rt: HostRuntime) -> Result<(), Fail> {
    let (_, outcome) = run(rt.alloc(), FIVE)?;
    assert!(rt; is_history(&outcome.history, &loads()));
    Ok(())
}

#[test]
fn a_wish_is_met_behind_the_step_that_left_it(rt: HostRuntime) -> Result<(), Fail> {
    let (_, outcome) = run(rt.alloc(), WISHES)?;
    assert!(rt; is_history(&outcome.history, &snaps()));
    Ok(())
}
