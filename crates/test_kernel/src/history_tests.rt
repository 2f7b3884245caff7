//! Histories of whole runs entry by entry, and what an image shows behind them.
use crate::calls::{formatted, opened, reported, run_whole, trace};
use crate::forms::{script_of, with_frames};
use crate::own::Unborn;
use crate::scripts::{
    ALL_PAGES, ALWAYS_STABLE, COUNTS_ON, FIVE, LAST_NUMBER, STORES_AGAIN, STORES_BOTH, STORES_ONCE,
};
use base_types::{Answer, Entity, Entry, Event, Reply};
use cell_plans::Idle;
use image_blocks::Area;
use kernel_core::Stop;
use std::alloc::Global;
use std::test::Fail;
use test_replays::{facts_of, shown};

const BORN: &str = "birth a atlas:1,a:1
birth l atlas:2,a:2,l:1
stable atlas
";

#[test]
fn a_locus_out_of_steps_and_an_absent_one_make_none(rt: HostRuntime) -> Result<(), Fail> {
    let alloc = rt.alloc();
    let script = script_of(alloc, FIVE)?;
    let mut own = opened(alloc, formatted(alloc, 4096, 100, &[])?, &script)?;
    assert!(rt; own.kernel().history().len() == 0);
    assert!(rt; own.kernel().stopped().is_none());
    assert!(rt; own.births(alloc, &script) == Ok(()));
    assert!(rt; own.births(alloc, &script) == Err(Unborn::Unfit));
    let entry = own.step(Entity::of(41)).ok();
    assert!(rt; entry.is_some());
    assert!(rt; entry.as_ref() == own.kernel().history().last());
    assert!(rt; own.step(Entity::of(41)) == Err(Stop::Idle(Idle::Spent)));
    assert!(rt; own.step(Entity::of(63)) == Err(Stop::Idle(Idle::Absent)));
    assert!(rt; own.step(Entity::of(1)) == Err(Stop::Idle(Idle::Absent)));
    assert!(rt; own.finish() == Ok(()));
    let ended = own.into_ended();
    let lines = trace(alloc, &ended.history, &["a"], &["l"])?;
    assert!(rt;
        lines.as_str()
            == "birth a atlas:1,a:1
birth l atlas:2,a:2,l:1
stable atlas
step l l:2 quiet
"
    );
    assert!(rt; ended.marks.len() == 1);
    Ok(())
}

// A run of container `a` and locus `l`: its history in lines, and what the image shows behind it.
fn told(alloc: Global, text: &str) -> Result<(String, String), Fail> {
    let script = script_of(alloc, text)?;
    let mut ended = run_whole(alloc, formatted(alloc, 4096, 100, &[])?, &script)?;
    let lines = trace(alloc, &ended.history, &["a"], &["l"])?;
    let shown = shown(alloc, &facts_of(alloc, &mut ended.disk)?)?;
    Ok((lines, shown))
}

// A snapshot of the container behind the store, and none of the locus.
const ABANDONED: &str = "step l l:2 quiet
step l a:3,l:3 reply 0
snap a 3
step l l:4 quiet
";

const ABANDONED_SHOWN: &str = "container a 1 0 1 -
locus l a 0 running 0 0 0 0 0 0 0 0 0
";

#[test]
fn a_snapshot_that_needs_another_is_not_in_the_cut(rt: HostRuntime) -> Result<(), Fail> {
    let (lines, shown) = told(rt.alloc(), STORES_ONCE)?;
    assert!(rt; lines.as_str().strip_prefix(BORN) == Some(ABANDONED));
    assert!(rt; shown.as_str() == ABANDONED_SHOWN);
    Ok(())
}

const BOTH: &str = "step l l:2 quiet
step l a:3,l:3 reply 0
snap a 3
snap l 3
step l l:4 quiet
";

const BOTH_SHOWN: &str = "container a 1 0 1 -
word a 0 5
locus l a 2 running 2 5 0 0 0 0 0 0 0
";

#[test]
fn both_snapshots_are_in_the_cut(rt: HostRuntime) -> Result<(), Fail> {
    let (lines, shown) = told(rt.alloc(), STORES_BOTH)?;
    assert!(rt; lines.as_str().strip_prefix(BORN) == Some(BOTH));
    assert!(rt; shown.as_str() == BOTH_SHOWN);
    Ok(())
}

#[test]
fn the_abandoned_snapshot_is_not_taken_by_a_second_run(rt: HostRuntime) -> Result<(), Fail> {
    let alloc = rt.alloc();
    let script = script_of(alloc, STORES_ONCE)?;
    let ended = run_whole(alloc, formatted(alloc, 4096, 200, &[])?, &script)?;
    let script = script_of(alloc, STORES_AGAIN)?;
    let mut ended = run_whole(alloc, ended.disk, &script)?;
    let lines = trace(alloc, &ended.history, &["a"], &["l", "m"])?;
    // The snapshots of the second locus and of its container are behind its store; then both run on, the first from its birth.
    assert!(rt;
        lines.as_str().starts_with(
            "birth m atlas:3,a:3,m:1
stable atlas
step m m:2 quiet
step m a:4,m:3 reply 0
snap a 4
snap m 3
step l l:2 quiet
step m m:4 quiet
"
        ),
        "{}",
        lines.as_str()
    );
    let shown = shown(alloc, &facts_of(alloc, &mut ended.disk)?)?;
    assert!(rt;
        shown.as_str()
            == "container a 1 0 1 -
word a 0 9
locus l a 0 running 0 0 0 0 0 0 0 0 0
locus m a 5 running 2 9 0 0 0 0 0 0 0
"
    );
    Ok(())
}

// How many entries have this answer.
fn answers(history: &[Entry], answer: Answer) -> usize {
    history
        .iter()
        .filter(|entry| entry.answer == answer)
        .count()
}

// The history of the sum over all pages with so many frames.
fn summed(alloc: Global, frames: u16) -> Result<Vec<Entry>, Fail> {
    let script = with_frames(script_of(alloc, ALL_PAGES)?, frames);
    let ended = run_whole(alloc, formatted(alloc, 4096, 1000, &[])?, &script)?;
    Ok(ended.history)
}

#[test]
fn one_frame_has_the_history_of_all(rt: HostRuntime) -> Result<(), Fail> {
    let alloc = rt.alloc();
    let history = summed(alloc, 1)?;
    assert!(rt; history == summed(alloc, 256)?);
    // Two births, a Stable, and the steps of the locus.
    assert!(rt; history.len() == 3 + 2821);
    assert!(rt; answers(&history, Answer::Print(32_896)) == 1);
    Ok(())
}

#[test]
fn the_last_number_is_given_and_no_more(rt: HostRuntime) -> Result<(), Fail> {
    let alloc = rt.alloc();
    let script = script_of(alloc, LAST_NUMBER)?;
    let ended = run_whole(alloc, formatted(alloc, 4096, 100, &[])?, &script)?;
    let history = &ended.history;
    assert!(rt; answers(history, Answer::Reply(Reply::Ok)) == 22);
    assert!(rt; answers(history, Answer::Reply(Reply::NoNumber)) == 1);
    assert!(rt; answers(history, Answer::Print(10)) == 1);
    Ok(())
}

#[test]
fn many_stables_turn_the_log(rt: HostRuntime) -> Result<(), Fail> {
    let alloc = rt.alloc();
    let script = script_of(alloc, ALWAYS_STABLE)?;
    let mut ended = run_whole(alloc, formatted(alloc, 4096, 8000, &[])?, &script)?;
    let stables = ended
        .history
        .iter()
        .filter(|entry| entry.event == Event::Stable)
        .count();
    assert!(rt; stables == 701);
    let facts = facts_of(alloc, &mut ended.disk)?;
    assert!(rt; facts.log.area == Area::A);
    let report = reported(alloc, &facts)?;
    assert!(rt;
        report.as_str().starts_with(
            "area A epoch 3 used 66
rec 0 0 2 chosen
rec 1 1 2 chosen
rec 2 41 1274 earlier
"
        )
    );
    let rec = report
        .as_str()
        .lines()
        .filter(|line| line.starts_with("rec "))
        .last();
    assert!(rt; rec == Some("rec 65 41 1400 chosen"));
    Ok(())
}

#[test]
fn what_is_not_made_stable_is_gone(rt: HostRuntime) -> Result<(), Fail> {
    let alloc = rt.alloc();
    let script = script_of(alloc, COUNTS_ON)?;
    let mut ended = run_whole(alloc, formatted(alloc, 4096, 100, &[])?, &script)?;
    // Two births, 103 steps, and two Stables.
    assert!(rt; ended.history.len() == 107);
    let shown = shown(alloc, &facts_of(alloc, &mut ended.disk)?)?;
    assert!(rt;
        shown.as_str()
            == "container a 1 0 0 -
word a 0 7
locus l a 3 running 0 7 0 0 0 0 0 0 0
cap l 0 atlas t
"
    );
    Ok(())
}
