//! Runs each of whose calls of the disk fails in turn, and that are stopped at each moment: what the image means then is worked out by the
//! plain kernel from the commits of the history.
ghost use Rattle.script_types.specs.Rules.{IsScript};
ghost use Rattle.script_types.specs.Scripts.{tables_of};

use crate::hostile::calls::formatted;
use crate::leavings::stop_shows_one_of;
use crate::{FORMAT_CALLS, copy_of, left_by, put, scripts, shown, wrong_stop};
use base_types::{Answer, Entry, FIRST_LOCUS};
use command_outcomes::Outcome;
use edge_disk::MemoryDisk;
use script_reading::read_script;
use script_types::Script;
use std::alloc::Global;
use std::test::Fail;
use test_replays::{Front, are_rising, commits_of, fronts_from, is_cut_off, serial_history};

// Three containers and three loci with wishes, a region, and picks of an order. Each record of `b` waits for the first of `m` behind it, and
// that of `a` for the second of `l`. `c` has four records that wait for its locus at versions that no record has, and is snapped no more.
const WISHES: &str = "steps = 9
order = ['m', 'l', 'm', 'n']
program.p = ['set r0 7', 'store r1 r0', 'print r0', 'add r0 r0', 'store r1 r0', 'jump @2']
program.q = ['set r1 130', 'store r0 r1', 'store r0 r1', 'store r0 r1', 'store r1 r1', 'load r2 r1', 'print r2', 'halt']
program.r = ['store r0 r1', 'store r0 r1', 'store r0 r1', 'store r0 r1', 'store r0 r1', 'halt']
container = [
    { name = 'a', pages = 2, every = 2, program = 'p' },
    { name = 'b', pages = 2, tag = 5, every = 1, program = 'q', regions = ['1 a 1 1 rw'] },
    { name = 'c', pages = 1, tag = 9, every = 1, program = 'r' },
]
locus = [
    { name = 'l', host = 'a', every = 4 },
    { name = 'm', host = 'b', every = 5 },
    { name = 'n', host = 'c', every = 5 },
]
";

// Two stabilises, before each of which eight containers change.
const STABILISES: &str = "steps = 120
program.p = ['set r2 128', 'set r4 1', 'add r0 r2', 'set r1 128', 'set r3 8', 'store r1 r0', 'add r1 r2', 'sub r3 r4', 'jz r3 @10', 'jump @5', 'stabilise r5', 'print r7', 'jz r6 @14', 'halt', 'set r6 1', 'jump @2']
container = [
    { name = 'a', pages = 1 }, { name = 'b', pages = 1 }, { name = 'c', pages = 1 }, { name = 'd', pages = 1 },
    { name = 'e', pages = 1 }, { name = 'f', pages = 1 }, { name = 'g', pages = 1 }, { name = 'h', pages = 1 },
    { name = 'i', pages = 9, program = 'p', regions = ['1 a 0 1 rw', '2 b 0 1 rw', '3 c 0 1 rw', '4 d 0 1 rw', '5 e 0 1 rw', '6 f 0 1 rw', '7 g 0 1 rw', '8 h 0 1 rw'] },
]
locus = [{ name = 'l', host = 'i', caps = ['atlas t'] }]
";

// What isn't as it has to be of a run, of what a stop of it leaves, and of the run that is made again.
#[derive(Clone, Copy, Debug)]
enum Wrong {
    OtherLines,
    OtherHistory,
    OtherCommits,
    FallingMarks,
    StopLeavesOther,
    FaultNotTold,
    OtherMarks,
    StopBehindLeavesOther,
    DiskShowsOther,
    NotMadeAgain,
    AgainKeepsOther,
}

// The lines that a history's loci print, each with its name by the script's tables.
fn printed(alloc: Global, script: &Script, history: &[Entry]) -> Result<String, Fail> {
    let mut lines = String::new(alloc);
    for entry in history {
        if let Answer::Print(value) = entry.answer {
            let place = usize::from(entry.actor.number()).saturating_sub(usize::from(FIRST_LOCUS));
            let table = script.loci.get(place).ok_or("a locus of the script")?;
            let name = table.name.as_str();
            let line = format!(in alloc; "{name} {value}\n")?;
            lines.push_str(line.as_str())?;
        }
    }
    Ok(lines)
}

// How many of these take the same records as the one before.
fn waiting(fronts: &[Front]) -> usize {
    let mut count = 0usize;
    for place in 1..fronts.len() {
        if fronts[place].is_as(&fronts[place - 1]) {
            count = count.saturating_add(1);
        }
    }
    count
}

// A whole run, stopped at each moment since the format. What isn't as it has to be. It has so many commits, of which so many change nothing
// that is kept when they are made.
fn wrong_where_stopped(
    alloc: Global,
    script: &Script,
    outcome: &Outcome<MemoryDisk>,
    counts: (usize, usize),
) -> Result<Option<Wrong>, Fail>
    requires script { IsScript (tables_of script.now) }
{
    let commits = commits_of(alloc, &outcome.history)?;
    let fronts = fronts_from(alloc, script, &outcome.history, &commits.recs, 0)?;
    if (commits.recs.len(), waiting(&fronts)) != counts {
        return Ok(Some(Wrong::OtherCommits));
    }
    let end = outcome.disk.moments().saturating_sub(FORMAT_CALLS);
    if !are_rising(&outcome.marks, end) {
        return Ok(Some(Wrong::FallingMarks));
    }
    let wrong = wrong_stop(alloc, outcome, &commits, &fronts)?;
    Ok(wrong.map(|_moment| Wrong::StopLeavesOther))
}

// What a run told and made that a failing call ended. What isn't as it has to be.
fn wrong_where_failed(
    alloc: Global,
    script: &Script,
    whole: &[Entry],
    told: &str,
    outcome: &Outcome<MemoryDisk>,
) -> Result<Option<Wrong>, Fail> {
    let mut lines = printed(alloc, script, &outcome.history)?;
    lines.push_str("fault 5 disk\n")?;
    if outcome.status.number() != 5 || told != lines.as_str() {
        return Ok(Some(Wrong::FaultNotTold));
    }
    if !is_cut_off(whole, &outcome.history) {
        return Ok(Some(Wrong::OtherHistory));
    }
    let commits = commits_of(alloc, &outcome.history)?;
    let end = outcome.disk.moments().saturating_sub(FORMAT_CALLS);
    if outcome.marks.len() != commits.behind.len() || !are_rising(&outcome.marks, end) {
        return Ok(Some(Wrong::OtherMarks));
    }
    Ok(None)
}

// The run made again on the disk that came back: it ends, and keeps this where that is said. What isn't so.
fn wrong_again(
    alloc: Global,
    text: &str,
    disk: MemoryDisk,
    kept: Option<&str>,
) -> Result<Option<Wrong>, Fail> {
    let (_, outcome) = put(alloc, &["run"], text.as_bytes(), disk)?;
    if outcome.status.number() != 0 {
        return Ok(Some(Wrong::NotMadeAgain));
    }
    let again = shown(alloc, outcome.disk)?;
    if kept.is_some_and(|kept| again.as_str() != kept) {
        return Ok(Some(Wrong::AgainKeepsOther));
    }
    Ok(None)
}

// The disk of such a run: it shows one of these, also where it is stopped at the end, and the run can be made again on it. What isn't so.
fn wrong_behind(
    alloc: Global,
    text: &str,
    disk: MemoryDisk,
    fronts: &[Front],
    kept: Option<&str>,
) -> Result<Option<Wrong>, Fail> {
    if !stop_shows_one_of(alloc, &disk, disk.moments(), fronts)? {
        return Ok(Some(Wrong::StopBehindLeavesOther));
    }
    let (shown, outcome) = put(alloc, &["show"], b"", disk)?;
    if !fronts.iter().any(|front| front.shows(shown.as_str())) {
        return Ok(Some(Wrong::DiskShowsOther));
    }
    wrong_again(alloc, text, outcome.disk, kept)
}

// A run of which one call of the disk fails, and what is left. What isn't as it has to be.
fn wrong_at(
    alloc: Global,
    text: &str,
    script: &Script,
    whole: &[Entry],
    kept: Option<&str>,
    failing: u64,
) -> Result<Option<Wrong>, Fail>
    requires script { IsScript (tables_of script.now) }
{
    let disk = formatted(alloc, &[failing])?;
    let (told, outcome) = put(alloc, &["run"], text.as_bytes(), disk)?;
    let wrong = wrong_where_failed(alloc, script, whole, told.as_str(), &outcome)?;
    if wrong.is_some() {
        return Ok(wrong);
    }
    let fronts = left_by(alloc, script, &outcome.history)?;
    wrong_behind(alloc, text, outcome.disk, &fronts, kept)
}

// The table: a run with each call of the disk behind `format` failing in turn, and stopped at each moment. A run made again may have to keep
// what the whole run does. What isn't as it has to be, and at which call.
fn wrong_of(
    alloc: Global,
    text: &str,
    counts: (usize, usize),
    same_again: bool,
) -> Result<(Option<Wrong>, u64), Fail> {
    let script = read_script(alloc, text.as_bytes())?.script;
    let whole = serial_history(alloc, &script)?;
    let (told, outcome) = put(alloc, &["run"], text.as_bytes(), formatted(alloc, &[])?)?;
    let lines = printed(alloc, &script, &whole)?;
    if outcome.status.number() != 0 || told.as_str() != lines.as_str() {
        return Ok((Some(Wrong::OtherLines), 0));
    }
    if outcome.history.as_slice() != whole.as_slice() {
        return Ok((Some(Wrong::OtherHistory), 0));
    }
    let wrong = wrong_where_stopped(alloc, &script, &outcome, counts)?;
    if wrong.is_some() {
        return Ok((wrong, 0));
    }
    let shown = shown(alloc, copy_of(&outcome.disk)?)?;
    let kept = same_again.then_some(shown.as_str());
    for failing in FORMAT_CALLS + 1..=outcome.disk.calls() {
        let wrong = wrong_at(alloc, text, &script, &whole, kept, failing)?;
        if wrong.is_some() {
            return Ok((wrong, failing));
        }
    }
    Ok((None, 0))
}

// Runs of one container and one locus. Behind the three records of those born, of which the cut takes none before the last, come one of each,
// taken together: by two wishes, and by a Stable; behind that one step, or a hundred.
#[test]
fn small_runs_keep_what_was_acknowledged(rt: HostRuntime) -> Result<(), Fail> {
    for &text in &[scripts::WISHES, scripts::COUNTS_ON, scripts::STABILISES] {
        let text = std::str::from_utf8(text).ok().ok_or("text")?;
        let (wrong, failing) = wrong_of(rt.alloc(), text, (5, 3), true)?;
        assert!(rt; wrong.is_none(), "{wrong:?} at {failing} of {text}");
    }
    Ok(())
}

#[test]
fn a_run_with_wishes_keeps_what_was_acknowledged(rt: HostRuntime) -> Result<(), Fail> {
    // Seven records of those born, and then 3, 4, 5 of b, 6 of m, 3, 4, 5 of c, 6 of n, 4, 6 of a, 5, 9 of l. The cut rises behind the
    // births, m at 6 and l at 9.
    let (wrong, failing) = wrong_of(rt.alloc(), WISHES, (19, 16), false)?;
    assert!(rt; wrong.is_none(), "{wrong:?} at {failing}");
    Ok(())
}

#[test]
fn a_run_with_stabilises_of_many_containers_keeps_them(rt: HostRuntime) -> Result<(), Fail> {
    // Eleven records of those born, and then twice eight containers and the locus. The cut rises three times. From each of these cuts the
    // locus goes on to the last stabilise.
    let (wrong, failing) = wrong_of(rt.alloc(), STABILISES, (29, 26), true)?;
    assert!(rt; wrong.is_none(), "{wrong:?} at {failing}");
    Ok(())
}
