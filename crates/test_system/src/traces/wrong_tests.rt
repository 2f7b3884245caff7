//! Worked traces with a word changed, a line more or a line less, by the line that goes wrong and what it wants.
use crate::formatted;
use crate::scripts::{FIVE, STABILISES, STORES_ON, WISHED, WISHES};
use crate::traces::worked::{
    FIVE_TRACE, STABILISES_TRACE, STORES_ON_TRACE, WISHED_TRACE, WISHES_TRACE,
};
use crate::tracing::checked;
use std::alloc::Global;
use std::test::Fail;

// What stands in the trace, what stands there in its place, and what is told of it.
type Change = (&'static str, &'static str, &'static str);

// Of a run with births, a store, a load and a print.
const OF_FIVE: &[Change] = &[
    ("", "", "ok 8\n"),
    // A front of a legal history is one.
    ("step l l:5 print 5\nstep l l:6 quiet\n", "", "ok 6\n"),
    // A word for an event, and whom it names.
    ("birth a", "births a", "fault 10 1 want none\n"),
    ("birth a", "step a", "fault 10 1 want none\n"),
    ("birth a", "birth b", "fault 10 1 want none\n"),
    ("birth a", "birth", "fault 10 1 want none\n"),
    ("birth a", " birth a", "fault 10 1 want none\n"),
    ("birth l", "birth a", "fault 10 2 want none\n"),
    ("stable atlas", "stable l", "fault 10 3 want none\n"),
    ("stable atlas", "stable atlas 1", "fault 10 3 want none\n"),
    ("step l l:2", "step a l:2", "fault 10 4 want none\n"),
    ("step l l:2", "step atlas l:2", "fault 10 4 want none\n"),
    ("step l l:2", "step m l:2", "fault 10 4 want none\n"),
    ("step l l:2", "step  l l:2", "fault 10 4 want none\n"),
    ("step l l:2 quiet", "snap l 2", "fault 10 4 want none\n"),
    // What was touched: which, in which order, how, and at which version.
    (
        "atlas:1,a:1",
        "atlas=1,a:1",
        "fault 10 1 want birth a atlas:1,a:1\n",
    ),
    (
        "atlas:1,a:1",
        "atlas:1",
        "fault 10 1 want birth a atlas:1,a:1\n",
    ),
    (
        "a:2,l:1",
        "a:1,l:1",
        "fault 10 2 want birth l atlas:2,a:2,l:1\n",
    ),
    (
        "a:3,l:3",
        "l:3,a:3",
        "fault 10 5 want step l a:3,l:3 reply 0\n",
    ),
    (
        "a:3,l:3",
        "a:3,l:4",
        "fault 10 5 want step l a:3,l:3 reply 0\n",
    ),
    ("a=3", "a:3", "fault 10 6 want step l a=3,l:4 read 5\n"),
    ("a=3", "a=03", "fault 10 6 want step l a=3,l:4 read 5\n"),
    // What was answered.
    (
        "reply 0",
        "read 0",
        "fault 10 5 want step l a:3,l:3 reply 0\n",
    ),
    (
        "reply 0",
        "reply 17",
        "fault 10 5 want step l a:3,l:3 reply 0\n",
    ),
    (
        "read 5",
        "read 6",
        "fault 10 6 want step l a=3,l:4 read 5\n",
    ),
    (
        "read 5",
        "reply 0",
        "fault 10 6 want step l a=3,l:4 read 5\n",
    ),
    (
        "print 5",
        "print 05",
        "fault 10 7 want step l l:5 print 5\n",
    ),
    ("l:6 quiet", "l:6 hop", "fault 10 8 want step l l:6 quiet\n"),
    // Where a line ends.
    (
        "l:2 quiet\n",
        "l:2 quiet \n",
        "fault 10 4 want step l l:2 quiet\n",
    ),
    (
        "l:2 quiet\n",
        "l:2 quiet\r\n",
        "fault 10 4 want step l l:2 quiet\n",
    ),
    (
        "l:6 quiet\n",
        "l:6 quiet",
        "fault 10 8 want step l l:6 quiet\n",
    ),
    ("l:6 quiet\n", "l:6 quiet\n\n", "fault 10 9 want none\n"),
    // A birth that is left out, a step before the births' Stable, a step twice, and one of a locus that has halted.
    ("birth l atlas:2,a:2,l:1\n", "", "fault 10 2 want none\n"),
    ("stable atlas\n", "", "fault 10 3 want none\n"),
    (
        "step l a:3",
        "step l l:2 quiet\nstep l a:3",
        "fault 10 5 want step l a:3,l:3 reply 0\n",
    ),
    (
        "l:6 quiet\n",
        "l:6 quiet\nstep l l:7 quiet\n",
        "fault 10 9 want none\n",
    ),
];

// Of a run in which only the container is wished.
const OF_WISHED: &[Change] = &[
    ("", "", "ok 7\n"),
    // A due wish forbids the next step that touches the container, and none comes.
    ("snap a 3\n", "", "ok 6\n"),
    (
        "snap a 3\n",
        "snap a 3\nsnap l 3\n",
        "fault 10 7 want none\n",
    ),
    ("snap a 3\n", "stable l\n", "fault 10 6 want none\n"),
];

// Of a run in which the container and the locus are.
const OF_WISHES: &[Change] = &[
    ("", "", "ok 8\n"),
    // Two wishes may be met in either order, and each one once.
    ("snap a 3\nsnap l 3\n", "snap l 3\nsnap a 3\n", "ok 8\n"),
    (
        "snap a 3\n",
        "snap a 3\nsnap a 3\n",
        "fault 10 7 want none\n",
    ),
    ("snap a 3\n", "", "ok 7\n"),
    // Only at the version that is there, of an entity that is wished.
    ("snap a 3\n", "snap a 2\n", "fault 10 6 want none\n"),
    ("snap a 3\n", "snap atlas 2\n", "fault 10 6 want none\n"),
    ("snap a 3\n", "snap b 3\n", "fault 10 6 want none\n"),
    // Not before the store that leaves it, and not behind the next step that touches the locus.
    (
        "step l a:3,l:3 reply 0\nsnap a 3\nsnap l 3\n",
        "snap l 3\nstep l a:3,l:3 reply 0\nsnap a 3\n",
        "fault 10 5 want none\n",
    ),
    ("snap l 3\n", "", "fault 10 7 want none\n"),
    (
        "snap l 3\nstep l l:4 quiet\n",
        "step l l:4 quiet\nsnap l 3\n",
        "fault 10 7 want none\n",
    ),
    // A record that was tried is the last entry.
    ("snap l 3\nstep l l:4 quiet\n", "tried l 3\n", "ok 7\n"),
    ("snap a 3\n", "tried a 3\n", "fault 10 7 want none\n"),
    ("snap l 3\n", "tried l 3\n", "fault 10 8 want none\n"),
    (
        "snap l 3\nstep l l:4 quiet\n",
        "tried l 4\n",
        "fault 10 7 want none\n",
    ),
];

// Of a run in which the container is wished at each version, and comes to have four records that no cut goes past.
const OF_STORES: &[Change] = &[
    ("", "", "ok 12\n"),
    // With three it has to have one more before it is touched again.
    ("snap a 5\n", "", "fault 10 9 want none\n"),
    // With four it may have none.
    (
        "step l a:7",
        "snap a 6\nstep l a:7",
        "fault 10 11 want none\n",
    ),
];

// Of a run with a Stable of the locus.
const OF_STABILISES: &[Change] = &[
    ("", "", "ok 9\n"),
    // It is owed, by the locus that asked for it.
    ("stable l\n", "", "fault 10 7 want none\n"),
    ("stable l\n", "stable atlas\n", "fault 10 7 want none\n"),
    // Its records are made in ascending number; with the first of them it is cut short, and nothing meets it any more.
    ("stable l\n", "snap l 4\n", "fault 10 7 want none\n"),
    (
        "stable l\n",
        "snap a 3\nstable l\n",
        "fault 10 8 want none\n",
    ),
    (
        "stable l\n",
        "snap a 3\nsnap l 4\n",
        "fault 10 9 want none\n",
    ),
    (
        "stable l\nstep l a:4,l:5 reply 0\nstep l l:6 quiet\n",
        "snap a 3\ntried l 4\n",
        "ok 8\n",
    ),
];

// What is told of a changed trace, on an empty image.
fn told(alloc: Global, script: &[u8], trace: &str, change: Change) -> Result<String, Fail> {
    let (old, new, _) = change;
    let (front, back) = trace.split_once(old).ok_or("what is changed")?;
    let trace = format!(in alloc; "{front}{new}{back}")?;
    checked(alloc, script, trace.as_str(), formatted(alloc, &[])?)
}

#[test]
fn a_changed_trace_goes_wrong_in_its_line(rt: HostRuntime) -> Result<(), Fail> {
    let tables: [(&[u8], &str, &[Change]); 5] = [
        (FIVE, FIVE_TRACE, OF_FIVE),
        (WISHED, WISHED_TRACE, OF_WISHED),
        (WISHES, WISHES_TRACE, OF_WISHES),
        (STORES_ON, STORES_ON_TRACE, OF_STORES),
        (STABILISES, STABILISES_TRACE, OF_STABILISES),
    ];
    for &(script, trace, changes) in &tables {
        for change in changes {
            let line = told(rt.alloc(), script, trace, *change)?;
            assert!(rt; line.as_str() == change.2, "{} for {}", change.1, change.0);
        }
    }
    Ok(())
}

#[test]
fn a_step_before_all_births_goes_wrong(rt: HostRuntime) -> Result<(), Fail> {
    let disk = formatted(rt.alloc(), &[])?;
    let line = checked(rt.alloc(), FIVE, "step l l:2 quiet\n", disk)?;
    assert!(rt; line.as_str() == "fault 10 1 want none\n", "{line}");
    Ok(())
}
