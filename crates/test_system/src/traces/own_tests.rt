//! The traces of runs, checked on the images on which they were made.
use crate::scripts::{
    ALL_PAGES, ALWAYS_STABLE, CIRCLES, COUNTS_ON, DENIED_OVER_A_MAPPING, FIVE, FULL_CHAIN,
    INVOKES_WITHOUT_ENTRY, LOADS, NEVER_HALTS, NO_SNAP, ORDERED, PAGE_AND_PLACE, PAST_THE_PAGE,
    PRIVATE_FIRST, PRIVATE_IN_ONE_HOST, SNAP, SPAWNS_TO_THE_LAST, STABILISES, STOPS_ITSELF,
    STORES_ON, TAGGED, TAKES, UNSTABLE, WISHED, WISHED_BY_PROGRAM, WISHED_BY_TWO, WISHES,
};
use crate::tracing::{checked, traced};
use crate::{copy_of, formatted_with};
use edge_disk::MemoryDisk;
use std::alloc::Global;
use std::test::Fail;
use test_draws::drawn;

const SCRIPTS: &[&[u8]] = &[
    FIVE,
    PAST_THE_PAGE,
    TAGGED,
    PRIVATE_FIRST,
    PRIVATE_IN_ONE_HOST,
    CIRCLES,
    DENIED_OVER_A_MAPPING,
    INVOKES_WITHOUT_ENTRY,
    FULL_CHAIN,
    ALL_PAGES,
    SPAWNS_TO_THE_LAST,
    STOPS_ITSELF,
    TAKES,
    COUNTS_ON,
    UNSTABLE,
    ORDERED,
    STABILISES,
    STORES_ON,
    WISHED,
    WISHED_BY_TWO,
    WISHES,
    ALWAYS_STABLE,
    NO_SNAP,
    SNAP,
    LOADS,
    PAGE_AND_PLACE,
    NEVER_HALTS,
    WISHED_BY_PROGRAM,
];

// Makes a run and checks its trace on a copy of the disk as it was: what isn't so, and the disk that the run left.
fn run_and_check(
    alloc: Global,
    script: &[u8],
    disk: MemoryDisk,
) -> Result<(&'static str, MemoryDisk), Fail> {
    let before = copy_of(&disk)?;
    let (trace, outcome) = traced(alloc, script, disk)?;
    let line = checked(alloc, script, trace.as_str(), before)?;
    let wanted = format!(in alloc; "ok {}\n", outcome.history.len())?;
    let fault = if outcome.status.number() != 0 {
        "the run"
    } else if trace.as_str().lines().count() != outcome.history.len() {
        "a line for each entry"
    } else if line.as_str() != wanted.as_str() {
        "the check of its trace"
    } else {
        ""
    };
    Ok((fault, outcome.disk))
}

// The same on a new image and then on what that run left: what isn't so of either.
fn wrong(alloc: Global, script: &[u8]) -> Result<&'static str, Fail> {
    let disk = formatted_with(alloc, 4096, 12_000)?;
    let (fault, disk) = run_and_check(alloc, script, disk)?;
    if fault != "" {
        return Ok(fault);
    }
    let (fault, _) = run_and_check(alloc, script, disk)?;
    Ok(fault)
}

#[test]
fn a_run_s_own_trace_is_accepted(rt: HostRuntime) -> Result<(), Fail> {
    for (place, script) in SCRIPTS.iter().enumerate() {
        let told = wrong(rt.alloc(), script)?;
        assert!(rt; told == "", "{told}: at {place}");
    }
    Ok(())
}

#[test]
fn a_drawn_run_s_own_trace_is_accepted(rt: HostRuntime) -> Result<(), Fail> {
    for number in 0..10 {
        let script = drawn(rt.alloc(), number)?;
        let told = wrong(rt.alloc(), script.as_bytes())?;
        assert!(rt; told == "", "{told}: at {number}");
    }
    Ok(())
}
