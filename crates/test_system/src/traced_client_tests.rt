//! A counter and a container with wishes, each run with its trace, and the trace checked.
use crate::scripts::COUNT;
use hopper_clients::{Checked, trace_and_check};
use std::alloc::Global;
use std::test::Fail;

// Stores twice into a container of which each change is recorded.
const WISH: &str = "program.p = ['set r1 7', 'store r0 r1', 'store r0 r1', 'halt']
container = [{ name = 'a', pages = 1, every = 1, program = 'p' }]
locus = [{ name = 'l', host = 'a' }]
";

// What is wrong; empty where nothing is.
fn wrong(c: &Checked, lines: usize, first: &[u8], verdict: &[u8]) -> &'static str {
    if c.formatted.number() + c.ran.number() + c.formatted_again.number() != 0 {
        return "a status";
    }
    if c.checked.number() != 0 || c.verdict.as_slice() != verdict {
        return "the verdict";
    }
    if c.history.len() != lines {
        return "how many lines";
    }
    if !c.trace.as_slice().starts_with(first) {
        return "the first line";
    }
    ""
}

// What is wrong of a run of this script whose trace is then checked.
fn wrong_of(
    alloc: Global,
    script: &str,
    lines: usize,
    first: &str,
    verdict: &str,
) -> Result<&'static str, Fail> {
    let checked = trace_and_check(alloc, script)?;
    Ok(wrong(&checked, lines, first.as_bytes(), verdict.as_bytes()))
}

#[test]
fn own_traces_are_accepted(rt: HostRuntime) -> Result<(), Fail> {
    let alloc = rt.alloc();
    let told = wrong_of(alloc, COUNT, 10, "birth box atlas:1,box:1\n", "ok 10\n")?;
    assert!(rt; told == "", "{told}");
    let told = wrong_of(alloc, WISH, 9, "birth a atlas:1,a:1\n", "ok 9\n")?;
    assert!(rt; told == "", "{told}");
    Ok(())
}
