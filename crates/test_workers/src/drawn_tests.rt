//! Drawn scripts on threads: whatever the order of looks, the trace of a run is that of a legal history.
use crate::gates::Crowd;
use script_reading::read_script;
use std::alloc::Global;
use std::sync::Wait;
use std::test::Fail;
use std::thread::Threads;
use test_draws::drawn;
use test_system::{
    OpenGate, StepGate, checked, copy_of, formatted_with, left_by, put_on_threads, shows_one_of,
};

// A run of a script by so many workers on a new image, whose trace is then checked on that image as it was; its image shows what all its commits make. What
// isn't so.
fn wrong_by<R: Threads + Wait + Sync + Alloc<A = Global>, G: StepGate + Sync>(
    rt: &R,
    workers: &str,
    text: &str,
    gate: &G,
) -> Result<&'static str, Fail> {
    let alloc = rt.alloc();
    let script = read_script(alloc, text.as_bytes())?.script;
    let disk = formatted_with(alloc, 3000, 12_000)?;
    let before = copy_of(&disk)?;
    let words = ["run", "--trace", "--workers", workers];
    let (trace, outcome) = put_on_threads(rt, alloc, &words, text.as_bytes(), &[], disk, gate)?;
    if outcome.status.number() != 0 {
        return Ok("the run");
    }
    let line = checked(alloc, text.as_bytes(), trace.as_str(), before)?;
    let wanted = format!(in alloc; "ok {}\n", outcome.history.len())?;
    if line.as_str() != wanted.as_str() {
        return Ok("the check of its trace");
    }
    let fronts = left_by(alloc, &script, &outcome.history)?;
    if !shows_one_of(alloc, outcome.disk, &fronts)? {
        return Ok("its image");
    }
    Ok("")
}

// The same of a run in which workers take turns, and of one in which they contend for the locks of every step.
fn wrong_either<R: Threads + Wait + Sync + Alloc<A = Global>>(
    rt: &R,
    workers: &str,
    text: &str,
) -> Result<&'static str, Fail> {
    let told = wrong_by(rt, workers, text, &OpenGate)?;
    if told != "" {
        return Ok(told);
    }
    wrong_by(rt, workers, text, &Crowd)
}

#[test]
fn the_trace_of_a_run_on_threads_is_accepted(rt: HostRuntime) -> Result<(), Fail> {
    for number in 0..20 {
        let script = drawn(rt.alloc(), number)?;
        for workers in ["1", "2", "3", "16"] {
            let told = wrong_either(&rt, workers, script.as_str())?;
            assert!(rt; told == "", "{told}: at {number} by {workers}");
        }
    }
    Ok(())
}
