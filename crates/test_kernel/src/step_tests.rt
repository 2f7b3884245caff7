//! Runs of so many steps.
ghost use Rattle.std.specs.Prelude.{◌<◌};

use crate::calls::{formatted, opened, trace};
use crate::forms::script_of;
use crate::scripts::{COUNTS_ON, FIVE};
use kernel_core::Stopped;
use kernel_watchers::Halt;
use std::alloc::Global;
use std::test::Fail;

// What a run of so many steps of container `a` and locus `l` answers, its history in lines, and why the kernel has stopped.
fn told(
    alloc: Global,
    text: &str,
    steps: u64,
) -> Result<(Result<(), Halt>, String, Option<Stopped>), Fail>
    requires { 0 < steps }
{
    let script = script_of(alloc, text)?;
    let mut own = opened(alloc, formatted(alloc, 4096, 100, &[])?, &script)?;
    let went = own.run_steps(alloc, &script, steps).ok_or("a run")?;
    let ended = own.into_ended();
    let lines = trace(alloc, &ended.history, &["a"], &["l"])?;
    Ok((went, lines, ended.stopped))
}

const ONE_STEP: &str = "birth a atlas:1,a:1
birth l atlas:2,a:2,l:1
stable atlas
step l l:2 quiet
";

#[test]
fn a_run_halts_behind_its_first_step(rt: HostRuntime) -> Result<(), Fail> {
    let (went, lines, stopped) = told(rt.alloc(), COUNTS_ON, 1)?;
    assert!(rt; went == Err(Halt::Watcher));
    assert!(rt; lines.as_str() == ONE_STEP);
    assert!(rt; stopped.is_none());
    Ok(())
}

#[test]
fn a_run_of_fewer_steps_comes_to_its_end(rt: HostRuntime) -> Result<(), Fail> {
    let (went, lines, stopped) = told(rt.alloc(), FIVE, 2)?;
    assert!(rt; went == Ok(()));
    assert!(rt; lines.as_str() == ONE_STEP);
    assert!(rt; stopped.is_none());
    Ok(())
}
