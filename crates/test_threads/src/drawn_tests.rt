//! Drawn runs, stops included: under locks they are those of a kernel that owns its cells.
ghost use Rattle.std.specs.Prelude.{◌≡◌, ◌≤◌, IfOk};
ghost use Rattle.image_blocks.specs.image_facts.Layout.{least_blocks, most_blocks};
ghost use Rattle.script_types.specs.Rules.{IsScript};
ghost use Rattle.script_types.specs.Scripts.{tables_of};

use crate::kinds::Kinds;
use crate::runs::{born, formatted, runs_the_same, two};
use edge_disk::MemoryDisk;
use script_reading::read_script;
use script_types::Script;
use std::alloc::Global;
use std::process::Abort;
use std::sync::Wait;
use std::test::Fail;
use test_draws::drawn;
use thread_looks::{Ended, Stopped};

// The script of a number, with one page of each container in memory at most.
fn script_of(alloc: Global, number: u64) -> Result<Script, Fail>
    ensures { IfOk result (λ script. IsScript (tables_of script)) }
{
    let text = drawn(alloc, number)?;
    let mut script = read_script(alloc, text.as_bytes())?.script;
    script.frames = 1;
    Ok(script)
}

#[test]
fn drawn_runs_are_the_same_under_locks(rt: HostRuntime) -> Result<(), Fail> {
    let alloc = rt.alloc();
    let mut all = Kinds::none();
    for number in 1..=12 {
        let script = script_of(alloc, number)?;
        let (ended, kinds) = runs_the_same(&rt, alloc, &script, two(alloc, 4000, &[])?, 40)?;
        assert!(&rt; ended.stopped.is_none() && ended.history.len() > 60);
        all = all.and(kinds);
    }
    assert!(&rt; all.alone > 0 && all.stabilise > 0 && all.look > 0 && all.beside > 0);
    assert!(&rt; all.mapping > 0 && all.make > 0 && all.spawn > 0 && all.barren > 0);
    Ok(())
}

#[test]
fn drawn_runs_that_lack_blocks_stop_as_well(rt: HostRuntime) -> Result<(), Fail> {
    let alloc = rt.alloc();
    let mut lacking = 0_u32;
    for number in 1..=12 {
        let script = script_of(alloc, number)?;
        let (ended, _) = runs_the_same(&rt, alloc, &script, two(alloc, 2600, &[])?, 40)?;
        if matches!(ended.stopped, Some(Stopped::NoBlocks(_))) {
            lacking = lacking.wrapping_add(1);
        }
    }
    assert!(&rt; lacking > 0);
    Ok(())
}

// Of ten runs of a script, each of which fails at a later call behind the births: how many stop at a write.
fn failing<R: Abort + Wait>(rt: &R, alloc: Global, script: &Script) -> Result<u32, Fail>
    requires script { IsScript (tables_of script.now) }
{
    let kernel = born(alloc, formatted(alloc, 4000, &[])?, script).ok_or("a kernel")?;
    let from = kernel.into_ended().disk.calls();
    let mut writes = 0_u32;
    for later in 0..10_u64 {
        let fails = [from.wrapping_add(1 + later * 9)];
        let (ended, _) = runs_the_same(rt, alloc, script, two(alloc, 4000, &fails)?, 40)?;
        if ended.stopped == Some(Stopped::WriteFault) {
            writes = writes.wrapping_add(1);
        }
    }
    Ok(writes)
}

#[test]
fn drawn_runs_whose_disk_fails_stop_as_well(rt: HostRuntime) -> Result<(), Fail> {
    let alloc = rt.alloc();
    for number in 1..=4 {
        let script = script_of(alloc, number)?;
        assert!(&rt; failing(&rt, alloc, &script)? > 0, "{number}");
    }
    Ok(())
}
