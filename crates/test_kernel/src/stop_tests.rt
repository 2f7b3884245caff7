//! Runs stopped at each moment, torn in three ways: what is left means what the commits so far make.
ghost use Rattle.std.specs.Prelude.{◌≤◌, ◌<◌};
ghost use Rattle.edge_disk.specs.MemoryDisk.{moments_of};
ghost use Rattle.script_types.specs.Rules.{IsScript};
ghost use Rattle.script_types.specs.Scripts.{tables_of};

use crate::calls::{formatted, opened, run_whole, step_rounds};
use crate::forms::{script_of, with_steps};
use crate::scripts::{STORES_BOTH, WISHES};
use base_types::Rec;
use edge_disk::{MemoryDisk, Torn};
use kernel_core::Ended;
use script_drill::drill_script;
use script_types::Script;
use std::alloc::Global;
use std::process::Abort;
use std::test::Fail;
use test_replays::{Front, acknowledged, are_rising, commits_of, fronts_from, means_one_of};

// A stop at a moment, torn in three ways, leaves one of these.
fn stop_leaves(
    alloc: Global,
    disk: &MemoryDisk,
    moment: u64,
    fronts: &[Front],
    recs: &[Rec],
) -> Result<(), Fail>
    requires { moment ≤ moments_of disk.now }
{
    for &torn in &[Torn::Old, Torn::New, Torn::Fill(1)] {
        let mut left = disk.crash(moment, torn)?;
        means_one_of(alloc, &mut left, fronts, recs)?;
    }
    Ok(())
}

// A stop at each moment, or at each so many, of a run that was opened at the tenth leaves what a front of its commits makes, with all that
// was acknowledged. How many commits there are.
fn stops_leave(
    rt: &impl Abort,
    alloc: Global,
    script: &Script,
    ended: &Ended<MemoryDisk>,
    stride: u64,
) -> Result<usize, Fail>
    requires script { IsScript (tables_of script.now) }
    requires stride { 0 < stride }
{
    let commits = commits_of(alloc, &ended.history)?;
    let recs = &commits.recs;
    let fronts = fronts_from(alloc, script, &ended.history, recs, 0)?;
    let end = ended.disk.moments();
    assert!(rt; are_rising(&ended.marks, end.saturating_sub(10)));
    for moment in 10..=end {
        if moment % stride == 0 {
            let made = acknowledged(&commits.behind, &ended.marks, moment.saturating_sub(10));
            let least = made.min(fronts.len());
            stop_leaves(alloc, &ended.disk, moment, &fronts[least..], recs)?;
        }
    }
    Ok(recs.len())
}

#[test]
fn a_stop_leaves_what_was_born_or_both_snapshots(rt: HostRuntime) -> Result<(), Fail> {
    let alloc = rt.alloc();
    let script = script_of(alloc, STORES_BOTH)?;
    let ended = run_whole(alloc, formatted(alloc, 2600, 100, &[])?, &script)?;
    // Three records behind the births, and two snapshots.
    assert!(rt; stops_leave(&rt, alloc, &script, &ended, 1)? == 5);
    Ok(())
}

#[test]
fn a_stop_in_a_run_with_wishes_and_stables_leaves_a_part(rt: HostRuntime) -> Result<(), Fail> {
    let alloc = rt.alloc();
    let script = with_steps(script_of(alloc, WISHES)?, 8);
    let ended = run_whole(alloc, formatted(alloc, 2600, 500, &[])?, &script)?;
    let commits = stops_leave(&rt, alloc, &script, &ended, 1)?;
    assert!(&rt; commits > 10, "{commits}");
    Ok(())
}

#[test]
fn a_stop_in_a_drawn_run_leaves_a_part(rt: HostRuntime) -> Result<(), Fail> {
    let alloc = rt.alloc();
    let script = drill_script(alloc, 1)?;
    let mut own = opened(alloc, formatted(alloc, 2900, 2000, &[])?, &script)?;
    assert!(&rt; own.births(alloc, &script).is_ok());
    assert!(&rt; step_rounds(&mut own, 15));
    let commits = stops_leave(&rt, alloc, &script, &own.into_ended(), 5)?;
    assert!(&rt; commits > 19, "{commits}");
    Ok(())
}

#[test]
fn a_kernel_goes_on_from_what_a_stop_leaves(rt: HostRuntime) -> Result<(), Fail> {
    let alloc = rt.alloc();
    let script = script_of(alloc, WISHES)?;
    let ended = run_whole(alloc, formatted(alloc, 2600, 500, &[])?, &script)?;
    for moment in 10..=ended.disk.moments() {
        let left = ended.disk.crash(moment, Torn::Fill(7))?;
        let again = run_whole(alloc, left, &script)?;
        assert!(&rt; again.stopped.is_none());
    }
    Ok(())
}
