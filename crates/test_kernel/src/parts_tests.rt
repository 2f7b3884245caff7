//! Kernels that stopped, taken apart and put together.
ghost use Rattle.script_types.specs.Rules.{IsScript};
ghost use Rattle.script_types.specs.Scripts.{tables_of};

use crate::calls::{formatted, opened, play_out, run_whole};
use crate::fault_tests::{goes_on_no_more, shown_behind};
use crate::forms::{script_of, with_frames, with_steps};
use crate::scripts::{ALL_PAGES, LOADS_BEHIND, WISHES};
use edge_disk::{MemoryDisk, NoBlocks};
use kernel_core::Ended;
use open_kernel::Stopped;
use script_types::Script;
use std::alloc::Global;
use std::process::Abort;
use std::test::Fail;

// The run of a script up to its stop, behind which no call does anything, and behind which the kernel is taken apart and put together, or not.
fn ended_at_stop(
    rt: &impl Abort,
    alloc: Global,
    script: &Script,
    disk: MemoryDisk,
    why: Stopped,
    apart: bool,
) -> Result<Ended<MemoryDisk>, Fail>
    requires script { IsScript (tables_of script.now) }
{
    let mut own = opened(alloc, disk, script)?;
    play_out(alloc, &mut own, script);
    if apart {
        own = own.rejoined();
    }
    goes_on_no_more(rt, &mut own, script, why);
    Ok(own.into_ended())
}

// It leaves the same history, marks, stop and disk in either case.
fn leaves_the_same(
    rt: &impl Abort,
    alloc: Global,
    script: &Script,
    disks: (MemoryDisk, MemoryDisk),
    why: Stopped,
) -> Result<(), Fail>
    requires script { IsScript (tables_of script.now) }
{
    let (one, other) = disks;
    let whole = ended_at_stop(rt, alloc, script, one, why, false)?;
    let parts = ended_at_stop(rt, alloc, script, other, why, true)?;
    assert!(rt; whole.stopped == Some(why) && parts.stopped == Some(why));
    assert!(rt; parts.history == whole.history);
    assert!(rt; parts.marks == whole.marks);
    assert!(rt; parts.disk.calls() == whole.disk.calls());
    assert!(rt; parts.disk.moments() == whole.disk.moments());
    let (shown, again) = (shown_behind(alloc, whole)?, shown_behind(alloc, parts)?);
    assert!(rt; shown.as_str() == again.as_str(), "{shown}{again}");
    Ok(())
}

#[test]
fn a_kernel_short_of_a_block_is_the_same_put_together(rt: HostRuntime) -> Result<(), Fail> {
    let alloc = rt.alloc();
    let script = with_frames(script_of(alloc, ALL_PAGES)?, 1);
    let none = Stopped::NoBlocks(NoBlocks { need: 1, free: 0 });
    let disks = (
        formatted(alloc, 2600, 1000, &[])?,
        formatted(alloc, 2600, 1000, &[])?,
    );
    leaves_the_same(&rt, alloc, &script, disks, none)
}

#[test]
fn a_kernel_behind_a_failed_write_is_the_same_put_together(rt: HostRuntime) -> Result<(), Fail> {
    let alloc = rt.alloc();
    let script = with_steps(script_of(alloc, WISHES)?, 8);
    let disks = (
        formatted(alloc, 2600, 1000, &[60])?,
        formatted(alloc, 2600, 1000, &[60])?,
    );
    leaves_the_same(&rt, alloc, &script, disks, Stopped::WriteFault)
}

// The disk of a first run of a script, so many calls after the making of whose image fails a call.
fn behind_one(alloc: Global, script: &Script, failing: u64) -> Result<MemoryDisk, Fail>
    requires script { IsScript (tables_of script.now) }
{
    let first = run_whole(alloc, formatted(alloc, 2600, 1000, &[failing])?, script)?;
    Ok(first.disk)
}

#[test]
fn a_kernel_behind_a_failed_read_is_the_same_put_together(rt: HostRuntime) -> Result<(), Fail> {
    let alloc = rt.alloc();
    let script = script_of(alloc, LOADS_BEHIND)?;
    let first = run_whole(alloc, formatted(alloc, 2600, 1000, &[])?, &script)?;
    let whole = run_whole(alloc, first.disk, &script)?;
    // The second run writes nothing, so the read of the page that is loaded is its last call.
    let failing = whole.disk.calls();
    let disks = (
        behind_one(alloc, &script, failing)?,
        behind_one(alloc, &script, failing)?,
    );
    leaves_the_same(&rt, alloc, &script, disks, Stopped::ReadFault)
}
