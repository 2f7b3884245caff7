//! Disks each of whose calls fails in turn, and disks with too few blocks.
ghost use Rattle.std.specs.Prelude.{◌≤◌, ◌<◌};
ghost use Rattle.image_blocks.specs.image_facts.Layout.{least_blocks, most_blocks};
ghost use Rattle.script_types.specs.Rules.{IsScript};
ghost use Rattle.script_types.specs.Scripts.{tables_of};

use crate::calls::{formatted, kernel_of, opened, run, run_whole};
use crate::forms::{script_of, with_frames, with_steps};
use crate::own::{OwnKernel, Unborn};
use crate::scripts::{ALL_PAGES, FORTY_PAGES, FORTY_PAGES_STABLE, LOADS_BEHIND, WISHES};
use base_types::{Entity, Entry, Event};
use edge_disk::{MemoryDisk, NoBlocks};
use kernel_core::Ended;
use open_kernel::{Stop, Stopped};
use script_drill::drill_script;
use script_types::Script;
use std::alloc::Global;
use std::process::Abort;
use std::test::Fail;
use test_replays::{commits_of, common, facts_of, fronts_from, is_cut_off, means_one_of, shown};

// A kernel that stopped makes no more, whatever is called and whatever the locus: behind a fault of the disk it is shut, and behind want of
// blocks it tells the same numbers.
pub(crate) fn goes_on_no_more(
    rt: &impl Abort,
    own: &mut OwnKernel<MemoryDisk>,
    script: &Script,
    why: Stopped,
) {
    let again = match why {
        Stopped::NoBlocks(blocks) => Stop::NoBlocks(blocks),
        Stopped::ReadFault | Stopped::WriteFault => Stop::Shut,
    };
    let len = own.kernel().history().len();
    assert!(rt; own.step(Entity::of(41)) == Err(again));
    assert!(rt; own.step(Entity::of(63)) == Err(again));
    assert!(rt; own.snap(Entity::of(1)) == Err(again));
    assert!(rt; own.play(script) == Err(again));
    assert!(rt; own.finish() == Err(again));
    assert!(rt; own.kernel().history().len() == len);
    assert!(rt; own.kernel().stopped() == Some(why));
}

// Whether the last entry is a record that was tried.
fn ends_tried(history: &[Entry]) -> bool {
    match history.last() {
        Some(entry) => entry.event == Event::Tried,
        None => false,
    }
}

// The run of a script, stopped by a call that fails. What it has made, if it was opened.
fn stopped_run(
    rt: &impl Abort,
    alloc: Global,
    script: &Script,
    disk: MemoryDisk,
) -> Result<Option<Ended<MemoryDisk>>, Fail>
    requires script { IsScript (tables_of script.now) }
{
    let mut own = match kernel_of(alloc, disk, script) {
        Some(own) => own,
        None => return Ok(None),
    };
    if own.births(alloc, script).is_ok() && own.play(script).is_ok() {
        assert!(rt; own.finish().is_err());
    }
    let why = own.kernel().stopped().ok_or("a stop")?;
    assert!(rt; matches!(why, Stopped::ReadFault | Stopped::WriteFault));
    assert!(rt; !ends_tried(own.kernel().history()) || why == Stopped::WriteFault);
    goes_on_no_more(rt, &mut own, script, why);
    Ok(Some(own.into_ended()))
}

// What a stopped kernel leaves: its image means what all its commits make, the last of which may be tried, and runs on to the end.
fn leaves_a_front(
    rt: &impl Abort,
    alloc: Global,
    script: &Script,
    ended: Ended<MemoryDisk>,
) -> Result<(), Fail>
    requires script { IsScript (tables_of script.now) }
{
    let commits = commits_of(alloc, &ended.history)?;
    let tried = ends_tried(&ended.history);
    let least = commits.recs.len().saturating_sub(usize::from(tried));
    let fronts = fronts_from(alloc, script, &ended.history, &commits.recs, least)?;
    let mut disk = ended.disk;
    means_one_of(alloc, &mut disk, &fronts, &commits.recs)?;
    let again = run_whole(alloc, disk, script)?;
    assert!(rt; again.stopped.is_none());
    Ok(())
}

// Each call of the disk of a run fails in turn, or one of so many. How often a record was tried, and how often a Stable was cut short behind a record.
fn each_call_fails(
    rt: &impl Abort,
    alloc: Global,
    script: &Script,
    blocks: u32,
    stride: u64,
) -> Result<(u32, u32), Fail>
    requires script { IsScript (tables_of script.now) }
    requires stride { 0 < stride }
    requires blocks { (least_blocks ≤ blocks) × (blocks ≤ most_blocks) }
{
    let whole = run_whole(alloc, formatted(alloc, blocks, 1000, &[])?, script)?;
    let mut tried = 0u32;
    let mut short = 0u32;
    for failing in 11..=whole.disk.calls() {
        if failing % stride == 0 {
            let disk = formatted(alloc, blocks, 1000, &[failing])?;
            if let Some(ended) = stopped_run(rt, alloc, script, disk)? {
                assert!(rt; is_cut_off(&whole.history, &ended.history), "at {failing}");
                let len = common(&whole.history, &ended.history);
                let more = ended.history.len() - len;
                tried = tried.saturating_add(u32::from(more > 0));
                short = short.saturating_add(u32::from(more > 1));
                leaves_a_front(rt, alloc, script, ended)?;
            }
        }
    }
    Ok((tried, short))
}

#[test]
fn a_kernel_stops_at_each_call_that_fails(rt: HostRuntime) -> Result<(), Fail> {
    let alloc = rt.alloc();
    let script = with_steps(script_of(alloc, WISHES)?, 8);
    let (tried, short) = each_call_fails(&rt, alloc, &script, 2600, 1)?;
    assert!(&rt; tried > 20 && short > 10, "{tried} {short}");
    Ok(())
}

#[test]
fn a_stable_of_many_records_is_cut_short_at_each(rt: HostRuntime) -> Result<(), Fail> {
    let alloc = rt.alloc();
    let script = with_steps(drill_script(alloc, 1)?, 1);
    // The atlas, twelve containers and six loci, each of which takes six calls at least.
    let (tried, short) = each_call_fails(&rt, alloc, &script, 2900, 3)?;
    assert!(&rt; tried >= 19 && short >= 18, "{tried} {short}");
    Ok(())
}

// What is shown of the image of a run that stopped.
pub(crate) fn shown_behind(alloc: Global, ended: Ended<MemoryDisk>) -> Result<String, Fail> {
    let mut disk = ended.disk;
    shown(alloc, &facts_of(alloc, &mut disk)?)
}

const BORN: &str = "container a 256 0 0 -
locus l a 0 running 0 0 0 0 0 0 0 0 0
";

#[test]
fn an_eviction_without_a_block_stops_the_kernel(rt: HostRuntime) -> Result<(), Fail> {
    let alloc = rt.alloc();
    let script = with_frames(script_of(alloc, ALL_PAGES)?, 1);
    let ended = run(alloc, formatted(alloc, 2600, 1000, &[])?, &script)?;
    let none = NoBlocks { need: 1, free: 0 };
    assert!(rt; ended.stopped == Some(Stopped::NoBlocks(none)));
    let shown = shown_behind(alloc, ended)?;
    assert!(rt; shown.as_str() == BORN, "{shown}");
    Ok(())
}

// 35 blocks of the pool less one for the atlas's blob, two for the container's, with 256 pages, and one for the locus's.
const FREE: u32 = 31;

// The run of a script with 256 frames over the least image ends behind a step for want of so many blocks, and all calls of the disk were
// made before its last mark.
fn is_short_of(
    rt: &impl Abort,
    alloc: Global,
    script: Script,
    need: u32,
) -> Result<Ended<MemoryDisk>, Fail>
    requires script { IsScript (tables_of script) }
{
    let script = with_frames(script, 256);
    let ended = run(alloc, formatted(alloc, 2600, 1000, &[])?, &script)?;
    let few = NoBlocks { need, free: FREE };
    assert!(rt; ended.stopped == Some(Stopped::NoBlocks(few)));
    let mark = ended.marks.last().ok_or("a mark")?;
    assert!(rt; *mark == ended.disk.moments().saturating_sub(10));
    let entry = ended.history.last().ok_or("an entry")?;
    assert!(rt; entry.event == Event::Step);
    Ok(ended)
}

#[test]
fn a_snapshot_without_blocks_writes_nothing(rt: HostRuntime) -> Result<(), Fail> {
    let alloc = rt.alloc();
    let script = script_of(alloc, FORTY_PAGES)?;
    // Forty pages, and the container's blob, of two blocks.
    let ended = is_short_of(&rt, alloc, script, 42)?;
    let shown = shown_behind(alloc, ended)?;
    assert!(&rt; shown.as_str().ends_with("running 0 0 0 0 0 0 0 0 0\n"));
    Ok(())
}

#[test]
fn a_stable_without_blocks_writes_nothing(rt: HostRuntime) -> Result<(), Fail> {
    let alloc = rt.alloc();
    let script = script_of(alloc, FORTY_PAGES_STABLE)?;
    // Forty pages, the container's blob and the locus's.
    is_short_of(&rt, alloc, script, 43)?;
    Ok(())
}

#[test]
fn a_read_that_fails_is_told_as_one(rt: HostRuntime) -> Result<(), Fail> {
    let alloc = rt.alloc();
    let script = script_of(alloc, LOADS_BEHIND)?;
    let first = run_whole(alloc, formatted(alloc, 2600, 1000, &[])?, &script)?;
    let whole = run_whole(alloc, first.disk, &script)?;
    // The second run writes nothing, so the read of the page that is loaded is its last call.
    let disk = formatted(alloc, 2600, 1000, &[whole.disk.calls()])?;
    let first = run_whole(alloc, disk, &script)?;
    let mut own = opened(alloc, first.disk, &script)?;
    assert!(rt; own.step(Entity::of(41)) == Err(Stop::ReadFault));
    assert!(rt; own.kernel().history().is_empty());
    assert!(rt; own.births(alloc, &script) == Err(Unborn::Stopped(Stop::Shut)));
    goes_on_no_more(&rt, &mut own, &script, Stopped::ReadFault);
    Ok(())
}
