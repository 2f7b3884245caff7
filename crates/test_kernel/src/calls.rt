//! What the tests call.
ghost use Rattle.std.specs.Prelude.{◌≤◌};
ghost use Rattle.image_blocks.specs.image_facts.Layout.{least_blocks, most_blocks};
ghost use Rattle.script_types.specs.Rules.{IsScript};
ghost use Rattle.script_types.specs.Scripts.{tables_of};

use crate::own::OwnKernel;
use crate::scripts::names_of;
use base_types::{Entity, Entry};
use edge_disk::{DiskFault, MemoryDisk};
use edge_streams::MemorySink;
use image_format::format;
use image_reading::{ImageFacts, write_report};
use kernel_core::{Ended, Stop};
use line_text::NameLists;
use script_types::Script;
use std::alloc::Global;
use std::test::Fail;
use test_replays::text_of;

/// A disk with an empty image of so many blocks, made by its first ten calls, which keeps so many writes and syncs.
pub(crate) fn formatted(
    alloc: Global,
    blocks: u32,
    room: u32,
    fails: &[u64],
) -> Result<MemoryDisk, Fail>
    requires { (least_blocks ≤ blocks) × (blocks ≤ most_blocks) }
{
    let disk = MemoryDisk::new(alloc, blocks, room, fails.to_vec(alloc)?)?;
    match format(disk, blocks) {
        Ok(disk) => Ok(disk),
        Err(_) => Err(DiskFault.into()),
    }
}

/// The kernel of an image, for the runs of a script, if it is opened.
pub(crate) fn kernel_of(
    alloc: Global,
    disk: MemoryDisk,
    script: &Script,
) -> Option<OwnKernel<MemoryDisk>> {
    let (frames, steps) = (script.frames, script.steps);
    if frames == 0 || frames > 256 || steps > 40_000 {
        return None;
    }
    match OwnKernel::open(alloc, disk, frames, steps) {
        Ok(own) => Some(own),
        Err(_) => None,
    }
}

/// The same, where it is opened.
pub(crate) fn opened(
    alloc: Global,
    disk: MemoryDisk,
    script: &Script,
) -> Result<OwnKernel<MemoryDisk>, Fail> {
    let own = kernel_of(alloc, disk, script).ok_or("a kernel")?;
    Ok(own)
}

/// The births of a script, its picks, and rounds to the end, as far as the kernel comes.
pub(crate) fn play_out(alloc: Global, own: &mut OwnKernel<MemoryDisk>, script: &Script)
    requires { IsScript (tables_of script.now) }
{
    if own.births(alloc, script).is_ok() && own.play(script).is_ok() {
        let _ = own.finish();
    }
}

/// What that leaves of the image on a disk.
pub(crate) fn run(
    alloc: Global,
    disk: MemoryDisk,
    script: &Script,
) -> Result<Ended<MemoryDisk>, Fail>
    requires script { IsScript (tables_of script.now) }
{
    let mut own = opened(alloc, disk, script)?;
    play_out(alloc, &mut own, script);
    Ok(own.into_ended())
}

/// The same, to the end.
pub(crate) fn run_whole(
    alloc: Global,
    disk: MemoryDisk,
    script: &Script,
) -> Result<Ended<MemoryDisk>, Fail>
    requires script { IsScript (tables_of script.now) }
{
    let ended = run(alloc, disk, script)?;
    match ended.stopped {
        None => Ok(ended),
        Some(_) => Err(Fail::from("a whole run")),
    }
}

/// The lines of a history of these containers and loci.
pub(crate) fn trace(
    alloc: Global,
    history: &[Entry],
    containers: &[&str],
    loci: &[&str],
) -> Result<String, Fail> {
    let containers = names_of(alloc, containers)?;
    let loci = names_of(alloc, loci)?;
    let names = NameLists {
        containers: &containers,
        loci: &loci,
    };
    if !names.are_short() {
        return Err(Fail::from("short names"));
    }
    let mut sink = MemorySink::new(alloc, 400_000, Vec::new(alloc))?;
    line_entries::put_trace(&mut sink, &names, history)?;
    text_of(alloc, &sink)
}

/// The report of an image.
pub(crate) fn reported(alloc: Global, facts: &ImageFacts) -> Result<String, Fail> {
    let mut sink = MemorySink::new(alloc, 40_000, Vec::new(alloc))?;
    write_report(&mut sink, facts)?;
    text_of(alloc, &sink)
}

/// So many rounds over the loci. Whether no fault stopped the kernel.
pub(crate) fn step_rounds(own: &mut OwnKernel<MemoryDisk>, rounds: u32) -> bool {
    for look in 0..rounds.saturating_mul(23) {
        let number = 41 + (look % 23) as u8;
        match own.step(Entity::of(number)) {
            Ok(_) | Err(Stop::Idle(_)) => {}
            Err(_) => return false,
        }
    }
    true
}
