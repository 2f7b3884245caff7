//! The same looks by a kernel that owns its cells.
use crate::boards::{Left, on_board};
use crate::cases::Case;
use crate::looks::Look;
use crate::plain::is_plain;
use crate::quiet_disk::QuietDisk;
use crate::workers::Work;
use base_types::{Entity, Entry, Event};
use edge_disk::Disk;
use edge_managers::{CountedWords, EveryVersions, Gate};
use kernel_core::{Ended, Kernel};
use open_kernel::open_image;
use std::alloc::Global;
use std::process::Abort;
use std::sync::Wait;
use std::test::Fail;
use std::thread::Threads;
use thread_workers::StepGate;

/// What a kernel leaves that owns its cells, where it looks at the loci of a history's steps in their order; and then at this one, where it goes on
/// though the history's kernel has stopped.
fn made_again(
    mut kernel: Kernel<QuietDisk>,
    ended: &Ended<QuietDisk>,
    last: Entity,
) -> Ended<QuietDisk> {
    let gate = Gate::new(CountedWords, EveryVersions);
    for entry in ended.history.as_slice() {
        if entry.event == Event::Step {
            let _ = kernel.step(entry.actor, &gate);
        }
    }
    if ended.stopped.is_some() && kernel.stopped().is_none() {
        let _ = kernel.step(last, &gate);
    }
    kernel.into_ended()
}

/// Whether both left the same history, marks and stop, by as many calls of the disk.
fn are_same(one: &Ended<QuietDisk>, other: &Ended<QuietDisk>) -> bool {
    one.history == other.history
        && one.marks == other.marks
        && one.stopped == other.stopped
        && one.disk.memory.calls() == other.disk.memory.calls()
        && one.disk.memory.moments() == other.disk.memory.moments()
}

/// A block of a disk; none where it isn't read.
fn block_of(disk: &mut QuietDisk, at: u32) -> Option<[u8; 1024]> {
    let mut block = [0; 1024];
    if disk.memory.blocks() <= at || disk.memory.read(at, &mut block).is_err() {
        return None;
    }
    Some(block)
}

/// Whether two disks have the same blocks.
fn have_same_blocks(one: &mut QuietDisk, other: &mut QuietDisk) -> bool {
    let blocks = one.memory.blocks();
    if other.memory.blocks() != blocks {
        return false;
    }
    for at in 0..blocks {
        if block_of(one, at) != block_of(other, at) {
            return false;
        }
    }
    true
}

/// What a board left is what a kernel leaves that owns its cells and looks at the same loci in the same order: history, marks, stop and disk, whose
/// image opens. A look at which the kernel stopped, and which made no step, is told by no entry: it is one at a locus of the script.
fn is_serial<R: Abort>(
    rt: &R,
    alloc: Global,
    case: &Case,
    fails: &[u64],
    left: &mut Left,
) -> Result<(), Fail> {
    for last in [41_u8, 42] {
        let kernel = case.kernel(alloc, fails)?;
        let mut again = made_again(kernel, &left.ended, Entity::of(last));
        if are_same(&left.ended, &again) {
            assert!(rt; have_same_blocks(&mut left.ended.disk, &mut again.disk));
            assert!(rt; open_image(alloc, again.disk, 1, 40).is_ok());
            return Ok(());
        }
    }
    Err("a run of a kernel that owns its cells".into())
}

/// Whether a step of the locus stands at this place.
fn stands_at(history: &[Entry], place: usize, locus: Entity) -> bool {
    match history.get(place) {
        Some(entry) => entry.event == Event::Step && entry.actor == locus,
        None => false,
    }
}

/// The looks of a pass ascend. Each step that they tell is of their locus, stands at its place, and was told by no other.
fn tell<R: Abort>(rt: &R, looks: &[Look], history: &[Entry], told: &mut [bool]) {
    let mut next = 0;
    for look in looks {
        assert!(rt; next <= look.place);
        next = look.place;
        if look.has_step() {
            let place = look.place as usize;
            assert!(rt; place < told.len() && !told[place]);
            assert!(rt; stands_at(history, place, look.locus));
            told[place] = true;
            next = look.place.wrapping_add(1);
        }
    }
}

/// Each step of the history is told by one item, at its place.
fn are_told<R: Abort>(rt: &R, alloc: Global, left: &Left) -> Result<(), Fail> {
    let history = left.ended.history.as_slice();
    let mut told = Vec::new(alloc);
    told.resize(history.len(), false)?;
    for i in 0..left.items.len() {
        tell(rt, &left.items[i], history, &mut told);
    }
    for (entry, told) in history.iter().zip(told.as_slice()) {
        assert!(rt; *told == (entry.event == Event::Step));
    }
    Ok(())
}

/// What workers leave of a case, in whichever order they came to the locks: a legal history and what it makes, as a kernel leaves it that owns its cells.
pub(crate) fn worked<R: Abort + Threads + Wait + Sync, G: StepGate + Sync>(
    rt: &R,
    alloc: Global,
    case: &Case,
    fails: &[u64],
    gate: &G,
    work: Work<'_>,
) -> Result<Left, Fail> {
    let kernel = case.kernel(alloc, fails)?;
    let mut left = on_board(rt, alloc, kernel, gate, work)?;
    is_serial(rt, alloc, case, fails, &mut left)?;
    are_told(rt, alloc, &left)?;
    is_plain(rt, alloc, case, &mut left)?;
    Ok(left)
}
