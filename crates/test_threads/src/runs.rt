//! The same rounds over a kernel that owns its cells and over one whose cells lie under locks.
ghost use Rattle.std.specs.Prelude.{◌≡◌, ◌≤◌, [], true, IfSome};
ghost use Rattle.edge_disk.specs.MemoryDisk.{memory_disks};
ghost use Rattle.edge_managers.specs.Managers.{counted_word};
ghost use Rattle.image_blocks.specs.image_facts.Layout.{least_blocks, most_blocks};
ghost use Rattle.thread_looks.specs.kernel_core.kernel_core_facts.Kernels.{StaysClean};
ghost use Rattle.thread_looks.specs.kernel_core.table_births.Births.{atlas_state_in};
ghost use Rattle.script_fits.specs.model_births.Fitting.{Fits};
ghost use Rattle.script_types.specs.Rules.{IsScript};
ghost use Rattle.script_types.specs.Scripts.{tables_of};

use crate::kinds::Kinds;
use base_types::{Entity, Entry};
use edge_disk::{Disk, DiskFault, MemoryDisk};
use edge_managers::{CountedWords, EveryVersions, Gate};
use image_format::format;
use open_kernel::open_image;
use script_fits::against;
use script_types::Script;
use std::alloc::Global;
use std::marker::Brand;
use std::process::Abort;
use std::sync::Wait;
use std::test::Fail;
use thread_clients::LentKernel;
use thread_history::{OpenedHistory, Run};
use thread_looks::{Cell, Ended, Kernel, Looked, Stop};
use thread_ties::{Bond, Opened};

/// A disk with an empty image of so many blocks, made by its first ten calls, where these calls fail.
pub(crate) fn formatted(alloc: Global, blocks: u32, fails: &[u64]) -> Result<MemoryDisk, Fail>
    requires { (least_blocks ≤ blocks) × (blocks ≤ most_blocks) }
{
    let disk = MemoryDisk::new(alloc, blocks, 4000, fails.to_vec(alloc)?)?;
    match format(disk, blocks) {
        Ok(disk) => Ok(disk),
        Err(_) => Err(DiskFault.into()),
    }
}

/// Whether the births of a script may be made: no entry was, and the script fits the names that are born.
fn may_bear<D: Disk>(alloc: Global, kernel: &Kernel<D>, script: &Script) -> bool
    ensures first { result ≡ true → kernel.now.parts.noted.entries ≡ [] }
    ensures fits { result ≡ true → Fits (atlas_state_in kernel.now.parts.cells) (tables_of script.now) }
{
    if !kernel.history().is_empty() || kernel.cells().is_empty() {
        return false;
    }
    against(alloc, script, kernel.atlas()).is_ok()
}

/// The kernel of the image on a disk, behind the births of a script, which may have stopped it.
pub(crate) fn born(alloc: Global, disk: MemoryDisk, script: &Script) -> Option<Kernel<MemoryDisk>>
    requires { IsScript (tables_of script.now) }
    ensures { IfSome result (StaysClean memory_disks counted_word) }
{
    if script.frames == 0 || script.frames > 256 || script.steps > 40_000 {
        return None;
    }
    let Ok(mut kernel) = open_image(alloc, disk, script.frames, script.steps) else {
        return None;
    };
    if !may_bear(alloc, &kernel, script) {
        return None;
    }
    let _ = kernel.births(script);
    Some(kernel)
}

/// So many looks at each locus in turn, unless the kernel stops.
fn looked_at(mut kernel: Kernel<MemoryDisk>, rounds: u32) -> Kernel<MemoryDisk>
    requires clean { StaysClean memory_disks counted_word kernel }
{
    let gate = Gate::new(CountedWords, EveryVersions);
    for look in 0..rounds.saturating_mul(23) {
        let number = 41 + (look % 23) as u8;
        match kernel.step(Entity::of(number), &gate) {
            Ok(_) | Err(Stop::Idle(_)) => {}
            Err(_) => return kernel,
        }
    }
    kernel
}

/// The same under locks, with the kinds of its steps; none where a look was not made.
fn looked_at_under_locks<B: Bond<Cell> + Run<Entry>, R: Wait>(
    rt: &R,
    alloc: Global,
    mut kernel: LentKernel<MemoryDisk, B>,
    rounds: u32,
) -> Option<(LentKernel<MemoryDisk, B>, Kinds)>
    requires clean { StaysClean memory_disks counted_word kernel }
{
    let gate = Gate::new(CountedWords, EveryVersions);
    let mut kinds = Kinds::none();
    for look in 0..rounds.saturating_mul(23) {
        let number = 41 + (look % 23) as u8;
        match kernel.look(rt, alloc, Entity::of(number), &gate)? {
            Ok(Looked::Made(made)) => kinds.add(made.instr, &made.entry),
            Ok(Looked::Idle(_)) => {}
            Err(_) => return Some((kernel, kinds)),
        }
    }
    Some((kernel, kinds))
}

/// A kernel taken apart, its cells under locks, so many rounds, and the kernel put together, with the kinds of its steps.
fn rounds_under_locks<B: Bond<Cell> + Run<Entry>, R: Wait>(
    rt: &R,
    alloc: Global,
    kernel: Kernel<MemoryDisk>,
    ties: Opened<Cell>,
    history: OpenedHistory<Entry>,
    rounds: u32,
) -> Option<(Kernel<MemoryDisk>, Kinds)>
    requires ties { (ties.table ≡ B.values_table) × (B.first_values ≡ kernel.parts.cells) }
    requires run { (history.table ≡ B.table) × (history.kept ≡ B.kept) }
    requires clean { StaysClean memory_disks counted_word kernel }
{
    let Ok(lent) = LentKernel::<MemoryDisk, B>::of(alloc, kernel, ties, history) else {
        return None;
    };
    let (lent, kinds) = looked_at_under_locks(rt, alloc, lent, rounds)?;
    Some((lent.together(alloc)?, kinds))
}

/// A kernel taken apart, its cells under locks, a look at each of these loci, and the kernel put together, with the number of looks.
fn turns_under_locks<B: Bond<Cell> + Run<Entry>, R: Wait>(
    rt: &R,
    alloc: Global,
    kernel: Kernel<MemoryDisk>,
    ties: Opened<Cell>,
    history: OpenedHistory<Entry>,
    turns: &[Entity],
) -> Option<(Kernel<MemoryDisk>, usize)>
    requires ties { (ties.table ≡ B.values_table) × (B.first_values ≡ kernel.parts.cells) }
    requires run { (history.table ≡ B.table) × (history.kept ≡ B.kept) }
    requires clean { StaysClean memory_disks counted_word kernel }
{
    let Ok(mut lent) = LentKernel::<MemoryDisk, B>::of(alloc, kernel, ties, history) else {
        return None;
    };
    let gate = Gate::new(CountedWords, EveryVersions);
    let made = lent.look_at_each(rt, alloc, turns, &gate);
    Some((lent.together(alloc)?, made))
}

/// What so many rounds leave of the image on a disk, by a kernel that owns its cells.
pub(crate) fn owned(
    alloc: Global,
    disk: MemoryDisk,
    script: &Script,
    rounds: u32,
) -> Result<Ended<MemoryDisk>, Fail>
    requires script { IsScript (tables_of script.now) }
{
    let kernel = born(alloc, disk, script).ok_or("a kernel")?;
    Ok(looked_at(kernel, rounds).into_ended())
}

/// The same by one whose cells lie under locks, with the kinds of its steps.
pub(crate) fn lent<R: Wait>(
    rt: &R,
    alloc: Global,
    disk: MemoryDisk,
    script: &Script,
    rounds: u32,
) -> Result<(Ended<MemoryDisk>, Kinds), Fail>
    requires script { IsScript (tables_of script.now) }
{
    let kernel = born(alloc, disk, script).ok_or("a kernel")?;
    let ties = Opened::new(alloc)?;
    let history = OpenedHistory::new(alloc, &Vec::new(alloc))?;
    let left = rounds_under_locks::<Brand, R>(rt, alloc, kernel, ties, history, rounds);
    let (kernel, kinds) = left.ok_or("each look")?;
    Ok((kernel.into_ended(), kinds))
}

/// What a look at each of these loci leaves of the image on a disk, where the cells lie under locks, with the number of looks.
pub(crate) fn lent_in_turn<R: Wait>(
    rt: &R,
    alloc: Global,
    disk: MemoryDisk,
    script: &Script,
    turns: &[Entity],
) -> Result<(Ended<MemoryDisk>, usize), Fail>
    requires script { IsScript (tables_of script.now) }
{
    let kernel = born(alloc, disk, script).ok_or("a kernel")?;
    let ties = Opened::new(alloc)?;
    let history = OpenedHistory::new(alloc, &Vec::new(alloc))?;
    let left = turns_under_locks::<Brand, R>(rt, alloc, kernel, ties, history, turns);
    let (kernel, made) = left.ok_or("the kernel put together")?;
    Ok((kernel.into_ended(), made))
}

/// So many rounds on equal disks leave the same history, marks, stop and disk; it tells the kinds of the steps, too.
pub(crate) fn runs_the_same<R: Abort + Wait>(
    rt: &R,
    alloc: Global,
    script: &Script,
    disks: (MemoryDisk, MemoryDisk),
    rounds: u32,
) -> Result<(Ended<MemoryDisk>, Kinds), Fail>
    requires script { IsScript (tables_of script.now) }
{
    let (one, other) = disks;
    let owned = owned(alloc, one, script, rounds)?;
    let (lent, kinds) = lent(rt, alloc, other, script, rounds)?;
    assert!(rt; lent.history == owned.history);
    assert!(rt; lent.marks == owned.marks);
    assert!(rt; lent.stopped == owned.stopped);
    assert!(rt; lent.disk.calls() == owned.disk.calls());
    assert!(rt; lent.disk.moments() == owned.disk.moments());
    Ok((lent, kinds))
}

/// Two disks with empty images, where these calls fail.
pub(crate) fn two(
    alloc: Global,
    blocks: u32,
    fails: &[u64],
) -> Result<(MemoryDisk, MemoryDisk), Fail>
    requires { (least_blocks ≤ blocks) × (blocks ≤ most_blocks) }
{
    Ok((
        formatted(alloc, blocks, fails)?,
        formatted(alloc, blocks, fails)?,
    ))
}
