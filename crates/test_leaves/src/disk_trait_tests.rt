use edge_disk::{Disk, DiskFault, MemoryDisk, Torn, write_and_sync, write_run};
use std::alloc::{AllocError, Global};
use std::process::Abort;
use std::test::Fail;

// A disk of 2,700 blocks.
fn disk(alloc: Global, room: u32, fails: &[u64]) -> Result<MemoryDisk, AllocError> {
    MemoryDisk::new(alloc, 2700, room, fails.to_vec(alloc)?)
}

fn fill(disk: &mut MemoryDisk, at: u32, byte: u8) -> Result<(), DiskFault> {
    if at >= disk.blocks() {
        return Err(DiskFault);
    }
    disk.write(at, &[byte; 1024])
}

// The byte that fills a block, or 0xee where it holds several.
fn filling(disk: &mut MemoryDisk, at: u32) -> Result<u8, DiskFault> {
    let mut block = [0xee; 1024];
    if at >= disk.blocks() {
        return Err(DiskFault);
    }
    disk.read(at, &mut block)?;
    let first = block[0];
    Ok(if block.iter().all(|byte| *byte == first) {
        first
    } else {
        0xee
    })
}

fn stopped(disk: &MemoryDisk, moment: u64, torn: Torn) -> Result<MemoryDisk, AllocError> {
    if moment > disk.moments() {
        return Err(AllocError);
    }
    disk.crash(moment, torn)
}

// What fills blocks 1 and 2 of what a stop leaves, which has no write or sync so far.
fn blocks_left(
    rt: &impl Abort,
    disk: &MemoryDisk,
    moment: u64,
    torn: Torn,
) -> Result<(u8, u8), Fail> {
    let mut left = stopped(disk, moment, torn)?;
    let filled = (filling(&mut left, 1)?, filling(&mut left, 2)?);
    assert!(rt; (left.moments(), left.calls()) == (0, 2));
    Ok(filled)
}

#[test]
fn a_new_disk_is_zero_before_and_after_a_stop(rt: HostRuntime) -> Result<(), Fail> {
    let mut disk = MemoryDisk::new(rt.alloc(), 2700, 10, Vec::new(rt.alloc()))?;
    assert!(rt; disk.blocks() == 2700);
    assert!(rt; disk.moments() == 0);
    assert!(rt; disk.calls() == 0);
    let mut left = stopped(&disk, 0, Torn::Old)?;
    assert!(rt; left.blocks() == 2700);
    for &at in &[0, 1, 2699] {
        assert!(rt; filling(&mut disk, at) == Ok(0));
        assert!(rt; filling(&mut left, at) == Ok(0));
    }
    Ok(())
}

#[test]
fn a_stop_leaves_pending_blocks_torn(rt: HostRuntime) -> Result<(), Fail> {
    let mut disk = disk(rt.alloc(), 10, &[])?;
    fill(&mut disk, 1, 7).ok().ok_or("write")?;
    disk.sync().ok().ok_or("sync")?;
    fill(&mut disk, 1, 9).ok().ok_or("write")?;
    fill(&mut disk, 2, 5).ok().ok_or("write")?;
    assert!(rt; disk.moments() == 4);
    // The moment, and what blocks 1 and 2 hold where pending ones are old, new, or filled with 3.
    let table = [
        (0, [0, 0, 0], [0, 0, 0]),
        (1, [0, 7, 3], [0, 0, 0]),
        (2, [7, 7, 7], [0, 0, 0]),
        (3, [7, 9, 3], [0, 0, 0]),
        (4, [7, 9, 3], [0, 5, 3]),
    ];
    for &(moment, one, two) in &table {
        for (i, torn) in [Torn::Old, Torn::New, Torn::Fill(3)].iter().enumerate() {
            let left = blocks_left(&rt, &disk, moment, *torn)?;
            assert!(rt; left == (one[i], two[i]), "moment {moment}, {torn:?}");
        }
    }
    Ok(())
}

#[test]
fn calls_fail_by_their_number(rt: HostRuntime) -> Result<(), Fail> {
    let mut disk = disk(rt.alloc(), 10, &[1, 3, 4])?;
    assert!(rt; fill(&mut disk, 1, 7) == Err(DiskFault));
    assert!(rt; filling(&mut disk, 1) == Ok(0));
    assert!(rt; filling(&mut disk, 1) == Err(DiskFault));
    assert!(rt; disk.sync() == Err(DiskFault));
    assert!(rt; disk.moments() == 2);
    // The write that failed left its block pending, and so did the sync that failed.
    assert!(rt; blocks_left(&rt, &disk, 2, Torn::Fill(3))? == (3, 0));
    assert!(rt; blocks_left(&rt, &disk, 2, Torn::New)? == (0, 0));
    assert!(rt; disk.sync() == Ok(()));
    assert!(rt; blocks_left(&rt, &disk, 3, Torn::Fill(3))? == (0, 0));
    assert!(rt; disk.calls() == 5);
    Ok(())
}

#[test]
fn a_full_disk_refuses_writes_and_syncs(rt: HostRuntime) -> Result<(), Fail> {
    let mut disk = disk(rt.alloc(), 1, &[])?;
    assert!(rt; fill(&mut disk, 1, 7) == Ok(()));
    assert!(rt; fill(&mut disk, 2, 9) == Err(DiskFault));
    assert!(rt; disk.sync() == Err(DiskFault));
    assert!(rt; disk.moments() == 3);
    assert!(rt; filling(&mut disk, 1) == Ok(7));
    assert!(rt; filling(&mut disk, 2) == Ok(0));
    assert!(rt; blocks_left(&rt, &disk, 3, Torn::Fill(3))? == (3, 0));
    Ok(())
}

#[test]
fn stretches_write_what_they_are_given(rt: HostRuntime) -> Result<(), Fail> {
    let mut disk = disk(rt.alloc(), 10, &[])?;
    if disk.blocks() != 2700 {
        return Err(DiskFault.into());
    }
    write_run(&mut disk, 5, &[[1; 1024], [2; 1024]])
        .ok()
        .ok_or("run")?;
    write_and_sync(&mut disk, 7, &[3; 1024]).ok().ok_or("sync")?;
    let mut left = stopped(&disk, 4, Torn::Old)?;
    for at in 4..9 {
        let want = [0, 1, 2, 3, 0][at as usize - 4];
        assert!(rt; filling(&mut disk, at) == Ok(want));
        assert!(rt; filling(&mut left, at) == Ok(want));
    }
    Ok(())
}
