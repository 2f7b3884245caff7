use edge_disk::{Disk, DiskFault, MemoryDisk};
use edge_tally::Tally;
use std::test::Fail;

// Writes a block and syncs, counted, on a disk that has it.
fn write_and_sync(tally: &mut Tally, disk: &mut MemoryDisk) -> Result<(), DiskFault> {
    if disk.blocks() != 8 {
        return Err(DiskFault);
    }
    tally.write_and_sync(disk, 2, &[7; 1024])
}

// Writes a run of three blocks, counted, on a disk that has them.
fn write_run(tally: &mut Tally, disk: &mut MemoryDisk) -> Result<(), DiskFault> {
    if disk.blocks() != 8 {
        return Err(DiskFault);
    }
    tally.write_run(disk, 5, &[[1; 1024]; 3])
}

#[test]
fn failed_calls_are_counted_too(rt: HostRuntime) -> Result<(), Fail> {
    let fails = [3, 6].to_vec(rt.alloc())?;
    let mut disk = MemoryDisk::new(rt.alloc(), 8, 20, fails)?;
    let mut tally = Tally(0);
    if disk.blocks() != 8 {
        return Err(DiskFault.into());
    }
    assert!(rt; tally.write(&mut disk, 1, &[7; 1024]).is_ok() && tally.sync(&mut disk).is_ok());
    // The third call, a write, fails before its sync; the sixth is the second block of a run of three.
    assert!(rt; write_and_sync(&mut tally, &mut disk) == Err(DiskFault));
    assert!(rt; tally.0 == 3);
    assert!(rt; write_and_sync(&mut tally, &mut disk) == Ok(()));
    assert!(rt; write_run(&mut tally, &mut disk) == Err(DiskFault));
    assert!(rt; (tally.0, disk.moments()) == (6, 6));
    assert!(rt; write_run(&mut tally, &mut disk) == Ok(()));
    assert!(rt; tally.0 == disk.moments());
    Ok(())
}
