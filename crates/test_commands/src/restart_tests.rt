use edge_disk::{Disk, DiskFault, MemoryDisk, NoBlocks};
use image_format::{FormatWhy, format};
use std::test::Fail;

#[test]
fn an_empty_image_begins_with_its_superblock(rt: HostRuntime) -> Result<(), Fail> {
    let disk = MemoryDisk::new(rt.alloc(), 4096, 20, Vec::new(rt.alloc()))?;
    let mut disk = match format(disk, 4096) {
        Ok(disk) => disk,
        Err(_) => return Err(DiskFault.into()),
    };
    let mut block = [0; 1024];
    if disk.blocks() == 0 {
        return Err(DiskFault.into());
    }
    disk.read(0, &mut block)?;
    let expected = [
        0x47, 0x52, 0x41, 0x53, 0x53, 0x48, 0x4f, 0x50, 0x01, 0, 0, 0, 0, 0x10, 0, 0,
    ];
    assert!(rt; block[..16] == expected[..]);
    Ok(())
}

#[test]
fn a_disk_of_too_few_blocks_is_left_alone(rt: HostRuntime) -> Result<(), Fail> {
    let disk = MemoryDisk::new(rt.alloc(), 3000, 20, Vec::new(rt.alloc()))?;
    let fault = match format(disk, 4096) {
        Ok(_) => return Err(DiskFault.into()),
        Err(fault) => fault,
    };
    let small = NoBlocks {
        need: 4096,
        free: 3000,
    };
    assert!(rt; fault.why == FormatWhy::Small(small));
    assert!(rt; fault.disk.moments() == 0);
    Ok(())
}
