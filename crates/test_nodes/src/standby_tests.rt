// Shipments that come to a second node.
use crate::images::{answer, image, refusal, small_image, standby, used_in};
use crate::made::{atlas_at, container_from};
use edge_disk::{Disk, MemoryDisk, NoBlocks};
use node_shipments::Shipped;
use node_standby::{StandbyWhy, StoreFault};
use std::alloc::Global;
use std::test::Fail;
use store_facts::Bad;

// Delivers the atlas at so many versions, and gives the disk back with the count.
fn with_atlases<D: Disk + Drop>(alloc: Global, disk: D, many: u64) -> Result<(u64, D), Fail> {
    let mut second = standby(alloc, disk)?;
    for version in 1..=many {
        let shipped = atlas_at(alloc, version)?;
        let _answer = answer(&mut second, version, &shipped);
    }
    Ok((second.count(), second.into_disk()))
}

#[test]
fn a_log_that_is_full_is_turned(rt: HostRuntime) -> Result<(), Fail> {
    let image = image(rt.alloc(), 3_400, 6_000, &[])?;
    let (count, disk) = with_atlases(rt.alloc(), image, 700)?;
    // 640 records, the newest of them again in the other area, and 60 behind it
    assert!(rt; count == 700 && used_in(rt.alloc(), disk) == Some(61));
    Ok(())
}

// An image that says of itself that it has a block more than there are: 2,601 in its superblock.
fn cut_short(alloc: Global) -> Result<MemoryDisk, Fail> {
    let mut disk = small_image(alloc, &[])?;
    let mut block = [0; 1024];
    if disk.blocks() == 0 || disk.read(0, &mut block).is_err() {
        return Err("a superblock".into());
    }
    block[12] = 0x29;
    if disk.write(0, &block).is_err() {
        return Err("a superblock".into());
    }
    Ok(disk)
}

#[test]
fn an_image_that_is_not_empty_is_no_standby(rt: HostRuntime) -> Result<(), Fail> {
    for used in 1..=3 {
        let (_, disk) = with_atlases(rt.alloc(), small_image(rt.alloc(), &[])?, u64::from(used))?;
        assert!(rt; refusal(rt.alloc(), disk) == Some(StandbyWhy::NotEmpty { used }));
    }
    Ok(())
}

#[test]
fn a_disk_without_a_whole_image_is_foreign(rt: HostRuntime) -> Result<(), Fail> {
    let empty = MemoryDisk::new(rt.alloc(), 2_600, 10, Vec::new(rt.alloc()))?;
    let none = Bad { block: 0, place: 0 };
    assert!(rt; refusal(rt.alloc(), empty) == Some(StandbyWhy::Foreign(none)));
    let short = Bad {
        block: 0,
        place: 12,
    };
    assert!(rt; refusal(rt.alloc(), cut_short(rt.alloc())?) == Some(StandbyWhy::Foreign(short)));
    Ok(())
}

// What is answered to a container of so many pages, and how many writes and syncs the disk has seen then.
fn answer_to_pages(
    alloc: Global,
    pages: u8,
) -> Result<(Option<Result<u64, StoreFault>>, u64), Fail> {
    let container = container_from(alloc, 0, pages)?;
    let mut second = standby(alloc, small_image(alloc, &[])?)?;
    let answer = answer(&mut second, 1, &container);
    Ok((answer, second.into_disk().moments()))
}

#[test]
fn one_block_too_few_is_told_before_the_first_write(rt: HostRuntime) -> Result<(), Fail> {
    // 35 pages and a block of the blob, where 35 blocks are free
    let few = NoBlocks { need: 36, free: 35 };
    let (answer, moments) = answer_to_pages(rt.alloc(), 35)?;
    assert!(rt; answer == Some(Err(StoreFault::NoBlocks(few))));
    // ten calls made the image, and one sync opened it
    assert!(rt; moments == 11);
    // one page less is taken
    let (answer, _) = answer_to_pages(rt.alloc(), 34)?;
    assert!(rt; answer == Some(Ok(1)));
    Ok(())
}

// How many calls a disk has seen when a standby is opened over it, and when that took a shipment.
fn calls_of(alloc: Global, shipped: &Shipped) -> Result<(u64, u64), Fail> {
    let opened = standby(alloc, small_image(alloc, &[])?)?
        .into_disk()
        .calls();
    let mut second = standby(alloc, small_image(alloc, &[])?)?;
    let _answer = answer(&mut second, 1, shipped);
    Ok((opened, second.into_disk().calls()))
}

// Whether the first shipment is not taken, and the standby is shut from then on, but answers any other number.
fn is_shut_by<D: Disk + Drop>(alloc: Global, disk: D, shipped: &Shipped) -> Result<bool, Fail> {
    let mut second = standby(alloc, disk)?;
    let first = answer(&mut second, 1, shipped);
    let again = answer(&mut second, 1, shipped);
    let other = answer(&mut second, 2, shipped);
    let failed = first == Some(Err(StoreFault::WriteFault));
    Ok(failed && again == Some(Err(StoreFault::Shut)) && other == Some(Ok(0)))
}

#[test]
fn a_call_that_fails_shuts_the_standby(rt: HostRuntime) -> Result<(), Fail> {
    let container = container_from(rt.alloc(), 0, 2)?;
    let (opened, last) = calls_of(rt.alloc(), &container)?;
    assert!(rt; opened < last);
    for before in opened..last {
        let disk = small_image(rt.alloc(), &[before + 1])?;
        assert!(rt;
            is_shut_by(rt.alloc(), disk, &container)?,
            "behind {before}"
        );
    }
    Ok(())
}
