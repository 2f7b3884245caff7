//! Images opened: an empty one, one of a container and a locus with records that are abandoned, and one on a disk that fails.
use crate::images::{
    fault_of, formatted, is_body, is_of_three, number_in, opened, record, version_of,
    with_abandoned,
};
use crate::open_made;
use base_types::Entity;
use edge_disk::{DiskFault, MemoryDisk, Torn};
use edge_managers::{CountedWords, EveryVersions, Gate};
use open_kernel::open_image;
use std::alloc::Global;
use std::test::Fail;
use store_snapshots::OpenWhy;

#[test]
fn an_empty_image_has_nobody_to_snap(rt: HostRuntime) -> Result<(), Fail> {
    let mut kernel = opened(rt.alloc(), formatted(rt.alloc(), &[])?)?;
    assert!(rt; kernel.history().len() == 0);
    assert!(rt; kernel.marks().len() == 0);
    assert!(rt; kernel.stopped().is_none());
    assert!(rt; kernel.atlas().name(Entity::of(1)).is_none());
    assert!(rt; kernel.atlas().name(Entity::of(41)).is_none());
    let gate = Gate::new(CountedWords, EveryVersions);
    let made = kernel.snap(Entity::ATLAS, &gate);
    assert!(rt; made == Ok(false));
    assert!(rt; kernel.history().len() == 0);
    assert!(rt; kernel.marks().len() == 0);
    Ok(())
}

#[test]
fn an_image_is_made_and_opened(rt: HostRuntime) -> Result<(), Fail> {
    let disk = MemoryDisk::new(rt.alloc(), 2600, 250, Vec::new(rt.alloc()))?;
    assert!(rt; open_made(rt.alloc(), disk, 2600, 1).is_some());
    Ok(())
}

#[test]
fn what_the_chosen_records_tell_is_opened(rt: HostRuntime) -> Result<(), Fail> {
    let kernel = opened(rt.alloc(), with_abandoned(rt.alloc())?)?;
    assert!(rt; is_of_three(&kernel));
    assert!(rt; version_of(&kernel, 2) == Some(0));
    assert!(rt; kernel.history().len() == 0);
    Ok(())
}

#[test]
fn the_other_area_has_the_chosen_records_alone(rt: HostRuntime) -> Result<(), Fail> {
    let ended = opened(rt.alloc(), with_abandoned(rt.alloc())?)?.into_ended();
    let mut disk = ended.disk;
    // Area A's gate is closed, area B's is open with epoch 2; its slots begin at 1,285, and the fourth is closed.
    assert!(rt; number_in(&mut disk, 2)? == 0);
    assert!(rt; number_in(&mut disk, 3)? == 2);
    assert!(rt; number_in(&mut disk, 4)? == 1);
    assert!(rt; is_body(&mut disk, 1285, &record(Entity::ATLAS, 3, 9, 2566))?);
    assert!(rt; is_body(&mut disk, 1287, &record(Entity::of(1), 3, 27, 2565))?);
    assert!(rt; is_body(&mut disk, 1289, &record(Entity::of(41), 3, 77, 2567))?);
    assert!(rt; number_in(&mut disk, 1290)? == 1);
    assert!(rt; number_in(&mut disk, 1292)? == 0);
    Ok(())
}

// A stop at that moment leaves an image that is opened to the same.
fn is_same_behind(alloc: Global, disk: &MemoryDisk, moment: u64, torn: Torn) -> Result<bool, Fail> {
    if moment > disk.moments() {
        return Err(Fail::from("a moment to come"));
    }
    let kernel = opened(alloc, disk.crash(moment, torn)?)?;
    Ok(is_of_three(&kernel))
}

#[test]
fn a_stop_at_any_moment_leaves_the_same(rt: HostRuntime) -> Result<(), Fail> {
    let disk = with_abandoned(rt.alloc())?;
    // The sync of the opening is the next call behind those that made the image.
    let synced = disk.moments().saturating_add(1);
    let ended = opened(rt.alloc(), disk)?.into_ended();
    let disk = ended.disk;
    for moment in synced..=disk.moments() {
        for &torn in &[Torn::Old, Torn::New, Torn::Fill(1)] {
            assert!(rt;
                is_same_behind(rt.alloc(), &disk, moment, torn)?,
                "moment {moment}"
            );
        }
    }
    Ok(())
}

#[test]
fn a_failing_disk_comes_back(rt: HostRuntime) -> Result<(), Fail> {
    // Ten calls make the image, the sync is the eleventh, and the first read of it comes behind.
    for &(failing, why) in &[(11, OpenWhy::WriteFault), (12, OpenWhy::ReadFault)] {
        let disk = formatted(rt.alloc(), &[failing])?;
        let fault = match open_image(rt.alloc(), disk, 1, 10) {
            Ok(_) => return Err(DiskFault.into()),
            Err(fault) => fault,
        };
        assert!(rt; fault.why == why, "call {failing}");
        assert!(rt; fault.disk.calls() == failing);
    }
    Ok(())
}

#[test]
fn each_call_of_an_opening_may_fail(rt: HostRuntime) -> Result<(), Fail> {
    let ended = opened(rt.alloc(), formatted(rt.alloc(), &[])?)?.into_ended();
    for failing in 11..=ended.disk.calls() {
        let disk = formatted(rt.alloc(), &[failing])?;
        let why = fault_of(rt.alloc(), disk);
        assert!(rt;
            why == Some(OpenWhy::WriteFault) || why == Some(OpenWhy::ReadFault),
            "call {failing}"
        );
    }
    Ok(())
}
