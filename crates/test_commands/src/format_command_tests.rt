//! Empty images made by the command, and disks that are too small or fail.
use command_format::format_image;
use command_outcomes::{Outcome, Status};
use edge_disk::{Disk, MemoryDisk};
use edge_streams::MemorySink;
use std::alloc::Global;
use std::test::Fail;

// Formats 2,600 blocks on a disk of so many, of which the calls of these numbers fail.
fn format(
    alloc: Global,
    blocks: u32,
    fails: &[u64],
) -> Result<(Outcome<MemoryDisk>, MemorySink), Fail> {
    let mut sink = MemorySink::new(alloc, 100, Vec::new(alloc))?;
    let disk = MemoryDisk::new(alloc, blocks, 20, fails.to_vec(alloc)?)?;
    let outcome = format_image(alloc, 2600, &mut sink, disk);
    Ok((outcome, sink))
}

#[test]
fn an_image_is_made(rt: HostRuntime) -> Result<(), Fail> {
    let (outcome, sink) = format(rt.alloc(), 2700, &[])?;
    assert!(rt; outcome.status.number() == 0);
    assert!(rt; outcome.history.is_empty() && outcome.marks.is_empty());
    assert!(rt; sink.held() == b"".as_slice());
    assert!(rt; outcome.disk.moments() == 10);
    Ok(())
}

#[test]
fn a_small_disk_is_left_alone(rt: HostRuntime) -> Result<(), Fail> {
    let (outcome, sink) = format(rt.alloc(), 2599, &[1])?;
    assert!(rt; matches!(outcome.status, Status::BlocksFull(_)));
    assert!(rt; sink.held() == b"fault 9 2600 2599\n".as_slice());
    assert!(rt; outcome.disk.calls() == 0);
    Ok(())
}

#[test]
fn each_call_that_fails_is_told(rt: HostRuntime) -> Result<(), Fail> {
    for failing in 1..=10 {
        let (outcome, sink) = format(rt.alloc(), 2600, &[failing])?;
        assert!(rt; outcome.status.number() == 5);
        assert!(rt; sink.held() == b"fault 5 disk\n".as_slice());
        assert!(rt; outcome.disk.calls() == failing);
    }
    Ok(())
}
