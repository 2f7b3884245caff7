//! Images shown and reported: an empty one, and one as a first run leaves it; a disk without an image; reads and puts that fail.
use base_types::{Entity, Rec};
use command_outcomes::Outcome;
use command_show::{report_image, show_image};
use edge_disk::{Disk, DiskFault, MemoryDisk};
use edge_streams::MemorySink;
use image_blocks::{body_block, closed_gate, header_block, open_gate, superblock};
use std::alloc::Global;
use std::test::Fail;

/// Names a container `a` and a locus `l`.
const ATLAS: [u8; 9] = [0, 1, 1, 0x61, 1, 1, 0x6c, 0, 0];

/// One page, in the block 2,568.
const CONTAINER: [u8; 23] = [
    1, 1, 0, 0, 0, 0, 0, 0, 0, 0, 0, 0, 0, 0, 0, 255, 0, 0, 0, 8, 10, 0, 0,
];

/// A page whose word 3 is 5.
const PAGE: [u8; 25] = [
    0, 0, 0, 0, 0, 0, 0, 0, 0, 0, 0, 0, 0, 0, 0, 0, 0, 0, 0, 0, 0, 0, 0, 0, 5,
];

// A locus without code, in the container 1.
fn locus() -> [u8; 77] {
    let mut bytes = [0; 77];
    bytes[0] = 2;
    bytes[6] = 1;
    bytes
}

// Writes bytes at the front of a block, where there is one.
fn put(disk: &mut MemoryDisk, at: u32, bytes: &[u8]) -> Result<(), DiskFault> {
    let mut block = [0; 1024];
    if at >= disk.blocks() || bytes.len() > 1024 {
        return Err(DiskFault);
    }
    block[..bytes.len()].copy_from_slice(bytes);
    disk.write(at, &block)
}

// A disk of 2,600 blocks with an image that has no record, made by the calls 1 to 3.
fn image(alloc: Global, fails: &[u64]) -> Result<MemoryDisk, Fail> {
    let mut disk = MemoryDisk::new(alloc, 2600, 40, fails.to_vec(alloc)?)?;
    put(&mut disk, 0, &superblock(2600))?;
    put(&mut disk, 1, &header_block(1))?;
    put(&mut disk, 2, &open_gate())?;
    Ok(disk)
}

// A record of the birth that touched the atlas at 2, the container at 2 and the locus at 1; its blob is in this block.
fn record(entity: Entity, version: u64, length: u32, block: u32) -> Rec {
    let mut stamp = [0; 64];
    stamp[0] = 2;
    stamp[1] = 2;
    stamp[41] = 1;
    Rec {
        entity,
        version,
        stamp,
        length,
        blocks: [block, 0, 0, 0, 0, 0, 0, 0],
    }
}

// The same disk once a run has turned its log into the area B and kept its births.
fn image_of_births(alloc: Global) -> Result<MemoryDisk, Fail> {
    let mut disk = image(alloc, &[])?;
    put(&mut disk, 2, &closed_gate())?;
    put(&mut disk, 3, &header_block(2))?;
    put(&mut disk, 4, &open_gate())?;
    let records = [
        record(Entity::ATLAS, 2, 9, 2565),
        record(Entity::of(1), 2, 23, 2566),
        record(Entity::of(41), 1, 77, 2567),
    ];
    for (body, record) in [1285, 1287, 1289].iter().zip(records.iter()) {
        put(&mut disk, *body, &body_block(record))?;
        put(&mut disk, *body + 1, &open_gate())?;
    }
    put(&mut disk, 2565, &ATLAS)?;
    put(&mut disk, 2566, &CONTAINER)?;
    put(&mut disk, 2567, &locus())?;
    put(&mut disk, 2568, &PAGE)?;
    Ok(disk)
}

fn show(alloc: Global, sink: &mut MemorySink, disk: MemoryDisk) -> Outcome<MemoryDisk> {
    show_image(alloc, sink, disk, &|tag, _, _| tag)
}

fn report(alloc: Global, sink: &mut MemorySink, disk: MemoryDisk) -> Outcome<MemoryDisk> {
    report_image(alloc, sink, disk, &|tag, _, _| tag)
}

#[test]
fn an_empty_image_shows_nothing(rt: HostRuntime) -> Result<(), Fail> {
    let mut sink = MemorySink::new(rt.alloc(), 100, Vec::new(rt.alloc()))?;
    let outcome = show(rt.alloc(), &mut sink, image(rt.alloc(), &[])?);
    assert!(rt; outcome.status.number() == 0);
    assert!(rt; sink.held() == b"".as_slice());
    assert!(rt; outcome.disk.moments() == 3);
    Ok(())
}

#[test]
fn an_empty_image_is_reported(rt: HostRuntime) -> Result<(), Fail> {
    let mut sink = MemorySink::new(rt.alloc(), 100, Vec::new(rt.alloc()))?;
    let outcome = report(rt.alloc(), &mut sink, image(rt.alloc(), &[])?);
    assert!(rt; outcome.status.number() == 0);
    assert!(rt; sink.held() == b"area A epoch 1 used 0\n".as_slice());
    assert!(rt; outcome.disk.moments() == 3);
    Ok(())
}

#[test]
fn what_a_first_run_left_is_shown(rt: HostRuntime) -> Result<(), Fail> {
    let mut sink = MemorySink::new(rt.alloc(), 200, Vec::new(rt.alloc()))?;
    let outcome = show(rt.alloc(), &mut sink, image_of_births(rt.alloc())?);
    assert!(rt; outcome.status.number() == 0);
    let text =
        b"container a 1 0 0 -\nword a 3 5\nlocus l a 0 running 0 0 0 0 0 0 0 0 0\n".as_slice();
    assert!(rt; sink.held() == text);
    Ok(())
}

#[test]
fn the_log_of_a_first_run_is_reported(rt: HostRuntime) -> Result<(), Fail> {
    let mut sink = MemorySink::new(rt.alloc(), 200, Vec::new(rt.alloc()))?;
    let outcome = report(rt.alloc(), &mut sink, image_of_births(rt.alloc())?);
    assert!(rt; outcome.status.number() == 0);
    let text =
        b"area B epoch 2 used 3\nrec 0 0 2 chosen\nrec 1 1 2 chosen\nrec 2 41 1 chosen\ncut 0 2\ncut 1 2\ncut 41 1\n".as_slice();
    assert!(rt; sink.held() == text);
    Ok(())
}

#[test]
fn a_disk_without_an_image_is_foreign(rt: HostRuntime) -> Result<(), Fail> {
    let mut sink = MemorySink::new(rt.alloc(), 100, Vec::new(rt.alloc()))?;
    let disk = MemoryDisk::new(rt.alloc(), 2600, 40, Vec::new(rt.alloc()))?;
    let outcome = show(rt.alloc(), &mut sink, disk);
    assert!(rt; outcome.status.number() == 4);
    let outcome = report(rt.alloc(), &mut sink, outcome.disk);
    assert!(rt; outcome.status.number() == 4);
    assert!(rt; sink.held() == b"fault 4 0 0\nfault 4 0 0\n".as_slice());
    Ok(())
}

#[test]
fn a_read_that_fails_is_told(rt: HostRuntime) -> Result<(), Fail> {
    let mut sink = MemorySink::new(rt.alloc(), 100, Vec::new(rt.alloc()))?;
    let outcome = show(rt.alloc(), &mut sink, image(rt.alloc(), &[4])?);
    assert!(rt; outcome.status.number() == 5);
    assert!(rt; sink.held() == b"fault 5 disk\n".as_slice());
    Ok(())
}

#[test]
fn a_put_that_fails_leaves_the_lines_before_it(rt: HostRuntime) -> Result<(), Fail> {
    let mut fails = Vec::new(rt.alloc());
    fails.push(3)?;
    let mut sink = MemorySink::new(rt.alloc(), 200, fails)?;
    let outcome = report(rt.alloc(), &mut sink, image_of_births(rt.alloc())?);
    assert!(rt; outcome.status.number() == 7);
    assert!(rt; sink.held() == b"area B epoch 2 used 3\nrec 0 0 2 chosen\n".as_slice());
    Ok(())
}
