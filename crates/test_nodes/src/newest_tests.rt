// The newest records of a kernel over an image that a second node kept.
use crate::images::{answer, small_image, standby};
use crate::made::{atlas_of_two, container_from, locus_in};
use crate::turned_disk::{Turn, TurnedDisk};
use base_types::Entity;
use edge_disk::Disk;
use node_newest::{ShipFault, newest};
use node_shipments::{PageWords, ShipPart, Shipped};
use open_kernel::{Kernel, Stopped, open_image};
use std::alloc::Global;
use std::test::Fail;

// The container and the locus that have a record, beside the atlas.
fn the_container() -> Entity {
    Entity::of(1)
}

fn the_locus() -> Entity {
    Entity::of(41)
}

// A kernel over the image of a standby that took the container `a` of three pages, all but the first with words, the atlas that names it, and a locus in
// it.
fn opened<D: Disk + Drop>(alloc: Global, disk: D) -> Result<Kernel<D>, Fail> {
    let mut second = standby(alloc, disk)?;
    let _container = answer(&mut second, 1, &container_from(alloc, 1, 3)?);
    let _atlas = answer(&mut second, 2, &atlas_of_two(alloc)?);
    let _locus = answer(&mut second, 3, &locus_in(alloc)?);
    Ok(
        open_image(alloc, second.into_disk(), 2, 9)
            .ok()
            .ok_or("a kernel")?,
    )
}

// Whether it has this entity and version, with a clock that has this version and, of the container, one more.
fn is_of(shipped: &Shipped, entity: Entity, version: u64, host: u64) -> bool {
    let mut stamp = [0; 64];
    stamp[1] = host;
    stamp[entity.number() as usize] = version;
    shipped.entity() == entity && shipped.version() == version && *shipped.stamp() == stamp
}

// Whether these are the pages 1 and 2 with the words of `container_from`.
fn are_from_one(pages: &[PageWords]) -> bool {
    match pages {
        [one, two] => {
            (one.page, two.page) == (1, 2) && one.words == [2; 128] && two.words == [3; 128]
        }
        _ => false,
    }
}

// Whether it is what the standby took of its entity.
fn is_as_taken(shipped: &Shipped) -> bool {
    match shipped.part() {
        ShipPart::Atlas(names) => {
            is_of(shipped, Entity::ATLAS, 1, 0)
                && shipped.pages().is_empty()
                && names.find("a") == Some(the_container())
                && names.find("l") == Some(the_locus())
        }
        ShipPart::Container(head) => {
            is_of(shipped, the_container(), 1, 1)
                && head.pages == 3
                && are_from_one(shipped.pages())
        }
        ShipPart::Locus(locus) => {
            is_of(shipped, the_locus(), 2, 1)
                && shipped.pages().is_empty()
                && locus.registers == [9, 0, 0, 0, 0, 0, 0, 0]
        }
    }
}

// How many of the 64 entities are shipped as they were taken, how many have no record, and how many are neither.
fn shipped_again<D: Disk + Drop>(alloc: Global, disk: D) -> Result<[u32; 3], Fail> {
    let mut kernel = opened(alloc, disk)?;
    let mut counts = [0u32; 3];
    for number in 0..64 {
        let entity = Entity::of(number);
        let kind = match newest(&mut kernel, alloc, entity) {
            Ok(Some(shipped)) if shipped.entity() == entity && is_as_taken(&shipped) => 0,
            Ok(None) => 1,
            _ => 2,
        };
        counts[kind] = counts[kind].saturating_add(1);
    }
    Ok(counts)
}

#[test]
fn what_a_standby_took_is_shipped_again_and_nothing_else(rt: HostRuntime) -> Result<(), Fail> {
    let disk = small_image(rt.alloc(), &[])?;
    assert!(rt; shipped_again(rt.alloc(), disk)? == [3, 61, 0]);
    Ok(())
}

// What came of an entity, of it again, and why the kernel has stopped then.
#[derive(Clone, Copy, PartialEq, Eq)]
struct Came {
    first: Option<ShipFault>,
    again: Option<ShipFault>,
    stopped: Option<Stopped>,
}

fn came_of<D: Disk + Drop>(alloc: Global, disk: D, entity: Entity) -> Result<Came, Fail> {
    let mut kernel = opened(alloc, disk)?;
    let first = newest(&mut kernel, alloc, entity).err();
    let again = newest(&mut kernel, alloc, entity).err();
    let stopped = kernel.stopped();
    Ok(Came {
        first,
        again,
        stopped,
    })
}

// How many calls the disk has seen when the kernel is opened.
fn calls_before(alloc: Global) -> Result<u64, Fail> {
    let kernel = opened(alloc, small_image(alloc, &[])?)?;
    Ok(kernel.into_ended().disk.calls())
}

// What comes of the container where that read fails, counted from 1 on: it has three, for its blob and two pages.
fn came_where_fails(alloc: Global, read: u64) -> Result<Came, Fail> {
    let failing = [calls_before(alloc)?.saturating_add(read)];
    came_of(alloc, small_image(alloc, &failing)?, the_container())
}

#[test]
fn a_read_that_fails_stops_the_kernel(rt: HostRuntime) -> Result<(), Fail> {
    let (fault, stop) = (Some(ShipFault::ReadFault), Some(Stopped::ReadFault));
    let shut = Some(ShipFault::Shut);
    for &(read, first, again, stopped) in &[
        (1, fault, shut, stop),
        (2, fault, shut, stop),
        (3, fault, shut, stop),
        (4, None, fault, stop),
        (7, None, None, None),
    ] {
        let came = came_where_fails(rt.alloc(), read)?;
        let want = Came {
            first,
            again,
            stopped,
        };
        assert!(rt; came == want, "at {read}");
    }
    Ok(())
}

// What comes of an entity where the first read for it, of its blob, has another byte at a place.
fn came_where_turned(alloc: Global, entity: Entity, place: u16, byte: u8) -> Result<Came, Fail> {
    let call = calls_before(alloc)?.saturating_add(1);
    let memory = small_image(alloc, &[])?;
    let turn = Turn { call, place, byte };
    came_of(alloc, TurnedDisk { memory, turn }, entity)
}

#[test]
fn bytes_that_are_no_spelling_are_told_as_memory(rt: HostRuntime) -> Result<(), Fail> {
    let memory = Some(ShipFault::Memory);
    // the kind of another entity, more pages than a blob tells of, a block of the superblock for a page that has none, one that no record names, and the
    // byte that is there
    for &(entity, place, byte, first) in &[
        (Entity::ATLAS, 0, 1, memory),
        (the_container(), 0, 2, memory),
        (the_locus(), 0, 0, memory),
        (the_container(), 1, 4, memory),
        (the_container(), 19, 1, memory),
        (the_container(), 24, 0xff, memory),
        (the_container(), 0, 1, None),
    ] {
        let came = came_where_turned(rt.alloc(), entity, place, byte)?;
        let want = Came {
            first,
            again: None,
            stopped: None,
        };
        assert!(rt; came == want, "{entity:?} at {place}");
    }
    Ok(())
}
