ghost use Rattle.std.specs.Prelude.{◌≡◌};

use act_alone::{Code, Head, Locus};
use base_bytes::Blob;
use base_types::{Call, Cap, Condition, Entity, Instr, Kind, Private, Region, Rights, Walk};
use blob_writing::{write_atlas, write_container, write_locus};
use data_atlas::Atlas;
use data_capabilities::CapList;
use data_regions::RegionMap;
use std::alloc::{AllocError, Global};
use std::test::Fail;

const REGION: Region = Region {
    at: 1,
    count: 1,
    target: Entity::ATLAS,
    from: 4,
    rights: Rights(3),
};

#[test]
fn an_atlas_of_two_names_has_9_bytes(rt: HostRuntime) -> Result<(), Fail> {
    let mut atlas = Atlas::new();
    let _container = atlas.birth(Some("a"), Kind::Container)?;
    let _locus = atlas.birth(Some("l"), Kind::Locus)?;
    let mut blob = Blob::new(rt.alloc())?;
    blob.push(77);
    write_atlas(&atlas, &mut blob);
    assert!(rt; blob.as_slice() == [0, 1, 1, 97, 1, 1, 108, 0, 0].as_slice());
    atlas.set_count(Entity::of(2), Entity::of(1), 16);
    write_atlas(&atlas, &mut blob);
    assert!(rt; blob.as_slice() == [0, 1, 1, 97, 1, 1, 108, 1, 0, 2, 1, 16].as_slice());
    Ok(())
}

/// A head of two pages with one instruction, a region, and a capability in slot 3.
fn head() -> Head
    ensures { result.pages ≡ 2 }
{
    let mut head = Head {
        pages: 2,
        tag: 258,
        every: 3,
        entry: Some(0),
        code: Code::new(&[Instr::Set(0, 5)]),
        regions: RegionMap::new(),
        caps: CapList::new(),
    };
    let _added = head.regions.add(REGION);
    let cap = Cap {
        entity: Entity::of(41),
        rights: Rights(9),
    };
    head.caps.set(3, Some(cap));
    head
}

const HEAD: [u8; 52] = [
    1, 2, 0, 2, 1, 0, 0, 0, 0, 0, 0, 3, 0, 0, 0, 0, 1, 0, 0, 0, 0, 0, 0, 0, 0, 5, 0, 0, 0, 0, 0, 0,
    0, 1, 1, 1, 0, 0, 4, 3, 1, 3, 41, 9, 5, 10, 0, 0, 0, 0, 0, 0,
];

#[test]
fn a_container_is_written_with_its_blocks(rt: HostRuntime) -> Result<(), Fail> {
    let mut pages = [0; 256];
    pages[0] = 2565;
    let mut blob = Blob::new(rt.alloc())?;
    write_container(&head(), &pages, &mut blob);
    assert!(rt; blob.as_slice() == HEAD.as_slice());
    Ok(())
}

/// A stopped locus with a call, a private region, a capability and a walk.
fn locus() -> Locus {
    let (one, two) = (Entity::of(1), Entity::of(2));
    let mut locus = Locus::new(one, 7, 2, &[Instr::Halt]);
    locus.registers[0] = 258;
    locus.condition = Condition::Stopped;
    locus.chain.push(Call {
        container: two,
        place: 128,
    });
    locus.privates.push(Private {
        made: one,
        region: REGION,
    });
    let cap = Cap {
        entity: two,
        rights: Rights(255),
    };
    locus.caps.set(0, Some(cap));
    locus.walk = Some(Walk {
        at: two,
        address: 300,
        hops: 1,
    });
    locus
}

/// What stands behind its registers, and behind what it printed.
const REST: [u8; 43] = [
    1, 25, 0, 0, 0, 0, 0, 0, 0, 0, 0, 0, 0, 0, 0, 0, 0, 1, 2, 128, 1, 1, 1, 1, 0, 0, 4, 3, 1, 0, 2,
    255, 1, 2, 44, 1, 0, 0, 0, 0, 0, 0, 1,
];

/// The blob of that locus in this form, with these bytes for what it printed.
fn spelt(alloc: Global, form: u8, printed: &[u8]) -> Result<Vec<u8>, AllocError> {
    let mut bytes = Vec::new(alloc);
    bytes.extend_from_slice(&[form, 2, 0, 0, 0, 1, 1, 7, 2, 1])?;
    bytes.extend_from_slice(&[0; 62])?;
    bytes.extend_from_slice(printed)?;
    bytes.extend_from_slice(&REST)?;
    Ok(bytes)
}

#[test]
fn a_locus_has_the_long_form_once_it_printed(rt: HostRuntime) -> Result<(), Fail> {
    let mut locus = locus();
    let mut blob = Blob::new(rt.alloc())?;
    write_locus(&locus, &mut blob);
    assert!(rt; blob.as_slice() == spelt(rt.alloc(), 2, &[])?.as_slice());
    locus.printed = 513;
    write_locus(&locus, &mut blob);
    let printed = [1, 2, 0, 0, 0, 0, 0, 0];
    assert!(rt; blob.as_slice() == spelt(rt.alloc(), 3, &printed)?.as_slice());
    Ok(())
}
