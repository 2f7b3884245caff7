//! Blobs, byte by byte, and the places where they are refused.
use act_alone::Head;
use base_types::{Cap, Entity, Instr, Region, Rights};
use blob_reading::{BadBlob, read_container};
use std::test::Fail;

/// A container of two pages: the instruction `store r1 r0`, a region over both pages, a capability in the last slot, and a block
/// for the second page.
const SMALL: [u8; 52] = [
    1, 2, 0, 7, 0, 0, 0, 0, 0, 0, 0, 9, 0, 0, 0, 0, 1, 7, 1, 0, 0, 0, 0, 0, 0, 0, 0, 0, 0, 0, 0, 0,
    0, 1, 0, 2, 0, 3, 254, 3, 1, 31, 63, 255, 0, 0, 0, 0, 5, 10, 0, 0,
];

/// What is told of the small container with these bytes in place of its own.
fn bad_with(changes: &[(usize, u8)]) -> Option<BadBlob> {
    let mut bytes = SMALL;
    for (at, byte) in changes {
        if let Some(place) = bytes.get_mut(*at) {
            *place = *byte;
        }
    }
    read_container(&bytes).err()
}

/// Bytes that are put at places, and the first bad place that they make; none where a container is read.
type Row = (&'static [(usize, u8)], Option<u32>);

/// Whether the container with these bytes is refused at this place, or read where there is none.
fn is_bad_at(changes: &[(usize, u8)], place: Option<u32>) -> bool {
    bad_with(changes) == place.map(BadBlob::Malformed)
}

/// Whether the numbers and the code of the small container are read.
fn has_numbers(head: &Head) -> bool {
    (head.pages, head.tag, head.every, head.entry) == (2, 7, 9, Some(0))
        && head.code.as_slice() == [Instr::Store(1, 0)].as_slice()
}

/// Whether its region and its capability are read.
fn has_lists(head: &Head) -> bool {
    let region = Region {
        at: 0,
        count: 2,
        target: Entity::of(3),
        from: 254,
        rights: Rights(3),
    };
    let cap = Cap {
        entity: Entity::of(63),
        rights: Rights(255),
    };
    head.regions.as_slice() == [region].as_slice()
        && head.caps.at(31) == Ok(cap)
        && head.caps.at(30).is_err()
}

#[test]
fn a_container_is_read(rt: HostRuntime) -> Result<(), Fail> {
    let Ok(read) = read_container(&SMALL) else {
        return Err(Fail::from("a container"));
    };
    assert!(rt; has_numbers(&read.head));
    assert!(rt; has_lists(&read.head));
    assert!(rt; (read.blocks[0], read.blocks[1], read.blocks[2]) == (0, 2565, 0));
    Ok(())
}

/// The small container, in each field.
const ROWS: &[Row] = &[
    (&[], None),
    (&[(0, 2)], Some(0)),
    // 257 pages are refused at the second byte, and 0 at the second as well
    (&[(1, 1), (2, 1)], Some(2)),
    (&[(1, 0)], Some(2)),
    (&[(15, 128)], Some(15)),
    (&[(15, 255)], None),
    (&[(16, 129)], Some(16)),
    (&[(17, 26)], Some(17)),
    (&[(18, 8)], Some(18)),
    // unused bytes of an instruction
    (&[(20, 1)], Some(20)),
    (&[(23, 1)], Some(23)),
    (&[(24, 1)], Some(24)),
    (&[(32, 1)], Some(32)),
    // `make` may name no place by eight bytes 255; `jump` may not
    (
        &[
            (17, 18),
            (25, 255),
            (26, 255),
            (27, 255),
            (28, 255),
            (29, 255),
            (30, 255),
            (31, 255),
            (32, 255),
        ],
        None,
    ),
    (&[(17, 18), (25, 255)], Some(26)),
    (&[(17, 4), (18, 0), (25, 255)], Some(25)),
    // two pages have no room for three regions, and the first of two leaves one page for the second
    (&[(33, 3)], Some(33)),
    (&[(33, 2)], Some(35)),
    (&[(33, 2), (34, 1)], Some(34)),
    (&[(34, 1)], Some(35)),
    (&[(35, 0)], Some(35)),
    (&[(37, 64)], Some(37)),
    // two pages from page 255 on
    (&[(38, 255)], Some(38)),
    (&[(39, 4)], Some(39)),
    (&[(40, 33)], Some(40)),
    // the last slot leaves none for the second capability
    (&[(40, 2)], Some(41)),
    (&[(41, 32)], Some(41)),
    (&[(42, 64)], Some(42)),
];

#[test]
fn bytes_are_refused_where_no_spelling_goes_on(rt: HostRuntime) {
    for &(changes, place) in ROWS {
        assert!(rt; is_bad_at(changes, place), "{changes:?}");
    }
}

#[test]
fn a_blob_is_neither_cut_off_nor_longer(rt: HostRuntime) {
    assert!(rt; read_container(&SMALL[..51]).err() == Some(BadBlob::Malformed(51)));
    assert!(rt; read_container(&[]).err() == Some(BadBlob::Malformed(0)));
    let mut longer = [0; 53];
    for (at, byte) in SMALL.iter().enumerate() {
        longer[at] = *byte;
    }
    assert!(rt; read_container(&longer).err() == Some(BadBlob::TooLong(52)));
}
