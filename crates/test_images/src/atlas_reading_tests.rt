//! Blobs of atlases, byte by byte, and the places where they are refused.
use base_types::{Entity, Kind};
use blob_atlas::read_atlas;
use blob_reading::BadBlob;
use data_atlas::Atlas;
use std::test::Fail;

/// A container `a`, a locus `l`, and no edges.
const SMALL: [u8; 9] = [0, 1, 1, b'a', 1, 1, b'l', 0, 0];

/// The containers `#1` and `b`, the locus `#41`, and an edge from the second container to the first, which counts twice.
const MADE: [u8; 17] = [
    0, 2, 2, b'#', b'1', 1, b'b', 1, 3, b'#', b'4', b'1', 1, 0, 2, 1, 2,
];

/// All 52 letters are names, 40 of them of containers, and a thirteenth locus has a name of one byte.
const ALL_LETTERS: [u8; 109] = [
    0, 40, 1, b'A', 1, b'B', 1, b'C', 1, b'D', 1, b'E', 1, b'F', 1, b'G', 1, b'H', 1, b'I', 1,
    b'J', 1, b'K', 1, b'L', 1, b'M', 1, b'N', 1, b'O', 1, b'P', 1, b'Q', 1, b'R', 1, b'S', 1, b'T',
    1, b'U', 1, b'V', 1, b'W', 1, b'X', 1, b'Y', 1, b'Z', 1, b'a', 1, b'b', 1, b'c', 1, b'd', 1,
    b'e', 1, b'f', 1, b'g', 1, b'h', 1, b'i', 1, b'j', 1, b'k', 1, b'l', 1, b'm', 1, b'n', 13, 1,
    b'o', 1, b'p', 1, b'q', 1, b'r', 1, b's', 1, b't', 1, b'u', 1, b'v', 1, b'w', 1, b'x', 1, b'y',
    1, b'z', 1, b'a',
];

/// What is told of these bytes with others in place of some.
fn bad_with(bytes: &mut [u8], changes: &[(usize, u8)]) -> Option<BadBlob> {
    for (at, byte) in changes {
        if let Some(place) = bytes.get_mut(*at) {
            *place = *byte;
        }
    }
    read_atlas(bytes).err()
}

/// Bytes that are put at places, and the first bad place that they make; none where an atlas is read.
type Row = (&'static [(usize, u8)], Option<u32>);

/// Whether these bytes with others in place of some are refused at this place, or read where there is none.
fn is_bad_at(bytes: &mut [u8], changes: &[(usize, u8)], place: Option<u32>) -> bool {
    bad_with(bytes, changes) == place.map(BadBlob::Malformed)
}

/// Whether the entity of this name has this number.
fn is_found(atlas: &Atlas, name: &str, number: u8) -> bool {
    atlas
        .find(name)
        .is_some_and(|entity| entity.number() == number)
}

#[test]
fn an_atlas_is_read(rt: HostRuntime) -> Result<(), Fail> {
    let Ok(read) = read_atlas(&MADE) else {
        return Err(Fail::from("an atlas"));
    };
    let (first, second) = (Entity::of(1), Entity::of(2));
    assert!(rt; (read.named(Kind::Container), read.named(Kind::Locus)) == (2, 1));
    for &(name, number) in &[("#1", 1), ("b", 2), ("#41", 41)] {
        assert!(rt; is_found(&read, name, number), "{name}");
    }
    assert!(rt; (read.count(second, first), read.count(first, second)) == (2, 0));
    Ok(())
}

/// The small atlas, in its names.
const NAMES: &[Row] = &[
    (&[], None),
    (&[(0, 1)], Some(0)),
    (&[(1, 41)], Some(1)),
    (&[(2, 0)], Some(2)),
    (&[(2, 25)], Some(2)),
    // one byte has no room for a made name, and a digit begins no name
    (&[(3, b'#')], Some(3)),
    (&[(3, b'1')], Some(3)),
    (&[(3, 225)], Some(3)),
    // two bytes: the byte behind the letter, and a made name
    (&[(2, 2), (4, b'!')], Some(4)),
    (&[(2, 2), (3, b'#'), (4, b'2')], Some(4)),
    (&[(4, 24)], Some(4)),
    // the name of the container again
    (&[(6, b'a')], Some(6)),
    // 1,793 edges are refused at the second byte, and 256 want more bytes
    (&[(7, 1), (8, 7)], Some(8)),
    (&[(8, 1)], Some(9)),
];

#[test]
fn names_are_refused_where_none_goes_on(rt: HostRuntime) {
    for &(changes, place) in NAMES {
        let mut bytes = SMALL;
        assert!(rt; is_bad_at(&mut bytes, changes, place), "{changes:?}");
    }
}

/// The made atlas, in its edges.
const EDGES: &[Row] = &[
    (&[], None),
    // a made name has as many bytes as its number wants
    (&[(2, 3)], Some(3)),
    (&[(14, 0)], Some(14)),
    (&[(14, 41)], Some(14)),
    (&[(15, 0)], Some(15)),
    (&[(15, 41)], Some(15)),
    (&[(16, 0)], Some(16)),
    (&[(16, 17)], Some(16)),
    // containers that aren't born may have edges
    (&[(14, 40), (15, 40)], None),
    // the last pair leaves none for a second edge
    (&[(12, 2), (14, 40), (15, 40)], Some(15)),
    (&[(12, 2)], Some(17)),
];

#[test]
fn edges_are_refused_where_none_goes_on(rt: HostRuntime) {
    for &(changes, place) in EDGES {
        let mut bytes = MADE;
        assert!(rt; is_bad_at(&mut bytes, changes, place), "{changes:?}");
    }
}

#[test]
fn the_second_edge_stands_behind_the_first(rt: HostRuntime) {
    let rows: [((u8, u8), Option<u32>); 4] = [
        ((2, 2), None),
        ((3, 1), None),
        ((2, 1), Some(18)),
        ((1, 40), Some(17)),
    ];
    for ((from, to), place) in rows {
        let mut bytes = [0; 20];
        for (at, byte) in MADE.iter().enumerate() {
            bytes[at] = *byte;
        }
        let changes = [(12, 2), (17, from), (18, to), (19, 1)];
        assert!(rt; is_bad_at(&mut bytes, &changes, place), "{from} to {to}");
    }
}

#[test]
fn the_atlas_s_own_name_is_no_others(rt: HostRuntime) {
    let bytes = [0, 1, 5, b'a', b't', b'l', b'a', b's', 0, 0, 0];
    assert!(rt; read_atlas(&bytes).err() == Some(BadBlob::Malformed(7)));
}

#[test]
fn there_are_as_many_names_of_one_byte_as_letters(rt: HostRuntime) {
    assert!(rt; read_atlas(&ALL_LETTERS).err() == Some(BadBlob::Malformed(107)));
}

#[test]
fn a_blob_is_neither_cut_off_nor_longer(rt: HostRuntime) {
    for &(count, place) in &[(9, None), (8, Some(8)), (0, Some(0))] {
        let mut bytes = SMALL;
        assert!(rt; is_bad_at(&mut bytes[..count], &[], place), "{count} bytes");
    }
    let mut longer = [0; 10];
    for (at, byte) in SMALL.iter().enumerate() {
        longer[at] = *byte;
    }
    assert!(rt; read_atlas(&longer).err() == Some(BadBlob::TooLong(9)));
}
