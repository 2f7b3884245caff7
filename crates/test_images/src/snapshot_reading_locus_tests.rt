//! Blobs of loci, byte by byte, and the places where they are refused.
use act_alone::Locus;
use base_types::{Call, Cap, Condition, Entity, Instr, Private, Region, Rights, Walk};
use blob_reading::{BadBlob, read_locus};
use std::test::Fail;

/// A stopped locus in the short form: 5 in the first register, the instruction `store r1 r0`, a call, two private regions, a
/// capability in the last slot, and a walk.
const SHORT: [u8; 122] = [
    2, 9, 0, 0, 0, 1, 1, 2, 5, 0, 0, 0, 0, 0, 0, 0, 0, 0, 0, 0, 0, 0, 0, 0, 0, 0, 0, 0, 0, 0, 0, 0,
    0, 0, 0, 0, 0, 0, 0, 0, 0, 0, 0, 0, 0, 0, 0, 0, 0, 0, 0, 0, 0, 0, 0, 0, 0, 0, 0, 0, 0, 0, 0, 0,
    0, 0, 0, 0, 0, 0, 0, 0, 1, 7, 1, 0, 0, 0, 0, 0, 0, 0, 0, 0, 0, 0, 0, 0, 0, 1, 3, 128, 2, 1, 0,
    2, 0, 3, 254, 3, 63, 255, 1, 0, 0, 0, 1, 1, 31, 63, 255, 1, 2, 7, 0, 0, 0, 0, 0, 0, 0, 63,
];

/// Where the registers of a locus end.
const BEHIND_REGISTERS: usize = 72;

/// The same locus in the long form, where it has printed nothing.
fn long_form() -> [u8; 130] {
    let mut bytes = [0; 130];
    for (at, byte) in SHORT.iter().enumerate() {
        if at < BEHIND_REGISTERS {
            bytes[at] = *byte;
        } else {
            bytes[at + 8] = *byte;
        }
    }
    bytes[0] = 3;
    bytes
}

/// What is told of these bytes with others in place of some.
fn bad_with(bytes: &mut [u8], changes: &[(usize, u8)]) -> Option<BadBlob> {
    for (at, byte) in changes {
        if let Some(place) = bytes.get_mut(*at) {
            *place = *byte;
        }
    }
    read_locus(bytes).err()
}

/// Bytes that are put at places, and the first bad place that they make; none where a locus is read.
type Row = (&'static [(usize, u8)], Option<u32>);

/// Whether these bytes with others in place of some are refused at this place, or read where there is none.
fn is_bad_at(bytes: &mut [u8], changes: &[(usize, u8)], place: Option<u32>) -> bool {
    bad_with(bytes, changes) == place.map(BadBlob::Malformed)
}

fn region(at: u8, count: u16, target: Entity, from: u8, rights: u8) -> Region {
    Region {
        at,
        count,
        target,
        from,
        rights: Rights(rights),
    }
}

/// Whether the numbers and the code of the locus are read.
fn has_numbers(read: &Locus) -> bool {
    (read.every, read.place, read.printed) == (9, 2, 0)
        && read.condition == Condition::Stopped
        && read.host == Entity::of(1)
        && read.registers == [5, 0, 0, 0, 0, 0, 0, 0]
        && read.code.as_slice() == [Instr::Store(1, 0)].as_slice()
}

/// Whether its private regions are read.
fn has_privates(read: &Locus) -> bool {
    let first = Private {
        made: Entity::of(1),
        region: region(0, 2, Entity::of(3), 254, 3),
    };
    let second = Private {
        made: Entity::of(63),
        region: region(255, 1, Entity::ATLAS, 0, 1),
    };
    read.privates.as_slice() == [first, second].as_slice()
}

/// Whether its call, its capability and its walk are read.
fn has_others(read: &Locus) -> bool {
    let call = Call {
        container: Entity::of(3),
        place: 128,
    };
    let cap = Cap {
        entity: Entity::of(63),
        rights: Rights(255),
    };
    let walk = Walk {
        at: Entity::of(2),
        address: 7,
        hops: 63,
    };
    read.chain.as_slice() == [call].as_slice()
        && read.caps.at(31) == Ok(cap)
        && read.walk == Some(walk)
}

#[test]
fn a_locus_is_read(rt: HostRuntime) -> Result<(), Fail> {
    let Ok(read) = read_locus(&SHORT) else {
        return Err(Fail::from("a locus"));
    };
    assert!(rt; has_numbers(&read));
    assert!(rt; has_privates(&read));
    assert!(rt; has_others(&read));
    Ok(())
}

/// The short form, in each field.
const SHORT_ROWS: &[Row] = &[
    (&[], None),
    (&[(0, 1)], Some(0)),
    (&[(0, 4)], Some(0)),
    (&[(5, 3)], Some(5)),
    (&[(6, 64)], Some(6)),
    (&[(7, 129)], Some(7)),
    // the short form has at most 32 calls and 8 private regions
    (&[(89, 33)], Some(89)),
    (&[(90, 64)], Some(90)),
    (&[(91, 129)], Some(91)),
    (&[(92, 9)], Some(92)),
    // both in the last host: the first leaves a page for the second, or does not
    (&[(93, 63)], None),
    (&[(93, 63), (94, 255)], Some(94)),
    (&[(93, 63), (94, 254)], Some(95)),
    // the second in a host before the first one's, and on pages of the first
    (&[(100, 0)], Some(100)),
    (&[(100, 1), (101, 1)], Some(101)),
    // the first takes the last page of its host
    (&[(94, 255), (95, 1), (100, 1)], Some(100)),
    (&[(94, 255), (95, 1), (100, 2), (101, 0)], None),
    (&[(97, 64)], Some(97)),
    (&[(108, 32)], Some(108)),
    (&[(111, 2)], Some(111)),
    (&[(112, 64)], Some(112)),
    (&[(121, 0)], Some(121)),
    (&[(121, 64)], Some(121)),
];

#[test]
fn the_short_form_is_refused_where_no_spelling_goes_on(rt: HostRuntime) {
    for &(changes, place) in SHORT_ROWS {
        let mut bytes = SHORT;
        assert!(rt; is_bad_at(&mut bytes, changes, place), "{changes:?}");
    }
}

/// The long form, where it differs.
const LONG_ROWS: &[Row] = &[
    // with so little it has the short form, unless it printed something
    (&[], Some(100)),
    (&[(72, 1)], None),
    // 2^62 values, and more
    (&[(79, 64)], None),
    (&[(72, 1), (79, 64)], Some(79)),
    (&[(79, 65)], Some(79)),
    (&[(72, 1), (97, 65)], Some(97)),
    // without calls and private regions: the number of these makes the long form one spelling too many
    (&[(97, 0), (98, 0)], Some(98)),
];

#[test]
fn the_long_form_is_refused_where_no_spelling_goes_on(rt: HostRuntime) {
    for &(changes, place) in LONG_ROWS {
        let mut bytes = long_form();
        assert!(rt; is_bad_at(&mut bytes, changes, place), "{changes:?}");
    }
}

#[test]
fn a_locus_is_neither_cut_off_nor_longer(rt: HostRuntime) {
    assert!(rt; read_locus(&SHORT[..121]).err() == Some(BadBlob::Malformed(121)));
    let mut longer = [0; 123];
    for (at, byte) in SHORT.iter().enumerate() {
        longer[at] = *byte;
    }
    assert!(rt; read_locus(&longer).err() == Some(BadBlob::TooLong(122)));
}
