//! The image of a run with regions, capabilities, calls, private regions and a walk, of which fields are changed: the first bad place is
//! told by each command that reads it.
use crate::hostile::calls::formatted;
use crate::hostile::images::{Poke, Spot, alter, block_of};
use crate::{copy_of, put};
use Poke::{Byte, Like, Whole};
use Spot::{Blob, Block, Second};
use edge_disk::MemoryDisk;
use std::alloc::Global;
use std::test::Fail;

// Container `b` has 2 pages and code that takes two blocks; container `a` 4 pages, of which it has stored one. Locus `l` made two private
// regions and a call in `a`, and begins a walk to `b`; then `m` makes all stable.
const FRONT: &str = "order = ['l', 'l', 'l', 'l', 'l', 'l', 'l', 'l', 'm']
program.p = ['set r1 1', 'store r0 r1', 'set r2 5', 'lmap r2 r0 r0 r2 rw', 'set r3 128', 'lmap r3 r0 r1 r1 r', 'invoke r1', 'store r3 r1', 'halt', 'jump @8', 'make r1 r2 r3 -', 'jz r0 @9']
container = [
    { name = 'b', pages = 2, tag = 7, program = 'q' },
    { name = 'a', pages = 4, entry = 7, program = 'p', regions = ['1 b 0 2 rw', '3 b 1 1 r'], caps = ['b r', 'a -'] },
]
locus = [
    { name = 'l', host = 'a', caps = ['b rw', 'a i'] },
    { name = 'm', host = 'b', caps = ['atlas t'] },
]
program.q = ['stabilise r0'";

// The image of that run. Area B has eight records: of the atlas, b, a, l and m behind the births, and of a, l and m behind the stabilise.
fn image(alloc: Global) -> Result<MemoryDisk, Fail> {
    let mut script = String::from_str(alloc, FRONT)?;
    for _line in 0..69 {
        script.push_str(", 'halt'")?;
    }
    script.push_str("]\n")?;
    let (_, outcome) = put(alloc, &["run"], script.as_bytes(), formatted(alloc, &[])?)?;
    if outcome.status.number() != 0 || outcome.marks.len() != 2 {
        return Err(Fail::from("a run with two Stables"));
    }
    Ok(outcome.disk)
}

// What a command tells of the image with these changes, and what it ought to tell, whose first bad place this is.
fn lines_for(
    alloc: Global,
    image: &MemoryDisk,
    words: &[&str],
    pokes: &[Poke],
    bad: (Spot, u16),
) -> Result<(String, String), Fail> {
    let mut disk = copy_of(image)?;
    alter(&mut disk, pokes)?;
    let (spot, place) = bad;
    let block = block_of(&mut disk, spot)?;
    let (lines, _) = put(alloc, words, b"", disk)?;
    Ok((lines, format!(in alloc; "fault 4 {block} {place}\n")?))
}

// A byte with another value, and the first bad place that this makes.
type Change = (Spot, u16, u8, Spot, u16);

// Bodies, the atlas's blob of 16 bytes, and the blob of `b`, of 1,147.
const BODIES: &[Change] = &[
    // The number of blocks: too few. The last zero of the header.
    (Block(0), 13, 9, Block(0), 12),
    (Block(3), 1023, 1, Block(3), 1023),
    // The second record of `a`: its entity, length, version, which is not above that of the first, and stamp, at itself and at 41.
    (Block(1295), 0, 64, Block(1295), 0),
    (Block(1295), 1, 1, Block(1295), 0),
    (Block(1295), 4, 0, Block(1295), 4),
    (Block(1295), 5, 0x21, Block(1295), 4),
    (Block(1295), 8, 2, Block(1295), 8),
    (Block(1295), 15, 0x41, Block(1295), 8),
    (Block(1295), 32, 9, Block(1295), 32),
    (Block(1295), 351, 0x41, Block(1295), 344),
    // Its block: before the pool, past the image. One more than it needs.
    (Block(1295), 529, 0, Block(1295), 528),
    (Block(1295), 530, 1, Block(1295), 528),
    (Block(1295), 532, 1, Block(1295), 532),
    (Block(1295), 559, 1, Block(1295), 556),
    (Block(1295), 560, 1, Block(1295), 560),
    (Block(1295), 1023, 1, Block(1295), 1023),
    // The second block of `b` stands before the pool.
    (Block(1287), 533, 0, Block(1287), 532),
    // Of the atlas: names without a byte, of too many, that begin with a digit, with `#` alone, or stand there before; too many loci.
    (Blob(0), 2, 0, Blob(0), 2),
    (Blob(0), 2, 25, Blob(0), 2),
    (Blob(0), 3, b'1', Blob(0), 3),
    (Blob(0), 3, b'#', Blob(0), 3),
    (Blob(0), 5, b'b', Blob(0), 5),
    (Blob(0), 10, b'a', Blob(0), 10),
    (Blob(0), 6, 24, Blob(0), 6),
    // Too many edges for 40 containers; an edge's ends, none or a locus, and its count.
    (Blob(0), 12, 7, Blob(0), 12),
    (Blob(0), 13, 0, Blob(0), 13),
    (Blob(0), 13, 41, Blob(0), 13),
    (Blob(0), 14, 0, Blob(0), 14),
    (Blob(0), 14, 41, Blob(0), 14),
    (Blob(0), 15, 0, Blob(0), 15),
    (Blob(0), 15, 17, Blob(0), 15),
    // In the second block of `b`: three regions in two pages; a byte behind the blob.
    (Second(1), 113, 3, Second(1), 113),
    (Second(1), 123, 1, Second(1), 123),
];

// The blob of the container `a`, of 245 bytes.
const CONTAINER: &[Change] = &[
    // The kind; no pages; more than 256; fewer than the regions need.
    (Blob(5), 0, 2, Blob(5), 0),
    (Blob(5), 1, 0, Blob(5), 2),
    (Blob(5), 2, 1, Blob(5), 2),
    (Blob(5), 1, 3, Blob(5), 211),
    // The entry; too many instructions.
    (Blob(5), 15, 128, Blob(5), 15),
    (Blob(5), 16, 129, Blob(5), 16),
    // `set`: no code, no register, a register that isn't used, rights, the zero. `store` has no number.
    (Blob(5), 17, 26, Blob(5), 17),
    (Blob(5), 18, 8, Blob(5), 18),
    (Blob(5), 19, 1, Blob(5), 19),
    (Blob(5), 23, 1, Blob(5), 23),
    (Blob(5), 24, 1, Blob(5), 24),
    (Blob(5), 41, 1, Blob(5), 41),
    // `lmap` with no rights and with others; `jump` past the last place, by its first byte and by another; `make` with a part of no entry.
    (Blob(5), 71, 0, Blob(5), 71),
    (Blob(5), 71, 4, Blob(5), 71),
    (Blob(5), 169, 128, Blob(5), 169),
    (Blob(5), 170, 1, Blob(5), 170),
    (Blob(5), 192, 0, Blob(5), 192),
    // Too many regions for four pages. The first region: past the pages, and where it leaves none for the second.
    (Blob(5), 209, 5, Blob(5), 209),
    (Blob(5), 210, 4, Blob(5), 210),
    (Blob(5), 210, 3, Blob(5), 210),
    // Its count: none, one that leaves no page, and one past the pages.
    (Blob(5), 211, 0, Blob(5), 211),
    (Blob(5), 211, 3, Blob(5), 211),
    (Blob(5), 212, 1, Blob(5), 212),
    // No entity's number; pages shown past the last; no access, and more than access.
    (Blob(5), 213, 64, Blob(5), 213),
    (Blob(5), 214, 255, Blob(5), 214),
    (Blob(5), 215, 0, Blob(5), 215),
    (Blob(5), 215, 4, Blob(5), 215),
    // The second region: over the first, before it, past the pages.
    (Blob(5), 216, 2, Blob(5), 216),
    (Blob(5), 216, 0, Blob(5), 216),
    (Blob(5), 217, 2, Blob(5), 217),
    // Capabilities: too many; a slot that leaves none, no entity's number, the slot before, no slot.
    (Blob(5), 222, 33, Blob(5), 222),
    (Blob(5), 223, 31, Blob(5), 223),
    (Blob(5), 224, 64, Blob(5), 224),
    (Blob(5), 226, 0, Blob(5), 226),
    (Blob(5), 226, 32, Blob(5), 226),
    // A byte less, one more, one behind.
    (Block(1295), 4, 244, Blob(5), 244),
    (Block(1295), 4, 246, Block(1295), 4),
    (Blob(5), 245, 1, Blob(5), 245),
];

// The blob of the locus `l`, of 301 bytes.
const LOCUS: &[Change] = &[
    // The kind; the condition; no entity's number as the host; the place; too many instructions; no code.
    (Blob(6), 0, 1, Blob(6), 0),
    (Blob(6), 0, 4, Blob(6), 0),
    (Blob(6), 5, 3, Blob(6), 5),
    (Blob(6), 6, 64, Blob(6), 6),
    (Blob(6), 7, 129, Blob(6), 7),
    (Blob(6), 72, 129, Blob(6), 72),
    (Blob(6), 73, 26, Blob(6), 73),
    // Too many calls for the short form; no entity's number, and a place past the last.
    (Blob(6), 265, 33, Blob(6), 265),
    (Blob(6), 266, 64, Blob(6), 266),
    (Blob(6), 267, 129, Blob(6), 267),
    // Too many private regions for the short form. The first: no entity's number, and behind the second one's host.
    (Blob(6), 268, 9, Blob(6), 268),
    (Blob(6), 269, 64, Blob(6), 269),
    (Blob(6), 269, 3, Blob(6), 276),
    // Where it begins: five pages from there go past the last; it covers where the second begins.
    (Blob(6), 270, 252, Blob(6), 271),
    (Blob(6), 270, 128, Blob(6), 277),
    // Its count: none; past the last page.
    (Blob(6), 271, 0, Blob(6), 271),
    (Blob(6), 272, 1, Blob(6), 272),
    // Its target, what it shows, and its rights.
    (Blob(6), 273, 64, Blob(6), 273),
    (Blob(6), 274, 252, Blob(6), 274),
    (Blob(6), 275, 0, Blob(6), 275),
    (Blob(6), 275, 4, Blob(6), 275),
    // The second one: made in a host before, and within the first.
    (Blob(6), 276, 1, Blob(6), 276),
    (Blob(6), 277, 9, Blob(6), 277),
    // Capabilities: too many; a slot that leaves none, no entity's number, the slot before.
    (Blob(6), 283, 33, Blob(6), 283),
    (Blob(6), 284, 31, Blob(6), 284),
    (Blob(6), 285, 64, Blob(6), 285),
    (Blob(6), 287, 0, Blob(6), 287),
    // The walk: neither there nor not, not there with bytes behind, no entity's number, no hop, and too many.
    (Blob(6), 290, 2, Blob(6), 290),
    (Blob(6), 290, 0, Block(1297), 4),
    (Blob(6), 291, 64, Blob(6), 291),
    (Blob(6), 300, 0, Blob(6), 300),
    (Blob(6), 300, 64, Blob(6), 300),
    // A byte less, one more, one behind.
    (Block(1297), 4, 44, Blob(6), 300),
    (Block(1297), 4, 46, Block(1297), 4),
    (Blob(6), 301, 1, Blob(6), 301),
];

// What fits each other: one byte that makes an entity name another one.
const NAMED: &[Change] = &[
    // The edges count a region more, or fewer than the atlas says, also where a region shows a locus.
    (Blob(0), 15, 1, Block(1285), 0),
    (Blob(0), 15, 3, Block(1285), 0),
    (Blob(5), 213, 5, Block(1285), 0),
    (Blob(5), 213, 41, Block(1285), 0),
    // A capability of `a` is one of a container or of a locus that is not born.
    (Blob(5), 224, 3, Block(1295), 0),
    (Blob(5), 227, 43, Block(1295), 0),
    // The host of `l` is not born, a locus, and the atlas.
    (Blob(6), 6, 3, Block(1297), 0),
    (Blob(6), 6, 42, Block(1297), 0),
    (Blob(6), 6, 0, Block(1297), 0),
    // Its caller; where a private region was made, and what it shows.
    (Blob(6), 266, 3, Block(1297), 0),
    (Blob(6), 266, 41, Block(1297), 0),
    (Blob(6), 276, 3, Block(1297), 0),
    (Blob(6), 273, 3, Block(1297), 0),
    (Blob(6), 280, 41, Block(1297), 0),
    // Its capability; where its walk is; its place is no load or store.
    (Blob(6), 285, 40, Block(1297), 0),
    (Blob(6), 291, 3, Block(1297), 0),
    (Blob(6), 291, 42, Block(1297), 0),
    (Blob(6), 7, 8, Block(1297), 0),
];

// Changes, and the first bad place that they make.
type Changes = (&'static [Poke], Spot, u16);

const TIES: &[Changes] = &[
    // The second block of `b` is its first.
    (
        &[Like(Block(1287), 532, Block(1287), 528)],
        Block(1287),
        532,
    ),
    // The epochs of both areas are the same, and both are open.
    (&[Byte(Block(1), 0, 2), Byte(Block(2), 0, 1)], Block(3), 0),
    // The atlas lacks the name `m`; it has one more, of a locus that has no record.
    (
        &[
            Byte(Blob(0), 6, 1),
            Byte(Blob(0), 10, 0),
            Byte(Blob(0), 11, 2),
            Byte(Blob(0), 12, 1),
            Byte(Blob(0), 13, 2),
            Byte(Blob(0), 14, 0),
            Byte(Blob(0), 15, 0),
            Byte(Block(1285), 4, 14),
        ],
        Block(1299),
        0,
    ),
    (
        &[
            Byte(Blob(0), 6, 3),
            Byte(Blob(0), 12, b'n'),
            Byte(Blob(0), 13, 1),
            Byte(Blob(0), 14, 0),
            Byte(Blob(0), 15, 2),
            Byte(Blob(0), 16, 1),
            Byte(Blob(0), 17, 2),
            Byte(Block(1285), 4, 18),
        ],
        Block(1285),
        0,
    ),
    // One record, of `b`, that needs no other: no atlas is chosen.
    (
        &[
            Whole(Block(1285), Block(1287)),
            Byte(Block(1285), 16, 0),
            Byte(Block(1285), 32, 0),
            Byte(Block(1285), 344, 0),
            Byte(Block(1285), 352, 0),
            Byte(Block(1288), 0, 0),
        ],
        Block(1285),
        0,
    ),
    // A region of `a` shows container 5, which is not born, and the atlas counts it; it shows `a` itself, and the atlas counts it.
    (
        &[
            Byte(Blob(5), 219, 5),
            Byte(Blob(0), 11, 2),
            Byte(Blob(0), 15, 1),
            Byte(Blob(0), 16, 2),
            Byte(Blob(0), 17, 5),
            Byte(Blob(0), 18, 1),
            Byte(Block(1285), 4, 19),
        ],
        Block(1295),
        0,
    ),
    (
        &[
            Byte(Blob(5), 219, 2),
            Byte(Blob(0), 11, 2),
            Byte(Blob(0), 15, 1),
            Byte(Blob(0), 16, 2),
            Byte(Blob(0), 17, 2),
            Byte(Blob(0), 18, 1),
            Byte(Block(1285), 4, 19),
        ],
        Block(1285),
        0,
    ),
    // Edges that don't ascend.
    (
        &[
            Byte(Blob(0), 11, 2),
            Byte(Blob(0), 16, 2),
            Byte(Blob(0), 17, 1),
            Byte(Blob(0), 18, 1),
            Byte(Block(1285), 4, 19),
        ],
        Blob(0),
        17,
    ),
    // A page of `a`: in the block of another page, of the atlas's blob, of the last block before the pool, and of the first past the image.
    (&[Like(Blob(5), 233, Blob(5), 229)], Block(1295), 0),
    (&[Like(Blob(5), 233, Block(1285), 528)], Block(1295), 0),
    (
        &[Byte(Blob(5), 233, 4), Byte(Blob(5), 234, 10)],
        Block(1295),
        0,
    ),
    (
        &[Byte(Blob(5), 233, 0x64), Byte(Blob(5), 234, 10)],
        Block(1295),
        0,
    ),
];

// Commands that read an image.
const READERS: &[[&str; 1]] = &[["show"], ["report"], ["run"]];

#[test]
fn each_field_is_told_by_its_place(rt: HostRuntime) -> Result<(), Fail> {
    let alloc = rt.alloc();
    let image = image(alloc)?;
    let tables: [&[Change]; 4] = [BODIES, CONTAINER, LOCUS, NAMED];
    for &table in &tables {
        for (spot, place, value, bad, at) in table {
            for &words in READERS {
                let pokes = [Byte(*spot, *place, *value)];
                let (lines, wanted) = lines_for(alloc, &image, &words, &pokes, (*bad, *at))?;
                assert!(rt; lines.as_str() == wanted.as_str(), "{place}, {value}");
            }
        }
    }
    Ok(())
}

#[test]
fn what_does_not_fit_is_told_by_the_first_entity(rt: HostRuntime) -> Result<(), Fail> {
    let alloc = rt.alloc();
    let image = image(alloc)?;
    for &(pokes, bad, at) in TIES {
        for &words in READERS {
            let (lines, wanted) = lines_for(alloc, &image, &words, pokes, (bad, at))?;
            assert!(rt; lines.as_str() == wanted.as_str(), "{lines}");
        }
    }
    Ok(())
}

// What no chosen record rests on: the blob of the first record of `m`, which was kept until the second was there, bytes of gates behind the
// first eight, the body behind the log.
const UNREAD: &[Poke] = &[
    Byte(Blob(4), 0, 9),
    Byte(Block(4), 8, 5),
    Byte(Block(2), 1023, 5),
    Byte(Block(1301), 0, 200),
];

#[test]
fn what_the_image_does_not_rest_on_is_not_read(rt: HostRuntime) -> Result<(), Fail> {
    let alloc = rt.alloc();
    let image = image(alloc)?;
    let mut disk = copy_of(&image)?;
    let (whole, _) = put(alloc, &["show"], b"", image)?;
    alter(&mut disk, UNREAD)?;
    let (text, _) = put(alloc, &["show"], b"", disk)?;
    assert!(rt; text.as_str() == whole.as_str(), "{text}");
    Ok(())
}
