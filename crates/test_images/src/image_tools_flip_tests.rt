//! Bytes changed in each field of a small image, with the first bad place by the format.
use crate::image_tools_tests::altered;
use image_blocks::Bad;
use log_reading::ReadingFault;
use std::test::Fail;

// A block, a place in it and a byte that is put there; the block and the place that are told.
type Flip = (u32, usize, u8, u32, u16);

/// The superblock, the gates, the active header and the body of the first slot, which is the container's.
const FRONT: &[Flip] = &[
    // the eight bytes, the format, the number of blocks: more than the disk's and too few, zeros
    (0, 0, 0, 0, 0),
    (0, 7, 0, 0, 0),
    (0, 8, 2, 0, 8),
    (0, 12, 41, 0, 12),
    (0, 13, 0, 0, 12),
    (0, 16, 1, 0, 16),
    (0, 1023, 1, 0, 1023),
    // no gate open; the epoch: 0 and more than 2^62; zeros
    (2, 0, 0, 2, 0),
    (1, 0, 0, 1, 0),
    (1, 7, 0x40, 1, 0),
    (1, 8, 1, 1, 8),
    (1, 1023, 1, 1, 1023),
    // the entity, and the length: 0, more than 8,192
    (5, 0, 64, 5, 0),
    (5, 4, 0, 5, 4),
    (5, 5, 0x20, 5, 4),
    // the version: 0, more than 2^62, and another than the stamp's; the second slot's, when it is the same entity's
    (5, 8, 0, 5, 8),
    (5, 15, 0x41, 5, 8),
    (5, 8, 2, 5, 24),
    (7, 0, 1, 7, 8),
    // another component of the stamp above 2^62
    (5, 39, 0x41, 5, 32),
    // the block: before the pool, past the image; one that isn't needed
    (5, 529, 0, 5, 528),
    (5, 530, 1, 5, 528),
    (5, 532, 1, 5, 532),
    (5, 559, 1, 5, 556),
    // zeros
    (5, 560, 1, 5, 560),
    (5, 1023, 1, 5, 1023),
];

/// The blobs: of the atlas, 9 bytes in block 2,566; of the container, 27 in 2,565; of the locus, 77 in 2,567.
const BLOBS: &[Flip] = &[
    // the kind; more containers than 40; no byte of a name; none of a name's bytes; a name twice; an edge that is missing
    (2566, 0, 1, 2566, 0),
    (2566, 1, 41, 2566, 1),
    (2566, 2, 0, 2566, 2),
    (2566, 3, 0x21, 2566, 3),
    (2566, 6, 0x61, 2566, 6),
    (2566, 7, 1, 2566, 9),
    // a byte less, a byte more, a byte behind
    (7, 4, 8, 2566, 8),
    (7, 4, 10, 7, 4),
    (2566, 9, 7, 2566, 9),
    (2566, 1023, 7, 2566, 1023),
    // the container's kind, pages: none, 258; the entry; more than 128 instructions
    (2565, 0, 0, 2565, 0),
    (2565, 1, 0, 2565, 2),
    (2565, 2, 1, 2565, 2),
    (2565, 15, 128, 2565, 15),
    (2565, 16, 129, 2565, 16),
    // three regions in two pages; one that shows 8 pages or more; 33 capabilities
    (2565, 17, 3, 2565, 17),
    (2565, 17, 1, 2565, 19),
    (2565, 18, 33, 2565, 18),
    // a byte behind, and a byte less
    (2565, 27, 1, 2565, 27),
    (5, 4, 26, 2565, 26),
    // the locus's kind, and the long form cut off; the condition; an entity's number; the place
    (2567, 0, 1, 2567, 0),
    (2567, 0, 3, 2567, 77),
    (2567, 5, 3, 2567, 5),
    (2567, 6, 64, 2567, 6),
    (2567, 7, 129, 2567, 7),
    // more than 128 instructions, 32 calls in the short form, 8 private regions; 33 capabilities; neither 0 nor 1, and a walk cut off
    (2567, 72, 129, 2567, 72),
    (2567, 73, 33, 2567, 73),
    (2567, 74, 9, 2567, 74),
    (2567, 75, 33, 2567, 75),
    (2567, 76, 2, 2567, 76),
    (2567, 76, 1, 2567, 77),
    // what fits: the host isn't a container; it isn't born
    (2567, 6, 0, 9, 0),
    (2567, 6, 2, 9, 0),
    // a page's block before the pool, past the image, a blob's, another page's
    (2565, 20, 0, 5, 0),
    (2565, 21, 1, 5, 0),
    (2565, 19, 5, 5, 0),
    (2565, 23, 8, 5, 0),
];

#[test]
fn the_log_is_checked(rt: HostRuntime) -> Result<(), Fail> {
    for &(at, in_block, byte, block, place) in FRONT {
        let told = altered(rt.alloc(), &[(at, in_block, byte)])?;
        assert!(rt;
            told == Some(ReadingFault::Foreign(Bad { block, place })),
            "block {at}, byte {in_block}, {byte}"
        );
    }
    Ok(())
}

#[test]
fn the_blobs_are_checked(rt: HostRuntime) -> Result<(), Fail> {
    for &(at, in_block, byte, block, place) in BLOBS {
        let told = altered(rt.alloc(), &[(at, in_block, byte)])?;
        assert!(rt;
            told == Some(ReadingFault::Foreign(Bad { block, place })),
            "block {at}, byte {in_block}, {byte}"
        );
    }
    Ok(())
}

#[test]
fn gates_choose_the_records(rt: HostRuntime) -> Result<(), Fail> {
    let foreign = |block| Some(ReadingFault::Foreign(Bad { block, place: 0 }));
    // A locus that the atlas doesn't name; one that it names and that isn't there; no atlas.
    assert!(rt; altered(rt.alloc(), &[(12, 0, 1)])? == foreign(11));
    assert!(rt; altered(rt.alloc(), &[(10, 0, 0)])? == foreign(7));
    assert!(rt; altered(rt.alloc(), &[(8, 0, 0)])? == foreign(5));
    // Both areas open, with the same epoch, and with a lower one; a gate's other bytes.
    assert!(rt; altered(rt.alloc(), &[(4, 0, 1), (3, 0, 1)])? == foreign(3));
    assert!(rt; altered(rt.alloc(), &[(4, 0, 1)])? == None);
    assert!(rt; altered(rt.alloc(), &[(2, 8, 5), (6, 1023, 5)])? == None);
    Ok(())
}
