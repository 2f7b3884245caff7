//! An image that was made by hand, from its format alone: it is read as ever.
use crate::hostile::images::{Spot, set_bytes};
use crate::{copy_of, disk_of, put, shown};
use Spot::Block;
use edge_disk::MemoryDisk;
use std::alloc::Global;
use std::test::Fail;

// Bytes at a place of a block.
type Row = (u32, u16, &'static [u8]);

// As `tools/image_by_hand` spells it: two containers, two loci, one in the middle of a walk, a page; area B in force, with an older record
// and one that waits for another.
const IMAGE: &[Row] = &[
    // The superblock: the format, and the number of blocks.
    (0, 0, &[71, 82, 65, 83, 83, 72, 79, 80, 1, 0, 0, 0, 40, 10]),
    // Area A: its epoch, and a gate that isn't open.
    (1, 0, &[3]),
    (2, 0, &[2]),
    // Area B: its epoch, and the open gate.
    (3, 0, &[4]),
    (4, 0, &[1]),
    // The atlas at 6.
    (1285, 4, &[16, 0, 0, 0, 6]),
    (1285, 16, &[6]),
    (1285, 24, &[1]),
    (1285, 32, &[1]),
    (1285, 344, &[1]),
    (1285, 352, &[1]),
    (1285, 528, &[10, 10]),
    // Its gate.
    (1286, 0, &[1]),
    // An older record of a, at 3.
    (1287, 0, &[1, 0, 0, 0, 40, 0, 0, 0, 3]),
    (1287, 16, &[6]),
    (1287, 24, &[3]),
    (1287, 344, &[2]),
    (1287, 528, &[38, 10]),
    // Its gate.
    (1288, 0, &[1]),
    // A at 4.
    (1289, 0, &[1, 0, 0, 0, 52, 0, 0, 0, 4]),
    (1289, 16, &[6]),
    (1289, 24, &[4]),
    (1289, 32, &[1]),
    (1289, 344, &[3]),
    (1289, 528, &[5, 10]),
    // Its gate.
    (1290, 0, &[1]),
    // B at 2.
    (1291, 0, &[2, 0, 0, 0, 26, 0, 0, 0, 2]),
    (1291, 16, &[6]),
    (1291, 32, &[2]),
    (1291, 352, &[1]),
    (1291, 528, &[11, 10]),
    // Its gate.
    (1292, 0, &[1]),
    // L at 5, in the long form.
    (1293, 0, &[41, 0, 0, 0, 132, 0, 0, 0, 5]),
    (1293, 16, &[6]),
    (1293, 24, &[4]),
    (1293, 32, &[2]),
    (1293, 344, &[5]),
    (1293, 528, &[9, 10]),
    // Its gate.
    (1294, 0, &[1]),
    // M at 2, in the short form.
    (1295, 0, &[42, 0, 0, 0, 122, 0, 0, 0, 2]),
    (1295, 16, &[6]),
    (1295, 24, &[2]),
    (1295, 32, &[2]),
    (1295, 352, &[2]),
    (1295, 528, &[7, 10]),
    // Its gate.
    (1296, 0, &[1]),
    // A record of l at 8, which waits for a at 9.
    (1297, 0, &[41, 0, 0, 0, 40, 0, 0, 0, 8]),
    (1297, 16, &[6]),
    (1297, 24, &[9]),
    (1297, 344, &[8]),
    (1297, 528, &[39, 10]),
    // Its gate.
    (1298, 0, &[1]),
    // An open gate behind the first that is closed.
    (1302, 0, &[1]),
    // Its blob.
    (2565, 0, &[1, 2, 0, 5]),
    (2565, 15, &[1, 1, 25]),
    (2565, 33, &[1, 1, 1, 0, 2, 0, 1, 1, 2, 2, 4, 20, 10]),
    // Its blob.
    (2567, 0, &[2, 5, 0, 0, 0, 0, 2]),
    (2567, 24, &[3]),
    (2567, 72, &[2, 6, 1, 2]),
    (2567, 89, &[24, 1]),
    (2567, 107, &[1, 4, 41, 64, 1, 1, 3]),
    (2567, 121, &[1]),
    // Its blob.
    (2569, 0, &[3, 0, 0, 0, 0, 0, 1, 0, 9]),
    (2569, 72, &[3]),
    (2569, 80, &[2, 24]),
    (2569, 97, &[25]),
    (
        2569,
        113,
        &[1, 2, 0, 1, 1, 1, 1, 0, 2, 0, 3, 2, 0, 2, 3, 31, 0, 128],
    ),
    // Its blob.
    (
        2570,
        1,
        &[2, 1, 97, 1, 98, 2, 1, 108, 1, 109, 1, 0, 1, 2, 1],
    ),
    // Its blob.
    (2571, 0, &[1, 1, 0, 200]),
    (2571, 15, &[255, 0, 0, 1, 0, 1, 1]),
    // Page 0 of a, at word 3; the test makes each other word what the tag gives there.
    (2580, 24, &[77]),
    // Its blob, which is not read.
    (2598, 0, &[238, 238, 238, 238, 238, 238, 238, 238]),
    // Its blob, which is not read.
    (2599, 0, &[238, 238, 238, 238, 238, 238, 238, 238]),
];

const SHOWN: &str = "container a 2 5 0 1
region a 1 b 0 1 r
cap a 2 b i
word a 3 77
container b 1 200 0 -
cap b 0 a r
locus l a 0 running 0 9 0 0 0 0 0 0 0
printed l 3
private l a 1 b 0 1 rw
call l b 0
cap l 0 b rw
cap l 31 atlas t
locus m b 0 running 5 0 0 3 0 0 0 0 0
walk m a 3 1
cap m 4 l k
";

const REPORTED: &str = "area B epoch 4 used 7
rec 0 0 6 chosen
rec 1 1 3 earlier
rec 2 1 4 chosen
rec 3 2 2 chosen
rec 4 41 5 chosen
rec 5 42 2 chosen
rec 6 41 8 later
cut 0 6
cut 1 4
cut 2 2
cut 41 5
cut 42 2
";

// The image on a disk.
fn image(alloc: Global) -> Result<MemoryDisk, Fail> {
    let mut disk = disk_of(alloc, 2600, &[])?;
    for word in 0..128u16 {
        set_bytes(
            &mut disk,
            Block(2580),
            word * 8,
            &[(word as u8).wrapping_add(5)],
        )?;
    }
    for &(block, place, bytes) in IMAGE {
        set_bytes(&mut disk, Block(block), place, bytes)?;
    }
    Ok(disk)
}

#[test]
fn an_image_made_by_hand_is_shown_and_run(rt: HostRuntime) -> Result<(), Fail> {
    let alloc = rt.alloc();
    let disk = image(alloc)?;
    let (text, outcome) = put(alloc, &["report"], b"", disk)?;
    assert!(rt; text.as_str() == REPORTED);
    assert!(rt; shown(alloc, copy_of(&outcome.disk)?)?.as_str() == SHOWN);
    // `l` prints and halts; `m` ends its walk with what it loads, prints it, and halts behind its code. Nobody wishes any of it.
    let (lines, outcome) = put(alloc, &["run"], b"", outcome.disk)?;
    assert!(rt; lines.as_str() == "l 9\nm 77\n");
    assert!(rt; outcome.status.number() == 0);
    assert!(rt; shown(alloc, outcome.disk)?.as_str() == SHOWN);
    Ok(())
}
