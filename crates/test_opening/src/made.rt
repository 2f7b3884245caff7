// An empty image, opened.
ghost use Rattle.std.specs.Prelude.{◌<◌, ◌≤◌, IfSome};
ghost use Rattle.image_blocks.specs.image_facts.Layout.{least_blocks, most_blocks};
ghost use Rattle.test_opening.specs.Made.{GoesFromNothing};

use edge_disk::Disk;
use image_format::format;
use open_kernel::{Kernel, open_image};
use std::alloc::Global;

/// Makes an empty image of so many blocks and opens it, with one frame for each container and so many steps for each locus. Gives nothing
/// where the disk has fewer blocks or fails, or where memory runs out.
pub fn open_made<D: Disk + Drop>(
    alloc: Global,
    disk: D,
    blocks: u32,
    steps: u32,
) -> Option<Kernel<D>>
    requires least { least_blocks ≤ blocks }
    requires most { blocks ≤ most_blocks }
    requires some { 0 < steps }
    requires few { steps ≤ 40000 }
    ensures { D.tells → IfSome result (GoesFromNothing D.Disk steps) }
{
    let made = match format(disk, blocks) {
        Ok(made) => made,
        Err(_) => return None,
    };
    match open_image(alloc, made, 1, steps) {
        Ok(kernel) => Some(kernel),
        Err(_) => None,
    }
}
