// Writing the blocks of a blob.
ghost use Rattle.std.specs.Prelude.{◌≤◌, length, OnOk};
ghost use Rattle.edge_disk.specs.Disk.{HasCause};
ghost use Rattle.edge_disk.specs.Image.{SameOutside};
ghost use Rattle.edge_disk.specs.Moments.{Quiet};
ghost use Rattle.edge_tally.specs.Counts.{Begins, shown};
ghost use Rattle.store_books.specs.log_turn.Standing.{HasCounted, begun_of};
ghost use Rattle.store_commit.specs.Storing.{HasBlob, HasPlaces, IsBlobBlock};

use base_types::Rec;
use edge_disk::{Disk, DiskFault};
use store_books::Areas;

// Writes blocks where the record names them, and counts those that are begun. It makes nothing stable.
pub(crate) fn write_blob<D: Disk>(
    areas: &mut Areas,
    disk: &mut D,
    rec: &Rec,
    blob: &[[u8; 1024]],
) -> Result<(), DiskFault>
    requires few { length blob.now ≤ 8 }
    requires places { HasPlaces rec.now (length blob.now) (D.block_count disk.old) }
    ensures areas { HasCounted areas.old areas.new }
    ensures blob { D.tells → OnOk result (HasBlob rec.now blob.now (D.reading disk.new)) }
    ensures reading { D.tells → SameOutside (IsBlobBlock rec.now (length blob.now)) (D.reading disk.old) (D.reading disk.new) }
    ensures any_moment { D.tells → Quiet D.Disk (IsBlobBlock rec.now (length blob.now)) disk.old disk.new }
    ensures cause { HasCause (D.faults disk.old) (D.faults disk.new) result }
    ensures begins { Begins (length blob.now) (shown D.Disk disk.old (begun_of areas.old)) (shown D.Disk disk.new (begun_of areas.new)) }
{
    for (i, block) in blob.iter().enumerate() {
        areas.write(disk, rec.blocks[i], block)?;
    }
    Ok(())
}
