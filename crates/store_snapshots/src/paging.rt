// Pages in the blocks of a store, read and written.
ghost use Rattle.std.specs.Prelude.{◌≡◌, ◌<◌, OnOk};
ghost use Rattle.edge_disk.specs.Disk.{HasCause};
ghost use Rattle.edge_disk.specs.Image.{block_at};
ghost use Rattle.store_facts.specs.log_facts.Reads.{ReadsOnly};
ghost use Rattle.store_facts.specs.store_books.Books.{words_of_bytes};

use edge_disk::{Disk, DiskFault};
use store_facts::words_in;

// The words of a block, zeros where the disk has no such block.
pub(crate) fn read_words<D: Disk>(
    disk: &mut D,
    block: u32,
    out: &mut [u64; 128],
) -> Result<(), DiskFault>
    ensures words { D.tells → OnOk result (out.new ≡ words_of_bytes (block_at (D.reading disk.old) block)) }
    ensures cause { HasCause (D.faults disk.old) (D.faults disk.new) result }
    ensures same { ReadsOnly D.Disk disk.old disk.new }
{
    if disk.blocks() <= block {
        *out = [0; 128];
        return Ok(());
    }
    let mut bytes = [0; 1024];
    disk.read(block, &mut bytes)?;
    *out = words_in(&bytes);
    Ok(())
}
