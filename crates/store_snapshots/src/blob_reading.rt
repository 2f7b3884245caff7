// Blobs, read.
ghost use Rattle.std.specs.Prelude.{◌≡◌, ◌≤◌, ◌+◌, ◌++◌, IfOk, OnOk, length, map, take, true};
ghost use Rattle.std.specs.List.{concat};
ghost use Rattle.edge_disk.specs.Disk.{HasCause};
ghost use Rattle.edge_disk.specs.Image.{block_at};
ghost use Rattle.store_facts.specs.image_facts.Bodies.{blob_in, blob_room, blocks_for};
ghost use Rattle.store_facts.specs.log_facts.Reads.{ReadsOnly};
ghost use Rattle.edge_disk.specs.Counts.{Rose};
ghost use Rattle.store_facts.specs.Opening.{HasStableLog};
ghost use Rattle.store_snapshots.specs.ReadAnswers.{ReadAnswers};
ghost use Rattle.store_facts.specs.Rests.{IsRest};
ghost use Rattle.store_facts.specs.State.{books};
ghost use Rattle.store_facts.specs.store_books.Between.{OnlyPages};
ghost use Rattle.store_facts.specs.store_books.Books.{kept_in};

use crate::StoreFault;
use crate::store::Store;
use base_bytes::{Blob, MOST_BLOB_BYTES};
use base_types::Rec;
use edge_disk::{BLOCK_BYTES, Disk, DiskFault};

// The place of the first byte that isn't 0.
fn first_mark(bytes: &[u8]) -> Option<usize>
    ensures { IsRest bytes.now 0 result }
{
    for (i, byte) in bytes.iter().enumerate() {
        if *byte != 0 {
            return Some(i);
        }
    }
    None
}

// Adds the bytes of a block, as far as there are not more than so many then, and answers the place of the first byte behind them
// that isn't 0. A block that the disk hasn't has no bytes.
fn push_block<D: Disk>(
    disk: &mut D,
    at: u32,
    most: usize,
    out: &mut Blob,
) -> Result<Option<u32>, DiskFault>
    requires room { length out.old + BLOCK_BYTES ≤ MOST_BLOB_BYTES }
    requires few { length out.old ≤ most }
    ensures bytes { D.tells → OnOk result (out.new ≡ take most (out.old ++ block_at (D.reading disk.old) at)) }
    ensures rest { D.tells → IfOk result (IsRest (out.old ++ block_at (D.reading disk.old) at) most) }
    ensures few { (length out.new ≤ length out.old + BLOCK_BYTES) × (length out.new ≤ most) }
    ensures cause { HasCause (D.faults disk.old) (D.faults disk.new) result }
    ensures same { ReadsOnly D.Disk disk.old disk.new }
{
    if disk.blocks() <= at {
        return Ok(None);
    }
    let mut block = [0; 1024];
    disk.read(at, &mut block)?;
    let many = (most - out.len()).min(1024);
    out.put_bytes(&block[..many]);
    match first_mark(&block[many..]) {
        Some(place) => Ok(Some((most + place) as u32)),
        None => Ok(None),
    }
}

// The bytes of a blob of this length, in these blocks, and the place of the first byte behind them that isn't 0.
fn read_blocks<D: Disk>(
    disk: &mut D,
    blocks: &[u32; 8],
    bytes: u32,
    out: &mut Blob,
) -> Result<Option<u32>, DiskFault>
    ensures bytes { D.tells → OnOk result (out.new ≡ take bytes (concat (map (block_at (D.reading disk.old)) (take (blocks_for bytes) blocks.now)))) }
    ensures rest { D.tells → IfOk result (IsRest (concat (map (block_at (D.reading disk.old)) (take (blocks_for bytes) blocks.now))) bytes) }
    ensures cause { HasCause (D.faults disk.old) (D.faults disk.new) result }
    ensures same { ReadsOnly D.Disk disk.old disk.new }
{
    out.clear();
    let most = bytes as usize;
    let need = ((most + 1023) / 1024).min(8);
    let mut rest = None;
    for i in 0..need {
        rest = push_block(disk, blocks[i], most, out)?;
    }
    Ok(rest)
}

// The bytes of a record's blob, and the place of the first byte behind them that isn't 0.
pub(crate) fn read_bytes<D: Disk>(
    disk: &mut D,
    rec: &Rec,
    out: &mut Blob,
) -> Result<Option<u32>, DiskFault>
    ensures bytes { D.tells → OnOk result (out.new ≡ blob_in (D.reading disk.old) rec.now) }
    ensures rest { D.tells → IfOk result (IsRest (blob_room (D.reading disk.old) rec.now) rec.now.length) }
    ensures cause { HasCause (D.faults disk.old) (D.faults disk.new) result }
    ensures same { ReadsOnly D.Disk disk.old disk.new }
{
    read_blocks(disk, &rec.blocks, rec.length, out)
}

impl<D: Disk> Store<D> {
    /// Reads the bytes of a record's blob, and answers the place of the first byte behind them in its blocks that isn't 0. It
    /// begins no write and no sync, and reads 8 blocks at most. `out` holds anything after a fault.
    ///
    /// `Shut` comes exactly after an earlier failure of this value, and then nothing is changed. `ReadFault` comes only where the disk's
    /// count of faults rose, and shuts the store. No other fault comes.
    pub fn read_blob(&mut self, rec: &Rec, out: &mut Blob) -> Result<Option<u32>, StoreFault>
        ensures blob { D.tells → OnOk result (out.new ≡ blob_in (D.reading self.old.disk) rec.now) }
        ensures rest { D.tells → IfOk result (IsRest (blob_room (D.reading self.old.disk) rec.now) rec.now.length) }
        ensures same { self.new ≡ record self.old { disk = self.new.disk; shut = self.new.shut } }
        ensures disk { ReadsOnly D.Disk self.old.disk self.new.disk }
        ensures same_kept { kept_in (books self.new) ≡ kept_in (books self.old) }
        ensures between { OnlyPages D.Disk self.old.disk self.new.disk (books self.old) (books self.new) (books self.old).begun (books self.new).begun }
        ensures log { D.tells → HasStableLog D.Disk (books self.old) self.old.disk → HasStableLog D.Disk (books self.new) self.new.disk }
        ensures answers { ReadAnswers self.old.shut self.new.shut (Rose (D.faults self.old.disk) (D.faults self.new.disk)) result }
        ensures untouched { self.old.shut ≡ true → self.new ≡ self.old }
    {
        if self.shut {
            return Err(StoreFault::Shut);
        }
        self.shut = true;
        let rest = match read_bytes(&mut self.disk, rec, out) {
            Ok(rest) => rest,
            Err(_fault) => return Err(StoreFault::ReadFault),
        };
        self.shut = false;
        Ok(rest)
    }
}
