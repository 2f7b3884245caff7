// The commit of a cell.
ghost use Rattle.std.specs.Prelude.{◌≡◌, ◌+◌, ◌≤◌, true, false, Ok, OnOk, OnErr, IsErrOf};
ghost use Rattle.edge_disk.specs.Disks.{IsStable};
ghost use Rattle.edge_disk.specs.Counts.{Rose};
ghost use Rattle.edge_disk.specs.Moments.{LeavesOnly};
ghost use Rattle.kernel_record_facts.specs.cell_blobs.Blobs.{blob_need, is_recorded, page_need};
ghost use Rattle.kernel_records.specs.Committing.{CellFaults, CommitCounts, HasCommitted, HasNotCommitted, MayCommit, StoresKeptOrCell};
ghost use Rattle.store_snapshots.specs.store_facts.Putting.{are_small};
ghost use Rattle.store_snapshots.specs.store_facts.State.{books};
ghost use Rattle.kernel_block_laws.specs.store_books.Books.{AreSmall, AreTrue, free_in, kept_names};

use crate::flushing::flush_part;
use crate::recording::record_cell;
use base_bytes::Blob;
use edge_disk::{Disk, NoBlocks};
use kernel_record_facts::{Cell, Wish, is_recorded, need_cell};
use store_snapshots::{Store, StoreFault};

/// Writes the changed pages of a cell and commits a record of it, for all of which enough blocks are free. Then no record is wished.
fn put_cell<D: Disk>(
    cell: &mut Cell,
    store: &mut Store<D>,
    blob: &mut Blob,
) -> Result<(), StoreFault>
    requires may { MayCommit (books store.old) cell.old }
    requires working { (books store.old).shut ≡ false }
    requires free { page_need (kept_names (books store.old)) cell.old.part + blob_need cell.old.part ≤ free_in (books store.old) }
    requires true_books { D.tells → AreTrue D.Disk (books store.old) store.old.disk }
    ensures made { OnOk result (HasCommitted D.Disk cell.old cell.new store.old store.new) }
    ensures unmade { OnErr result (HasNotCommitted D.Disk cell.old cell.new store.old store.new) }
    ensures true_books { D.tells → OnOk result (AreTrue D.Disk (books store.new) store.new.disk) }
    ensures stable { D.tells → OnOk result (IsStable D.Disk store.new.disk) }
    ensures any_moment { D.tells → AreSmall (books store.old) → are_small cell.old.clock.version cell.old.clock.stamp.0 ≡ true
        → LeavesOnly D.Disk store.old.disk store.new.disk (StoresKeptOrCell D.Disk cell.old cell.new store.old) }
    ensures failed { (e : StoreFault) → IsErrOf result e → (e ≡ StoreFault.WriteFault) × Rose (D.faults store.old.disk) (D.faults store.new.disk) × ((books store.new).shut ≡ true) }
    ensures counts { CommitCounts D.Disk store.old store.new }
{
    let flushed = flush_part(&mut cell.part, store);
    store.held_law();
    if flushed.is_err() {
        return Err(StoreFault::WriteFault);
    }
    record_cell(cell, store, blob)?;
    cell.wish = Wish {
        by_step: false,
        asked: false,
        newest: cell.clock.version,
    };
    Ok(())
}

/// Commits a record of the entity, with its changed pages and its blob, and tells whether one was made: none is where the entity hasn't
/// changed since its newest record. Then the newest record has the cell's version, and no record is wished. What was in `blob` is lost.
///
/// A fault comes only where a record is to be made. `Shut` comes exactly after an earlier failure of the store, and `NoBlocks` exactly
/// where then fewer blocks are free than `need_cell` counts, with both numbers; then nothing is changed. `WriteFault` comes only where
/// the disk's count of faults rose, and shuts the store: the record may be found when the image is opened again, or not, and the cell and
/// what other cells hold in blocks mean what they did.
///
/// That is one write for each changed page, at most 256, and what `Store::commit` takes.
pub fn commit_cell<D: Disk>(
    cell: &mut Cell,
    store: &mut Store<D>,
    blob: &mut Blob,
) -> Result<bool, StoreFault>
    requires may { is_recorded cell.old ≡ false → MayCommit (books store.old) cell.old }
    requires true_books { D.tells → AreTrue D.Disk (books store.old) store.old.disk }
    ensures recorded { is_recorded cell.old ≡ true → (result ≡ Ok false) × (cell.new ≡ cell.old) × (store.new ≡ store.old) }
    ensures made { is_recorded cell.old ≡ false → OnOk result ((result ≡ Ok true) × HasCommitted D.Disk cell.old cell.new store.old store.new) }
    ensures unmade { OnErr result (HasNotCommitted D.Disk cell.old cell.new store.old store.new) }
    ensures true_books { D.tells → OnOk result (AreTrue D.Disk (books store.new) store.new.disk) }
    ensures stable { D.tells → is_recorded cell.old ≡ false → OnOk result (IsStable D.Disk store.new.disk) }
    ensures any_moment { D.tells → is_recorded cell.old ≡ false → (books store.old).shut ≡ false → AreSmall (books store.old) → are_small cell.old.clock.version cell.old.clock.stamp.0 ≡ true
        → LeavesOnly D.Disk store.old.disk store.new.disk (StoresKeptOrCell D.Disk cell.old cell.new store.old) }
    ensures faults { CellFaults D.faults (is_recorded cell.old ≡ false) result cell.old cell.new store.old store.new }
    ensures counts { CommitCounts D.Disk store.old store.new }
{
    if is_recorded(cell) {
        return Ok(false);
    }
    store.held_law();
    if store.is_shut() {
        return Err(StoreFault::Shut);
    }
    let need = need_cell(cell, store, blob);
    let free = store.free();
    if free < need {
        return Err(StoreFault::NoBlocks(NoBlocks { need, free }));
    }
    put_cell(cell, store, blob)?;
    Ok(true)
}
