// A record of a cell whose pages are written.
ghost use Rattle.std.specs.Prelude.{◌≡◌, ◌≤◌, true, false, length, OnOk, IsErrOf};
ghost use Rattle.edge_disk.specs.Disks.{IsStable};
ghost use Rattle.edge_tally.specs.Counts.{Begins, shown};
ghost use Rattle.edge_disk.specs.Counts.{Rose};
ghost use Rattle.edge_disk.specs.Moments.{LeavesOnly};
ghost use Rattle.kernel_record_facts.specs.cell_blobs.Blobs.{blob_need, bytes_of, spelt_in};
ghost use Rattle.kernel_record_facts.specs.Cells.{table_of};
ghost use Rattle.kernel_records.specs.Committing.{HasRecord, IsSpelt, MayCommit};
ghost use Rattle.store_snapshots.specs.store_facts.Committed.{HasFailedShut, SameUsed, StoresKeptOrMore};
ghost use Rattle.store_snapshots.specs.store_facts.Putting.{are_small};
ghost use Rattle.store_snapshots.specs.store_facts.State.{books};
ghost use Rattle.kernel_block_laws.specs.store_books.Books.{AreSmall, AreTrue, free_in};

use base_bytes::Blob;
use data_blocks::ShadowTable;
use edge_disk::Disk;
use kernel_record_facts::{Cell, Part, write_part};
use store_snapshots::{Store, StoreFault};

/// The block of each page, 0 for none; of what has no pages 0 for each.
pub fn table_of(part: &Part) -> ShadowTable
    ensures { result.0 ≡ table_of part.now }
{
    match part {
        Part::Container(storage) => ShadowTable(*storage.memory.table()),
        _ => ShadowTable::new(),
    }
}

/// A clock has a component for each entity.
fn read_stamp(stamp: &[u64; 64])
    ensures { length stamp.now ≡ 64 }
{
    let _first = stamp[0];
}

/// Commits a record of a cell whose changed pages are written, and for whose blob enough blocks are free.
pub fn record_cell<D: Disk>(
    cell: &Cell,
    store: &mut Store<D>,
    blob: &mut Blob,
) -> Result<(), StoreFault>
    requires may { MayCommit (books store.old) cell.now }
    requires working { (books store.old).shut ≡ false }
    requires free { blob_need cell.now.part ≤ free_in (books store.old) }
    requires true_books { D.tells → AreTrue D.Disk (books store.old) store.old.disk }
    ensures spelt { IsSpelt cell.now }
    ensures made { OnOk result (HasRecord D.Disk cell.now store.old store.new) }
    ensures true_books { D.tells → OnOk result (AreTrue D.Disk (books store.new) store.new.disk) }
    ensures stable { D.tells → OnOk result (IsStable D.Disk store.new.disk) }
    ensures same_used { D.tells → SameUsed (books store.old) (D.reading store.old.disk) (D.reading store.new.disk) }
    ensures any_moment { D.tells → AreSmall (books store.old) → are_small cell.now.clock.version cell.now.clock.stamp.0 ≡ true
        → LeavesOnly D.Disk store.old.disk store.new.disk (StoresKeptOrMore (D.reading store.old.disk) (books store.old) cell.now.clock.entity cell.now.clock.version cell.now.clock.stamp.0 (bytes_of (spelt_in cell.now.part)) (table_of cell.now.part)) }
    ensures failed { (e : StoreFault) → IsErrOf result e → (e ≡ StoreFault.WriteFault) × Rose (D.faults store.old.disk) (D.faults store.new.disk) × HasFailedShut (books store.old) (books store.new) }
    ensures begins { Begins 1300 (shown D.Disk store.old.disk (books store.old).begun) (shown D.Disk store.new.disk (books store.new).begun) }
{
    write_part(&cell.part, blob);
    let table = table_of(&cell.part);
    let clock = &cell.clock;
    read_stamp(&clock.stamp.0);
    store.commit(clock.entity, clock.version, &clock.stamp.0, blob, &table)
}
