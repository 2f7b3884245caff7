// One record of a lent cell.
ghost use Rattle.std.specs.Prelude.{◌≡◌, ◌↔◌, ◌<◌, false, Some, IsErrOf, OnErr, OnOk, length, slice_get, slice_set};
ghost use Rattle.kernel_commit_facts.specs.cell_blobs.Blobs.{is_recorded};
ghost use Rattle.kernel_commit_facts.specs.cell_states.declared.cells.Cell.{Cell as ACell};
ghost use Rattle.kernel_commit_facts.specs.Lacking.{LacksBlocks};
ghost use Rattle.kernel_commit_facts.specs.Parts.{parts_of};
ghost use Rattle.kernel_commit_facts.specs.Recording.{CanRecord, HasMade, HasNotMade, HasRecorded, IsShort, MayRecord};
ghost use Rattle.kernel_commit_facts.specs.kernel_invariant.Beginnings.{Beginning, run_of};
ghost use Rattle.kernel_commit_facts.specs.kernel_records.Committing.{CellFaults, CommitCounts};
ghost use Rattle.kernel_commits.specs.Recording.{Fails, GoesOnBy};

use base_bytes::Blob;
use base_types::{Entity, Entry, Event};
use edge_disk::{Disk, NoBlocks};
use kernel_commit_facts::{Cell, Store, StoreFault, commit_cell, mark_entry};
use kernel_commits::{Notes, Stopped, note_fault};
use thread_cells::{LockedCell, tell};
use thread_history::Run;
use thread_ties::{Authority, Bond};

/// Commits a record of a lent cell, which has changed since its newest one. Nothing is noted. Both sides of the tie know the cell as it is
/// left.
///
/// `NoBlocks` comes where fewer blocks are free than the record needs, with both numbers, before its first write.
pub fn commit_lent<D: Disk, B: Bond<Cell> + Run<Entry>>(
    all: &mut Authority<Cell, B>,
    cell: &mut LockedCell<B>,
    store: &mut Store<D>,
    blob: &mut Blob,
) -> Result<bool, StoreFault>
    requires can { CanRecord D.Disk cell.old.number all.old store.old }
    ensures stands { slice_get all.old cell.old.number ≡ Some cell.old.cell }
    ensures all { all.new ≡ slice_set all.old cell.old.number cell.new.cell }
    ensures cell { (cell.new.number ≡ cell.old.number) × (cell.new.known ≡ cell.old.known) }
    ensures made { OnOk result (HasMade D.Disk cell.old.number all.old all.new store.old store.new) }
    ensures unmade { OnErr result (HasNotMade D.Disk cell.old.number all.old all.new store.old store.new) }
    ensures faults { (c d : ACell) → slice_get all.old cell.old.number ≡ Some c → slice_get all.new cell.old.number ≡ Some d
        → CellFaults D.faults (is_recorded c ≡ false) result c d store.old store.new }
    ensures counts { CommitCounts D.Disk store.old store.new }
{
    all.agree(&mut cell.fragment);
    let made = commit_cell(&mut cell.cell, store, blob);
    tell(all, &mut cell.fragment, &cell.cell);
    made
}

/// Whose the lent cell is, and at which version.
fn named<B: Bond<Cell> + Run<Entry>>(cell: &LockedCell<B>) -> (Entity, u64)
    ensures entity { result.0 ≡ cell.now.number }
    ensures version { result.1 ≡ cell.now.cell.clock.version }
{
    (cell.cell.clock.entity, cell.cell.clock.version)
}

/// Makes a record of a lent cell that has changed since its newest one, with its Snap and its mark. Where it fails the kernel is to stop.
///
/// `NoBlocks` comes exactly where fewer blocks are free than the record needs, with both numbers, before its first write. `WriteFault`
/// leaves a Tried. Nothing is read. It begins at most 1556 writes and syncs, and takes no memory. What was in `blob` is lost.
pub fn record_lent<D: Disk, B: Bond<Cell> + Run<Entry>>(
    all: &mut Authority<Cell, B>,
    cell: &mut LockedCell<B>,
    store: &mut Store<D>,
    notes: &mut Notes,
    blob: &mut Blob,
) -> Result<(), Stopped>
    requires can { CanRecord D.Disk cell.old.number all.old store.old }
    requires entry_room { length notes.old.entries < notes.old.room }
    requires mark_room { length notes.old.marks < notes.old.room }
    ensures all { all.new ≡ slice_set all.old cell.old.number cell.new.cell }
    ensures cell { (cell.new.number ≡ cell.old.number) × (cell.new.known ≡ cell.old.known) }
    ensures recorded { OnOk result (HasRecorded D.Disk cell.old.number (parts_of store.old all.old notes.old) (parts_of store.new all.new notes.new)) }
    ensures no_blocks { (n : NoBlocks) → IsErrOf result (Stopped.NoBlocks n) ↔ IsShort D.Disk cell.old.number (parts_of store.old all.old notes.old) n }
    ensures fails { Fails D.Disk cell.old.number result (parts_of store.old all.old notes.old) (parts_of store.new all.new notes.new) }
    ensures run { D.tells → (b : Beginning) → MayRecord D.Disk b cell.old.number (parts_of store.old all.old notes.old)
        → GoesOnBy D.Disk b result (parts_of store.new all.new notes.new) }
    ensures enough { D.tells → (b : Beginning) → MayRecord D.Disk b cell.old.number (parts_of store.old all.old notes.old)
        → (run_of b notes.old.entries).short ≡ false → (n : NoBlocks) → IsErrOf result (Stopped.NoBlocks n) → LacksBlocks b (parts_of store.old all.old notes.old) }
    ensures counts { CommitCounts D.Disk store.old store.new }
{
    let (entity, version) = named(cell);
    match commit_lent(all, cell, store, blob) {
        Ok(_) => {
            notes.push_entry(&mark_entry(Event::Snap, entity, version));
            notes.push_mark(store.begun());
            Ok(())
        }
        Err(fault) => Err(note_fault(notes, entity, version, fault)),
    }
}
