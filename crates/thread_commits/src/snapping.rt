// The Snap of a lent cell by its wish.
ghost use Rattle.std.specs.Prelude.{◌≡◌, ℕ, List, true, Some, slice_get, slice_set};
ghost use Rattle.kernel_commit_facts.specs.model_kernel.Histories.{Run, has_wish};
ghost use Rattle.kernel_commit_facts.specs.model_kernel.State.{Supply};
ghost use Rattle.kernel_commit_facts.specs.cell_states.Cells.{HasCell, part_of};
ghost use Rattle.kernel_commit_facts.specs.cell_states.Wishes.{HasWish, is_open};
ghost use Rattle.kernel_commit_facts.specs.cell_states.declared.cells.Cell.{Cell as ACell};
ghost use Rattle.kernel_commit_facts.specs.cell_wish_laws.Founded.{IsFoundedCell};
ghost use Rattle.kernel_commit_facts.specs.store_facts.Shelves.{records_of};
ghost use Rattle.kernel_commit_facts.specs.store_facts.State.{books};
ghost use Rattle.kernel_commit_facts.specs.store_books.Books.{kept_in};
ghost use Rattle.kernel_commit_facts.specs.kernel_invariant.Beginnings.{Beginning, run_of};
ghost use Rattle.kernel_commit_facts.specs.Parts.{parts_of};
ghost use Rattle.kernel_commit_facts.specs.Snapping.{CanSnap, RunsFree, Snaps, wants_in};
ghost use Rattle.kernel_commit_facts.specs.Steady.{IsSteady};
ghost use Rattle.thread_commits.specs.Snapping.{SnapsWished};

use crate::recording::record_lent;
use base_bytes::Blob;
use base_types::Entry;
use edge_disk::Disk;
use edge_managers::{Gate, Policy, Supplier};
use kernel_commit_facts::{Cell, FULL, Store};
use kernel_commits::{Notes, Stopped};
use thread_cells::LockedCell;
use thread_history::Run as Named;
use thread_ties::{Authority, Bond};

/// Whether a record of a lent cell is wished.
fn wishes_lent<B: Bond<Cell> + Named<Entry>, S: Supplier, P: Policy>(
    all: &mut Authority<Cell, B>,
    cell: &mut LockedCell<B>,
    gate: &Gate<S, P>,
) -> bool
    requires keeps { P.keeps gate.now.policy }
    requires founded { (x : ℕ) (c : ACell) → slice_get all.old x ≡ Some c → IsFoundedCell c }
    ensures same { (all.new ≡ all.old) × (cell.new ≡ cell.old) }
    ensures there { slice_get all.old cell.old.number ≡ Some cell.old.cell }
    ensures number { cell.old.number ≡ cell.old.cell.clock.entity }
    ensures open { (s : Supply) (words : ℕ → List ℕ) → result ≡ is_open (P.wish gate.now.policy) (part_of s words cell.old.cell.part) cell.old.cell.clock.version cell.old.cell.wish }
    ensures run { (s : Supply) (words : ℕ → List ℕ) (steps : ℕ) (r : Run) → HasCell s words r.state cell.old.cell → HasWish steps r cell.old.cell
        → result ≡ has_wish (P.wish gate.now.policy) r cell.old.cell.clock.entity }
{
    all.agree(&mut cell.fragment);
    cell.cell.is_wished(gate)
}

/// How many kept records are of the lent cell's entity.
fn kept_of<D: Disk, B: Bond<Cell> + Named<Entry>>(cell: &LockedCell<B>, store: &Store<D>) -> u16
    ensures { result ≡ records_of cell.now.number (kept_in (books store.now)) }
{
    store.kept_count(cell.cell.clock.entity)
}

/// Whether a Snap of a lent cell is to be made: its wish is open, and it isn't full.
fn wants_lent<D: Disk, B: Bond<Cell> + Named<Entry>, S: Supplier, P: Policy>(
    all: &mut Authority<Cell, B>,
    cell: &mut LockedCell<B>,
    store: &Store<D>,
    notes: &Notes,
    gate: &Gate<S, P>,
) -> bool
    requires keeps { P.keeps gate.now.policy }
    requires steady { IsSteady D.Disk (parts_of store.now all.old notes.now) }
    ensures same { (all.new ≡ all.old) × (cell.new ≡ cell.old) }
    ensures there { slice_get all.old cell.old.number ≡ Some cell.old.cell }
    ensures snaps { Snaps (P.wish gate.now.policy) cell.old.number (parts_of store.now all.old notes.now) result }
    ensures can { result ≡ true → CanSnap D.Disk cell.old.number (parts_of store.now all.old notes.now) }
    ensures run { D.tells → (b : Beginning) → RunsFree D.Disk b (P.wish gate.now.policy) (parts_of store.now all.old notes.now)
        → wants_in (P.wish gate.now.policy) (run_of b notes.now.entries) cell.old.number ≡ result }
{
    let _ = notes;
    if !wishes_lent(all, cell, gate) {
        return false;
    }
    kept_of(cell, store) < FULL
}

/// Makes a record of a lent cell where one is wished and the entity isn't full, and tells whether it did (`SnapsWished`). Both sides of the
/// tie know the cell as it is left.
///
/// `NoBlocks` comes exactly where such a record is to be made and fewer blocks are free than it needs, with both numbers, before its first
/// write. `WriteFault` leaves a Tried. Nothing is read. It begins at most 1556 writes and syncs, and takes no memory. What was in `blob` is
/// lost.
pub fn snap_lent<D: Disk, B: Bond<Cell> + Named<Entry>, S: Supplier, P: Policy>(
    all: &mut Authority<Cell, B>,
    cell: &mut LockedCell<B>,
    store: &mut Store<D>,
    notes: &mut Notes,
    blob: &mut Blob,
    gate: &Gate<S, P>,
) -> Result<bool, Stopped>
    requires keeps { P.keeps gate.now.policy }
    requires steady { IsSteady D.Disk (parts_of store.old all.old notes.old) }
    ensures stands { slice_get all.old cell.old.number ≡ Some cell.old.cell }
    ensures all { all.new ≡ slice_set all.old cell.old.number cell.new.cell }
    ensures cell { (cell.new.number ≡ cell.old.number) × (cell.new.known ≡ cell.old.known) }
    ensures snaps { SnapsWished D.Disk (P.wish gate.now.policy) cell.old.number result (parts_of store.old all.old notes.old) (parts_of store.new all.new notes.new) }
{
    if !wants_lent(all, cell, store, notes, gate) {
        return Ok(false);
    }
    match record_lent(all, cell, store, notes, blob) {
        Ok(()) => Ok(true),
        Err(why) => Err(why),
    }
}
