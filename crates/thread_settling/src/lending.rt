// What a cell under a lock is to the calls over all cells.
ghost use Rattle.std.specs.Prelude.{◌≡◌, ◌↔◌, ◌<◌, ℕ, List, Some, IsErrOf, OnOk, length, slice_get, slice_set};
ghost use Rattle.base_types.specs.declared.histories.Entry.{Entry as AnEntry};
ghost use Rattle.thread_commits.specs.kernel_commit_facts.Parts.{parts_of};
ghost use Rattle.thread_commits.specs.kernel_commit_facts.Recording.{CanRecord, HasRecorded, IsShort, MayRecord};
ghost use Rattle.thread_commits.specs.kernel_commit_facts.kernel_invariant.Beginnings.{Beginning};
ghost use Rattle.thread_commits.specs.kernel_commit_facts.kernel_records.Committing.{CommitCounts};
ghost use Rattle.thread_commits.specs.kernel_commits.Recording.{Fails, GoesOnBy};

use base_bytes::Blob;
use base_types::Entry;
use edge_disk::{Disk, NoBlocks};
use thread_cells::LockedCell;
use thread_commits::{Cell, Notes, Stopped, Store, record_lent};
use thread_history::Run;
use thread_ties::{Authority, Bond};

/// A cell that lies under a lock. `K` is a type of the crate that says so of its cells, and means nothing else.
pub trait CellInLock<K> {
    ghost use Rattle.thread_cells.specs.Locked.{Keeping};

    // its number, itself, and the entries after the kept ones that its share knows
    ghost keeping: { Self → Keeping };

    /// The number of its entity.
    fn number(&self) -> u8
        ensures { result ≡ (keeping self.now).number };

    /// The cell itself.
    fn as_cell(&self) -> &Cell
        ensures { result.now ≡ (keeping self.now).cell };
}

/// A cell that can be lent from under its lock for a Stable: whatever its lock promises while it is free holds again behind its record.
pub trait LentCell<K, D: Disk, B: Bond<Cell> + Run<Entry>>: CellInLock<K> {
    ghost use Rattle.std.specs.Prelude.{List};
    ghost use Rattle.base_types.specs.declared.histories.Entry.{Entry as AnEntry};
    ghost use Rattle.thread_commits.specs.kernel_commit_facts.Parts.{Parts};

    // whether one whose share knows these entries may be let go beside a kernel's parts
    ghost fits: { List AnEntry → Parts D → Type 0 };

    /// Shows that the authority knows the cell as it is. Four loads.
    fn meet(&mut self, all: &mut Authority<Cell, B>)
        ensures cell { Self.keeping self.new ≡ Self.keeping self.old }
        ensures all { all.new ≡ all.old }
        ensures stands { slice_get all.old (Self.keeping self.old).number ≡ Some (Self.keeping self.old).cell };

    /// Makes a record of it, with its Snap and its mark, as `thread_commits::record_lent`. What may be let go beside the kernel's parts before it may
    /// be so behind it.
    fn make_record(
        &mut self,
        all: &mut Authority<Cell, B>,
        store: &mut Store<D>,
        notes: &mut Notes,
        blob: &mut Blob,
    ) -> Result<(), Stopped>
        requires can { CanRecord D.Disk (Self.keeping self.old).number all.old store.old }
        requires entry_room { length notes.old.entries < notes.old.room }
        requires mark_room { length notes.old.marks < notes.old.room }
        requires lawful { fits (Self.keeping self.old).known (parts_of store.old all.old notes.old) }
        ensures all { all.new ≡ slice_set all.old (Self.keeping self.old).number (Self.keeping self.new).cell }
        ensures cell { ((Self.keeping self.new).number ≡ (Self.keeping self.old).number) × ((Self.keeping self.new).known ≡ (Self.keeping self.old).known) }
        ensures recorded { OnOk result (HasRecorded D.Disk (Self.keeping self.old).number (parts_of store.old all.old notes.old) (parts_of store.new all.new notes.new)) }
        ensures no_blocks { (n : NoBlocks) → IsErrOf result (Stopped.NoBlocks n) ↔ IsShort D.Disk (Self.keeping self.old).number (parts_of store.old all.old notes.old) n }
        ensures fails { Fails D.Disk (Self.keeping self.old).number result (parts_of store.old all.old notes.old) (parts_of store.new all.new notes.new) }
        ensures run { D.tells → (b : Beginning) → MayRecord D.Disk b (Self.keeping self.old).number (parts_of store.old all.old notes.old)
            → GoesOnBy D.Disk b result (parts_of store.new all.new notes.new) }
        ensures counts { CommitCounts D.Disk store.old store.new }
        ensures lawful { (known : List AnEntry) → fits known (parts_of store.old all.old notes.old) → fits known (parts_of store.new all.new notes.new) };
}

/// Cells of which a free lock promises nothing.
pub struct Bare;

impl<B: Bond<Cell> + Run<Entry>> CellInLock<Bare> for LockedCell<B> {
    ghost keeping = { λ k. k };

    fn number(&self) -> u8 {
        self.cell.clock.entity.number()
    }

    fn as_cell(&self) -> &Cell {
        &self.cell
    }
}

impl<D: Disk, B: Bond<Cell> + Run<Entry>> LentCell<Bare, D, B> for LockedCell<B> {
    ghost use Rattle.std.specs.Prelude.{⊤};

    ghost fits = { λ known p. ⊤ };

    fn meet(&mut self, all: &mut Authority<Cell, B>) {
        all.agree(&mut self.fragment);
    }

    fn make_record(
        &mut self,
        all: &mut Authority<Cell, B>,
        store: &mut Store<D>,
        notes: &mut Notes,
        blob: &mut Blob,
    ) -> Result<(), Stopped> {
        record_lent(all, self, store, notes, blob)
    }
}
