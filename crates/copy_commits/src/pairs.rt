// Two cells, committed one behind the other.
ghost use Rattle.std.specs.Prelude.{◌≡◌, ◌+◌, ◌≤◌, ℕ, List, true, false, OnOk, IsErrOf};
ghost use Rattle.edge_disk.specs.Counts.{Rose};
ghost use Rattle.edge_disk.specs.Image.{Image};
ghost use Rattle.edge_disk.specs.Moments.{LeavesOnly};
ghost use Rattle.kernel_invariant.specs.image_meaning.Meaning.{Means};
ghost use Rattle.kernel_invariant.specs.model_kernel.State.{KernelState, Supply, Text};
ghost use Rattle.store_copies.specs.Moments.{MeansEither};
ghost use Rattle.kernel_records.specs.kernel_record_facts.cell_blobs.Blobs.{blob_need};
ghost use Rattle.kernel_records.specs.store_books.Books.{AreTrue, free_in};
ghost use Rattle.kernel_records.specs.store_facts.State.{books};
ghost use Rattle.copy_commits.specs.Committing.{AreCopyCells, MayCommitPair};

use base_bytes::Blob;
use edge_disk::Disk;
use kernel_record_facts::Cell;
use kernel_records::record_cell;
use store_snapshots::{Store, StoreFault};

/// Commits a record of the atlas's cell, and behind it one of the copy's. No page of the copy is changed, and for both blobs enough blocks are
/// free. What was in `blob` is lost.
///
/// Only `WriteFault` comes, where the disk's count of faults rose, and it shuts the store. At each moment a stop leaves an image of the state of
/// before, or of the one with the copy; and behind `Ok` of the latter alone. That is 2,600 writes and syncs at most.
pub fn commit_pair<D: Disk>(
    atlas: &Cell,
    copy: &Cell,
    store: &mut Store<D>,
    blob: &mut Blob,
) -> Result<(), StoreFault>
    requires may { MayCommitPair (books store.old) atlas.now copy.now }
    requires working { (books store.old).shut ≡ false }
    requires free { blob_need atlas.now.part + blob_need copy.now.part ≤ free_in (books store.old) }
    requires true_books { D.tells → AreTrue D.Disk (books store.old) store.old.disk }
    ensures any_moment { D.tells → (s : Supply) → (name fresh : Text) → (v w : KernelState) → (tables : ℕ → List ℕ) → AreCopyCells s name fresh v w (D.reading store.old.disk) (books store.old) tables atlas.now copy.now
        → LeavesOnly D.Disk store.old.disk store.new.disk (MeansEither s v w) }
    ensures done { D.tells → OnOk result ((s : Supply) → (name fresh : Text) → (v w : KernelState) → (tables : ℕ → List ℕ) → AreCopyCells s name fresh v w (D.reading store.old.disk) (books store.old) tables atlas.now copy.now
        → (c : Image) → D.may_leave store.new.disk c → Means s c w) }
    ensures failed { (e : StoreFault) → IsErrOf result e → (e ≡ StoreFault.WriteFault) × Rose (D.faults store.old.disk) (D.faults store.new.disk) × ((books store.new).shut ≡ true) }
    ensures later { D.faults store.old.disk ≤ D.faults store.new.disk }
{
    record_cell(atlas, store, blob)?;
    record_cell(copy, store, blob)
}
