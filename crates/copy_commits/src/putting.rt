// A copy's pages, and its two records behind them.
ghost use Rattle.std.specs.Prelude.{◌≡◌, ◌≢◌, ◌⊎◌, ◌+◌, ◌≤◌, ℕ, List, true, false, slice_index, OnOk, IsErrOf};
ghost use Rattle.edge_disk.specs.Counts.{Rose};
ghost use Rattle.edge_disk.specs.Moments.{LeavesOnly};
ghost use Rattle.data_atlas.specs.data_atlas_facts.Directory.{Directory};
ghost use Rattle.cell_copies.specs.Copying.{MayPlace};
ghost use Rattle.page_placing.specs.Copying.{blocks_in};
ghost use Rattle.kernel_invariant.specs.model_kernel.State.{KernelState, Supply, Text};
ghost use Rattle.kernel_record_facts.specs.cell_blobs.Blobs.{blob_need};
ghost use Rattle.kernel_records.specs.store_books.Books.{AreTrue, free_in};
ghost use Rattle.kernel_records.specs.store_facts.State.{books};
ghost use Rattle.copy_commits.specs.Committing.{MayCommitPair};
ghost use Rattle.copy_commits.specs.Putting.{IsFaultOf, LeavesCopyOf, MayPutCopy, MeansBeforeOr};

use crate::pairs::commit_pair;
use base_bytes::Blob;
use cell_copies::place_pages;
use data_blocks::ShadowTable;
use edge_disk::Disk;
use kernel_record_facts::{Cell, Part};
use page_placing::copy_pages;
use page_store::PageFault;
use store_snapshots::{Store, StoreFault};

// The fault of a store in which a page could not be copied. There were blocks enough, and the store was open.
fn fault_of(fault: PageFault) -> StoreFault
    ensures { IsFaultOf fault result }
{
    match fault {
        PageFault::WriteFault => StoreFault::WriteFault,
        PageFault::ReadFault | PageFault::NoBlocks(_) | PageFault::Shut => StoreFault::ReadFault,
    }
}

/// Copies the pages of a container into free blocks, gives these to the copy, and commits the atlas and the copy behind that. There are enough free
/// blocks for the pages that have one and for both blobs. What was in `blob` is lost.
///
/// `ReadFault` and `WriteFault` come only where the disk's count of faults rose, and shut the store; nothing else goes wrong. At each moment a
/// stop leaves an image of the state of before, or of the one with the copy, and behind `Ok` of the latter alone. That is a read and a write for
/// each page that has a block, and what `commit_pair` takes.
pub fn put_copy<D: Disk>(
    atlas: &Cell,
    copy: &mut Cell,
    from: &ShadowTable,
    store: &mut Store<D>,
    blob: &mut Blob,
) -> Result<(), StoreFault>
    requires pair { MayCommitPair (books store.old) atlas.now copy.old }
    requires atlas { (d : Directory) × (atlas.now.part ≡ Part.Atlas d) }
    requires place { MayPlace copy.old.part from.now.0 }
    requires in_use { (p : ℕ) → slice_index from.now.0 p ≢ 0 → (books store.old).held (slice_index from.now.0 p) ≡ true }
    requires working { (books store.old).shut ≡ false }
    requires free { blocks_in from.now.0 + (blob_need atlas.now.part + blob_need copy.old.part) ≤ free_in (books store.old) }
    requires true_books { D.tells → AreTrue D.Disk (books store.old) store.old.disk }
    ensures any_moment { D.tells → (s : Supply) → (name fresh : Text) → (v : KernelState) → (tables : ℕ → List ℕ)
        → MayPutCopy s name fresh v (D.reading store.old.disk) (books store.old) tables from.now.0 atlas.now copy.old
        → LeavesOnly D.Disk store.old.disk store.new.disk (MeansBeforeOr s name fresh v) }
    ensures done { D.tells → OnOk result ((s : Supply) → (name fresh : Text) → (v : KernelState) → (tables : ℕ → List ℕ)
        → MayPutCopy s name fresh v (D.reading store.old.disk) (books store.old) tables from.now.0 atlas.now copy.old
        → LeavesCopyOf D.Disk s name fresh v store.new.disk) }
    ensures failed { (e : StoreFault) → IsErrOf result e → ((e ≡ StoreFault.ReadFault) ⊎ (e ≡ StoreFault.WriteFault)) × Rose (D.faults store.old.disk) (D.faults store.new.disk) × ((books store.new).shut ≡ true) }
    ensures later { D.faults store.old.disk ≤ D.faults store.new.disk }
{
    let mut table = ShadowTable::new();
    match copy_pages(store, from, &mut table) {
        Ok(()) => {}
        Err(fault) => return Err(fault_of(fault)),
    }
    store.held_law();
    place_pages(copy, &table);
    commit_pair(atlas, copy, store, blob)
}
