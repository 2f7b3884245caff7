// A record, its pages first.
ghost use Rattle.std.specs.Prelude.{◌≡◌, ◌↔◌, ◌⊎◌, ◌+◌, ◌^◌, ◌<◌, ◌≤◌, ◌++◌, ◌∷◌, [], List, All, true, false, length, slice_index, OnOk, IsErrOf};
ghost use Rattle.edge_disk.specs.Counts.{Rose};
ghost use Rattle.edge_disk.specs.Moments.{LeavesOnly};
ghost use Rattle.base_types.specs.declared.histories.Entry.{Entry as AnEntry};
ghost use Rattle.node_commits.specs.Deliveries.{KeepsCommits, StoresOneMore};
ghost use Rattle.page_placing.specs.Writing.{AreAscending};
ghost use Rattle.node_store.specs.Shipping.{IsShort, MayDeliver, TakesRecord};
ghost use Rattle.node_commits.specs.kernel_invariant.model_kernel.Choices.{Commit as ACommit};
ghost use Rattle.node_commits.specs.kernel_invariant.Beginnings.{Beginning as ABeginning};
ghost use Rattle.store_snapshots.specs.store_facts.image_facts.Bodies.{blocks_for};
ghost use Rattle.store_snapshots.specs.store_facts.image_facts.Layout.{slot_count};
ghost use Rattle.store_snapshots.specs.store_facts.State.{books};
ghost use Rattle.store_snapshots.specs.store_books.Books.{AreTrue, free_in, kept_in, recs_in};

use crate::spelling::Spelt;
use base_bytes::Blob;
use base_types::Entity;
use data_blocks::ShadowTable;
use edge_disk::{Disk, NoBlocks};
use page_placing::{PageWords, give_back_pages, write_pages};
use store_snapshots::{Store, StoreFault};

// Numbers of 32 bits.
fn read_numbers(blocks: &[u32])
    ensures { All (λ n. n < 2 ^ 32) blocks.now }
{
    for block in blocks {
        let _read = *block;
    }
}

// A table has a number for each page, each of 32 bits.
fn read_blocks(table: &[u32; 256])
    ensures long { length table.now ≡ 256 }
    ensures low { All (λ n. n < 2 ^ 32) table.now }
{
    let _first = table[0];
    read_numbers(table);
}

/// Writes the pages to free blocks, of which there are enough for them and for the blob, commits the record, and gives the blocks back:
/// then only the kept records name them.
fn put_shipped<D: Disk, S: Spelt>(
    store: &mut Store<D>,
    entity: Entity,
    version: u64,
    stamp: &[u64; 64],
    part: &S,
    pages: &[PageWords],
    blob: &mut Blob,
) -> Result<(), StoreFault>
    requires working { ((books store.old).shut ≡ false) × ((books store.old).found ≡ false) }
    requires own { slice_index stamp.now entity ≡ version }
    requires newer { (1 ≤ version) × All (λ r. r.entity ≡ entity → r.version < version) (recs_in (books store.old)) }
    requires formed { S.is_formed part.now }
    requires ascending { AreAscending pages.now }
    requires room { length (kept_in (books store.old)) < slot_count }
    requires free { length pages.now + blocks_for (S.length_of part.now) ≤ free_in (books store.old) }
    requires epoch { (books store.old).place.epoch < 2 ^ 63 }
    requires true_books { D.tells → AreTrue D.Disk (books store.old) store.old.disk }
    ensures true_books { D.tells → OnOk result (AreTrue D.Disk (books store.new) store.new.disk) }
    ensures in_memory { OnOk result (TakesRecord entity version stamp.now (books store.old) (books store.new)) }
    ensures keeps { D.tells → (b : ABeginning) (es : List AnEntry) (cs : List ACommit) (c : ACommit) → MayDeliver b es cs c (D.reading store.old.disk) (books store.old) entity version stamp.now (S.bytes part.now) pages.now
        → OnOk result (KeepsCommits b es (cs ++ c ∷ []) (D.reading store.new.disk) (books store.new) (λ x. [])) }
    ensures any_moment { D.tells → (b : ABeginning) (es : List AnEntry) (cs : List ACommit) (c : ACommit) → MayDeliver b es cs c (D.reading store.old.disk) (books store.old) entity version stamp.now (S.bytes part.now) pages.now
        → LeavesOnly D.Disk store.old.disk store.new.disk (StoresOneMore b es (books store.old).count cs c) }
    ensures later { D.faults store.old.disk ≤ D.faults store.new.disk }
    ensures failed { (e : StoreFault) → IsErrOf result e → (e ≡ StoreFault.WriteFault) × Rose (D.faults store.old.disk) (D.faults store.new.disk) × ((books store.new).shut ≡ true) }
{
    let mut table = ShadowTable::new();
    let written = write_pages(store, pages, &mut table);
    if written.is_err() {
        return Err(StoreFault::WriteFault);
    }
    store.held_law();
    read_blocks(&table.0);
    part.spell(&table.0, blob);
    store.commit(entity, version, stamp, blob, &table)?;
    give_back_pages(store, pages, &table);
    Ok(())
}

/// Commits a record of another kernel's run: its pages go into free blocks, its blob and the record behind them. No block is held when it
/// returns `Ok` that wasn't before. A stop at any moment leaves the commits so far, or one more.
///
/// `Shut` comes exactly after an earlier failure of the store, and `NoBlocks` exactly where fewer blocks are free than the pages and the blob
/// need, with both numbers; then nothing is changed. `WriteFault` comes only where the disk's count of faults rose, and shuts the store.
pub fn deliver_record<D: Disk, S: Spelt>(
    store: &mut Store<D>,
    entity: Entity,
    version: u64,
    stamp: &[u64; 64],
    part: &S,
    pages: &[PageWords],
    blob: &mut Blob,
) -> Result<(), StoreFault>
    requires read { (books store.old).found ≡ false }
    requires own { slice_index stamp.now entity ≡ version }
    requires newer { (1 ≤ version) × All (λ r. r.entity ≡ entity → r.version < version) (recs_in (books store.old)) }
    requires formed { S.is_formed part.now }
    requires ascending { AreAscending pages.now }
    requires few { length pages.now ≤ 256 }
    requires room { length (kept_in (books store.old)) < slot_count }
    requires epoch { (books store.old).place.epoch < 2 ^ 63 }
    requires true_books { D.tells → AreTrue D.Disk (books store.old) store.old.disk }
    ensures true_books { D.tells → OnOk result (AreTrue D.Disk (books store.new) store.new.disk) }
    ensures in_memory { OnOk result (TakesRecord entity version stamp.now (books store.old) (books store.new)) }
    ensures keeps { D.tells → (b : ABeginning) (es : List AnEntry) (cs : List ACommit) (c : ACommit) → MayDeliver b es cs c (D.reading store.old.disk) (books store.old) entity version stamp.now (S.bytes part.now) pages.now
        → OnOk result (KeepsCommits b es (cs ++ c ∷ []) (D.reading store.new.disk) (books store.new) (λ x. [])) }
    ensures any_moment { D.tells → (b : ABeginning) (es : List AnEntry) (cs : List ACommit) (c : ACommit) → MayDeliver b es cs c (D.reading store.old.disk) (books store.old) entity version stamp.now (S.bytes part.now) pages.now
        → (books store.old).shut ≡ false → LeavesOnly D.Disk store.old.disk store.new.disk (StoresOneMore b es (books store.old).count cs c) }
    ensures shut { (books store.old).shut ≡ true ↔ IsErrOf result StoreFault.Shut }
    ensures no_blocks { (n : NoBlocks) → IsErrOf result (StoreFault.NoBlocks n) ↔ IsShort (books store.old) (length pages.now + blocks_for (S.length_of part.now)) n }
    ensures untouched { IsErrOf result StoreFault.Shut ⊎ ((n : NoBlocks) × IsErrOf result (StoreFault.NoBlocks n)) → store.new ≡ store.old }
    ensures later { D.faults store.old.disk ≤ D.faults store.new.disk }
    ensures write_fault { IsErrOf result StoreFault.WriteFault → Rose (D.faults store.old.disk) (D.faults store.new.disk) × ((books store.new).shut ≡ true) }
    ensures no_read { IsErrOf result StoreFault.ReadFault → ⊥ }
{
    if store.is_shut() {
        return Err(StoreFault::Shut);
    }
    part.spell(&ShadowTable::new().0, blob);
    let need = pages.len() as u32 + ((blob.len() + 1023) / 1024) as u32;
    let free = store.free();
    if free < need {
        return Err(StoreFault::NoBlocks(NoBlocks { need, free }));
    }
    put_shipped(store, entity, version, stamp, part, pages, blob)
}
