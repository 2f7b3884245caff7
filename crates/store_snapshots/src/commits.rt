// Committing a record.
ghost use Rattle.std.specs.Prelude.{◌≡◌, ◌+◌, ◌*◌, ◌^◌, ◌<◌, ◌≤◌, ◌&&◌, ◌++◌, ◌∷◌, [], List, All, true, false, length, slice_index, OnOk, OnErr, IsErrOf};
ghost use Rattle.edge_disk.specs.Disks.{IsStable};
ghost use Rattle.edge_disk.specs.Counts.{Rose};
ghost use Rattle.edge_disk.specs.Image.{SameOutside};
ghost use Rattle.edge_disk.specs.Moments.{LeavesOnly};
ghost use Rattle.edge_tally.specs.Counts.{Begins, shown};
ghost use Rattle.base_types.specs.declared.records.Rec.{Rec as Record};
ghost use Rattle.store_facts.specs.image_facts.Bodies.{blocks_for};
ghost use Rattle.store_facts.specs.image_facts.Layout.{most_length, slot_count};
ghost use Rattle.store_facts.specs.log_turn.Standing.{Stands, begun_of, epoch_of, used_of};
ghost use Rattle.store_facts.specs.store_commit.Storing.{HasBlob, HasLogged, HasPlaces, IsCommitBlock, IsReady, Next, StoresOneMore, new_of, roomy_log as roomy_recs};
ghost use Rattle.store_snapshots.specs.CommitAnswers.{CommitAnswers};
ghost use Rattle.store_facts.specs.Committed.{CommitsInFreeBlocks, HasFailedShut, HasNewRecord, SameUsed, StoresKeptOrMore};
ghost use Rattle.store_facts.specs.Naming.{IsPlaced};
ghost use Rattle.store_facts.specs.Putting.{HasFailed, HasPut, are_small};
ghost use Rattle.store_facts.specs.State.{books};
ghost use Rattle.store_facts.specs.store_books.Books.{AreHeldPages, AreSmall, AreTrue, free_in, kept_in, logged_recs, recs_in};

use crate::StoreFault;
use crate::numbers::is_small;
use crate::settling::settle;
use crate::store::Store;
use crate::taking::{release_blocks, take_blocks};
use base_bytes::Blob;
use base_types::{Entity, Rec};
use data_blocks::ShadowTable;
use edge_disk::{Disk, NoBlocks};
use store_facts::{LogFault, SLOT_COUNT, commit_record, spelled_blocks};

impl<D: Disk> Store<D> {
    // Writes a record's blob and appends the record, and keeps it in memory: the log is turned to the kept records where all slots
    // are used. After a failure the store is shut.
    fn put_record(
        &mut self,
        rec: &Rec,
        blob: &[[u8; 1024]],
        table: &ShadowTable,
    ) -> Result<(), LogFault>
        requires working { (self.old.shut ≡ false) × (self.old.blocks.all_named ≡ false) }
        requires few { (length self.old.kept < slot_count) × (length blob.now ≤ 8) }
        requires epoch { epoch_of self.old.areas < 2 ^ 63 }
        requires places { HasPlaces rec.now (length blob.now) self.old.blocks.end }
        requires placed { IsPlaced self.old.blocks.first self.old.blocks.end (record { rec = rec.now; table = table.now.0 }) }
        requires newer { All (λ r. r.entity ≡ rec.now.entity → r.version ≤ rec.now.version) (recs_in (books self.old)) }
        requires components { length rec.now.stamp ≡ 64 }
        requires stands { D.tells → (recs : List Record) × Stands D.Disk self.old.areas recs self.old.disk }

        ensures committed { D.tells → (recs : List Record) → Stands D.Disk self.old.areas recs self.old.disk
            → OnOk result (Stands D.Disk self.new.areas (roomy_recs (used_of self.old.areas) recs (logged_recs self.old.kept) ++ rec.now ∷ []) self.new.disk) }
        ensures blob { D.tells → OnOk result (HasBlob rec.now blob.now (D.reading self.new.disk)) }
        ensures outside { D.tells → SameOutside (IsCommitBlock rec.now (length blob.now)) (D.reading self.old.disk) (D.reading self.new.disk) }
        ensures stable { D.tells → OnOk result (IsStable D.Disk self.new.disk) }
        ensures stored { D.tells → (next : Next) → IsReady D.Disk next self.old.areas (logged_recs self.old.kept) rec.now blob.now self.old.disk
            → OnOk result (HasLogged D.Disk next.count self.new.areas (roomy_recs (used_of self.old.areas) next.recs (logged_recs self.old.kept) ++ rec.now ∷ []) (next.ks ++ new_of next rec.now ∷ []) self.new.disk) }
        ensures any_moment { D.tells → (next : Next) → IsReady D.Disk next self.old.areas (logged_recs self.old.kept) rec.now blob.now self.old.disk
            → LeavesOnly D.Disk self.old.disk self.new.disk (StoresOneMore next.count next.ks (new_of next rec.now)) }
        ensures epoch { OnOk result ((epoch_of self.old.areas ≤ epoch_of self.new.areas) × (epoch_of self.new.areas ≤ epoch_of self.old.areas + 1)) }
        ensures put { OnOk result (HasPut (record { rec = rec.now; table = table.now.0 }) self.old self.new) }
        ensures failed { OnErr result (HasFailed self.old self.new × Rose (D.faults self.old.disk) (D.faults self.new.disk)) }
        ensures pages { self.new.read_calls ≡ self.old.read_calls }
        ensures begins { Begins (2 * length self.old.kept + length blob.now + 14) (shown D.Disk self.old.disk (begun_of self.old.areas)) (shown D.Disk self.new.disk (begun_of self.new.areas)) }
    {
        let turned = self.areas.used() == SLOT_COUNT;
        self.shut = true;
        commit_record(&mut self.areas, &mut self.disk, self.kept.recs(), rec, blob)?;
        settle(
            &mut self.log,
            &mut self.kept,
            &mut self.cut,
            &mut self.blocks,
            rec,
            table,
            turned,
        );
        self.small = self.small && is_small(rec);
        self.shut = false;
        Ok(())
    }

    // Commits a record, for whose blob enough blocks are free.
    fn write_record(
        &mut self,
        entity: Entity,
        version: u64,
        stamp: &[u64; 64],
        bytes: &[u8],
        table: &[u32; 256],
    ) -> Result<(), StoreFault>
        requires working { ((books self.old).shut ≡ false) × ((books self.old).found ≡ false) }
        requires entity { entity < 64 }
        requires bytes { (1 ≤ length bytes.now) × (length bytes.now ≤ most_length) }
        requires own { slice_index stamp.now entity ≡ version }
        requires newer { (1 ≤ version) × All (λ r. r.entity ≡ entity → r.version < version) (recs_in (books self.old)) }
        requires pages { AreHeldPages (books self.old).held table.now }
        requires room { length (kept_in (books self.old)) < slot_count }
        requires free { blocks_for (length bytes.now) ≤ free_in (books self.old) }
        requires epoch { (books self.old).place.epoch < 2 ^ 63 }
        requires true_books { D.tells → AreTrue D.Disk (books self.old) self.old.disk }

        ensures committed { D.tells → OnOk result (CommitsInFreeBlocks entity version stamp.now bytes.now table.now (D.reading self.new.disk) (books self.old) (books self.new)) }
        ensures in_memory { OnOk result (HasNewRecord entity version (length bytes.now) stamp.now table.now (books self.old) (books self.new)) }
        ensures true_books { D.tells → OnOk result (AreTrue D.Disk (books self.new) self.new.disk) }
        ensures stable { D.tells → OnOk result (IsStable D.Disk self.new.disk) }
        ensures same_used { D.tells → SameUsed (books self.old) (D.reading self.old.disk) (D.reading self.new.disk) }
        ensures small { OnOk result ((books self.new).small ≡ ((books self.old).small && are_small version stamp.now)) }
        ensures any_moment { D.tells → AreSmall (books self.old) → are_small version stamp.now ≡ true
            → LeavesOnly D.Disk self.old.disk self.new.disk (StoresKeptOrMore (D.reading self.old.disk) (books self.old) entity version stamp.now bytes.now table.now) }
        ensures only_write_fault { (e : StoreFault) → IsErrOf result e → e ≡ StoreFault.WriteFault }
        ensures failed { OnErr result (Rose (D.faults self.old.disk) (D.faults self.new.disk) × HasFailedShut (books self.old) (books self.new)) }
        ensures pages { self.new.read_calls ≡ self.old.read_calls }
        ensures begins { Begins 1300 (shown D.Disk self.old.disk (books self.old).begun) (shown D.Disk self.new.disk (books self.new).begun) }
    {
        let need = (bytes.len() + 1023) / 1024;
        let blocks = take_blocks(&mut self.blocks, need);
        let rec = Rec {
            entity,
            version,
            stamp: *stamp,
            length: bytes.len() as u32,
            blocks,
        };
        let done = self.put_record(&rec, &spelled_blocks(bytes)[..need], &ShadowTable(*table));
        release_blocks(&mut self.blocks, &blocks[..need]);
        match done {
            Ok(()) => Ok(()),
            Err(_fault) => Err(StoreFault::WriteFault),
        }
    }

    /// Commits a record of an entity: its blob, of 1 to 8,192 bytes, goes into free blocks, and the record behind the log, which is
    /// turned to the kept records first where its 640 slots are used. A stop at any moment leaves what was kept, or that and the
    /// new record. It takes no memory. Then the greatest closed choice may have risen; the blocks that only records below it named
    /// are free at once.
    ///
    /// `Shut` comes exactly after an earlier failure of this value, and `NoBlocks` exactly where fewer blocks are free than the blob
    /// needs, with both numbers; then nothing is changed. `WriteFault` comes only where the disk's count of faults rose, and shuts the
    /// store: the record may be found when the image is opened again, or not.
    ///
    /// That is 1,300 writes and syncs at most, and without a turn one for each block of the blob and five. The work in memory grows
    /// with the kept records and with what is written, but where the log was turned the kept records are copied.
    pub fn commit(
        &mut self,
        entity: Entity,
        version: u64,
        stamp: &[u64; 64],
        blob: &Blob,
        pages: &ShadowTable,
    ) -> Result<(), StoreFault>
        requires read { (books self.old).found ≡ false }
        requires blob { 1 ≤ length blob.now }
        requires own { slice_index stamp.now entity ≡ version }
        requires newer { (1 ≤ version) × All (λ r. r.entity ≡ entity → r.version < version) (recs_in (books self.old)) }
        requires pages { AreHeldPages (books self.old).held pages.now.0 }
        requires room { length (kept_in (books self.old)) < slot_count }
        requires epoch { (books self.old).place.epoch < 2 ^ 63 }
        requires true_books { D.tells → AreTrue D.Disk (books self.old) self.old.disk }

        ensures committed { D.tells → OnOk result (CommitsInFreeBlocks entity version stamp.now blob.now pages.now.0 (D.reading self.new.disk) (books self.old) (books self.new)) }
        ensures in_memory { OnOk result (HasNewRecord entity version (length blob.now) stamp.now pages.now.0 (books self.old) (books self.new)) }
        ensures true_books { D.tells → OnOk result (AreTrue D.Disk (books self.new) self.new.disk) }
        ensures stable { D.tells → OnOk result (IsStable D.Disk self.new.disk) }
        ensures same_used { D.tells → SameUsed (books self.old) (D.reading self.old.disk) (D.reading self.new.disk) }
        ensures small { OnOk result ((books self.new).small ≡ ((books self.old).small && are_small version stamp.now)) }

        // A stop at any moment of the call leaves what was kept, or that and the new record.
        ensures any_moment { D.tells → AreSmall (books self.old) → are_small version stamp.now ≡ true → (books self.old).shut ≡ false
            → LeavesOnly D.Disk self.old.disk self.new.disk (StoresKeptOrMore (D.reading self.old.disk) (books self.old) entity version stamp.now blob.now pages.now.0) }

        ensures answers { CommitAnswers D.faults (length blob.now) result self.old self.new }
        ensures pages { self.new.read_calls ≡ self.old.read_calls }
        ensures begins { Begins 1300 (shown D.Disk self.old.disk (books self.old).begun) (shown D.Disk self.new.disk (books self.new).begun) }
    {
        if self.shut {
            return Err(StoreFault::Shut);
        }
        let number = entity.number();
        prove!(number < 64);
        let need = (blob.len() + 1023) / 1024;
        let free = self.blocks.free();
        if (free as usize) < need {
            return Err(StoreFault::NoBlocks(NoBlocks {
                need: need as u32,
                free,
            }));
        }
        self.write_record(entity, version, stamp, blob.as_slice(), &pages.0)
    }
}
