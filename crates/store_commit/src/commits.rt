// The phases of a commit.
ghost use Rattle.std.specs.Prelude.{◌≡◌, ◌≤◌, ◌<◌, ◌+◌, ◌*◌, ◌^◌, ◌∷◌, ◌++◌, [], ℕ, List, false, length, OnOk};
ghost use Rattle.edge_disk.specs.Disks.{IsStable};
ghost use Rattle.edge_disk.specs.Counts.{Rose};
ghost use Rattle.edge_disk.specs.Image.{SameOutside};
ghost use Rattle.edge_disk.specs.Moments.{LeavesOnly};
ghost use Rattle.base_types.specs.declared.records.Rec.{Rec as Record};
ghost use Rattle.store_books.specs.model_cut_laws.Records.{AgreeInRecs};
ghost use Rattle.edge_tally.specs.Counts.{Begins, shown};
ghost use Rattle.store_books.specs.image_facts.Layout.{last_number, pool_at, slot_count};
ghost use Rattle.store_books.specs.image_facts.Logs.{AreFitting};
ghost use Rattle.store_books.specs.image_meaning.Stores.{Kept, Stores, recs_of};
ghost use Rattle.store_books.specs.log_turn.Answers.{TurnAnswers};
ghost use Rattle.store_books.specs.log_turn.Standing.{Stands, begun_of, epoch_of, has_failed, used_of};
ghost use Rattle.store_books.specs.Books.{IsBeforePool};
ghost use Rattle.store_commit.specs.Storing.{HasBlob, HasLogged, HasPlaces, IsCommitBlock, IsReady, Next, StoresOneMore, new_of, roomy_log, roomy_used};

use crate::blobs::write_blob;
use base_types::Rec;
use edge_disk::Disk;
use store_books::{Areas, LogFault, SLOT_COUNT};

// Turns the log to the kept records where all its slots are used.
fn make_room<D: Disk>(areas: &mut Areas, disk: &mut D, kept: &[Rec]) -> Result<(), LogFault>
    requires enough { pool_at ≤ D.block_count disk.old }
    requires few { length kept.now < slot_count }
    requires epoch { epoch_of areas.old < 2 ^ 63 }
    requires working { has_failed areas.old ≡ false }
    requires stands { D.tells → (recs : List Record) × Stands D.Disk areas.old recs disk.old }

    ensures room { OnOk result (used_of areas.new < slot_count) }
    ensures used { OnOk result (used_of areas.new ≡ roomy_used (used_of areas.old) (length kept.now)) }
    ensures working { OnOk result (has_failed areas.new ≡ false) }
    ensures epoch { OnOk result ((epoch_of areas.old ≤ epoch_of areas.new) × (epoch_of areas.new ≤ epoch_of areas.old + 1)) }
    ensures stands { D.tells → (recs : List Record) → Stands D.Disk areas.old recs disk.old
        → OnOk result (Stands D.Disk areas.new (roomy_log (used_of areas.old) recs kept.now) disk.new) }
    ensures logged { D.tells → (count : ℕ) → (recs : List Record) → (ks : List Kept) → HasLogged D.Disk count areas.old recs ks disk.old
        → AreFitting count kept.now → AgreeInRecs kept.now (recs_of ks) → epoch_of areas.old < last_number
        → OnOk result (HasLogged D.Disk count areas.new (roomy_log (used_of areas.old) recs kept.now) ks disk.new) }
    ensures reading { D.tells → SameOutside IsBeforePool (D.reading disk.old) (D.reading disk.new) }
    ensures any_moment { D.tells → (count : ℕ) → (recs : List Record) → (ks : List Kept) → HasLogged D.Disk count areas.old recs ks disk.old
        → AreFitting count kept.now → AgreeInRecs kept.now (recs_of ks) → epoch_of areas.old < last_number → LeavesOnly D.Disk disk.old disk.new (Stores count ks) }
    ensures answers { TurnAnswers (has_failed areas.old) (Rose (D.faults disk.old) (D.faults disk.new)) result }
    ensures begins { Begins (2 * length kept.now + 9) (shown D.Disk disk.old (begun_of areas.old)) (shown D.Disk disk.new (begun_of areas.new)) }
{
    if areas.used() < SLOT_COUNT {
        return Ok(());
    }
    areas.turn(disk, kept)
}

/// Commits a record: where all slots of the log are used it is turned to the kept records, up to 639 of them; the blob, up to
/// 8 blocks that the record names, is written there; and the record is appended. A stop at any moment leaves an image that
/// stores what was kept, or that and the new record.
///
/// The areas haven't failed. `WriteFault` comes only where the disk's count of faults rose; then the caller begins nothing
/// more on this disk, since the areas may go on as if nothing was tried. Nothing else goes wrong. That is 14 writes and syncs
/// more than twice as many as records are kept and one for each block of the blob, at most; the kept records are looked at
/// only where the log is turned.
pub fn commit_record<D: Disk>(
    areas: &mut Areas,
    disk: &mut D,
    kept: &[Rec],
    rec: &Rec,
    blob: &[[u8; 1024]],
) -> Result<(), LogFault>
    requires enough { pool_at ≤ D.block_count disk.old }
    requires few { (length kept.now < slot_count) × (length blob.now ≤ 8) }
    requires epoch { epoch_of areas.old < 2 ^ 63 }
    requires working { has_failed areas.old ≡ false }
    requires places { HasPlaces rec.now (length blob.now) (D.block_count disk.old) }
    requires stands { D.tells → (recs : List Record) × Stands D.Disk areas.old recs disk.old }

    ensures committed { D.tells → (recs : List Record) → Stands D.Disk areas.old recs disk.old
        → OnOk result (Stands D.Disk areas.new (roomy_log (used_of areas.old) recs kept.now ++ rec.now ∷ []) disk.new) }
    ensures blob { D.tells → OnOk result (HasBlob rec.now blob.now (D.reading disk.new)) }
    ensures outside { D.tells → SameOutside (IsCommitBlock rec.now (length blob.now)) (D.reading disk.old) (D.reading disk.new) }
    ensures stable { D.tells → OnOk result (IsStable D.Disk disk.new) }
    ensures stored { D.tells → (next : Next) → IsReady D.Disk next areas.old kept.now rec.now blob.now disk.old
        → OnOk result (HasLogged D.Disk next.count areas.new (roomy_log (used_of areas.old) next.recs kept.now ++ rec.now ∷ []) (next.ks ++ new_of next rec.now ∷ []) disk.new) }

    // A stop at any moment of the call leaves what was kept, or that and the new record.
    ensures any_moment { D.tells → (next : Next) → IsReady D.Disk next areas.old kept.now rec.now blob.now disk.old
        → LeavesOnly D.Disk disk.old disk.new (StoresOneMore next.count next.ks (new_of next rec.now)) }

    ensures used { OnOk result (used_of areas.new ≡ roomy_used (used_of areas.old) (length kept.now) + 1) }
    ensures working { OnOk result (has_failed areas.new ≡ false) }
    ensures epoch { OnOk result ((epoch_of areas.old ≤ epoch_of areas.new) × (epoch_of areas.new ≤ epoch_of areas.old + 1)) }
    ensures answers { TurnAnswers (has_failed areas.old) (Rose (D.faults disk.old) (D.faults disk.new)) result }
    ensures begins { Begins (2 * length kept.now + length blob.now + 14) (shown D.Disk disk.old (begun_of areas.old)) (shown D.Disk disk.new (begun_of areas.new)) }
{
    make_room(areas, disk, kept)?;
    write_blob(areas, disk, rec, blob)?;
    areas.append(disk, rec)
}
