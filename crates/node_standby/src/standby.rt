// A standby.
ghost use Rattle.std.specs.Prelude.{◌≡◌, ◌↔◌, ◌⊎◌, ◌+◌, ◌^◌, ◌<◌, ◌≤◌, ℕ, All, List, [], true, false, count_by, length, slice_index, Ok, IfErr, IfOk, IsErrOf, IsTrue, MatchResult, OnOk};
ghost use Rattle.edge_disk.specs.Moments.{LeavesOnly};
ghost use Rattle.base_types.specs.declared.histories.Entry.{Entry as AnEntry};
ghost use Rattle.node_shipments.specs.Parts.{length_in};
ghost use Rattle.node_shipments.specs.Runs.{IsShipmentAt};
ghost use Rattle.node_shipments.specs.kernel_invariant.Beginnings.{Beginning as ABeginning, BeginsRight, IsLegal};
ghost use Rattle.node_shipments.specs.kernel_invariant.model_cut_laws.Records.{is_rec_from};
ghost use Rattle.node_shipments.specs.node_store.Shipping.{IsShort, TakesRecord};
ghost use Rattle.node_standby.specs.Causes.{HasStandbyCauseIn, IsEmptyImage};
ghost use Rattle.node_standby.specs.Following.{Follows, IsImageBetween, MayTake, most_in};
ghost use Rattle.node_standby.specs.Standing.{HasDiskCause, IsPlaceOf};
ghost use Rattle.node_world.specs.Worlds.{is_next};
ghost use Rattle.kernel_views.specs.store_snapshots.store_facts.Opening.{IsSynced, SyncsOnly};
ghost use Rattle.kernel_views.specs.store_snapshots.store_facts.State.{books};
ghost use Rattle.kernel_views.specs.store_snapshots.store_facts.image_facts.Bodies.{blocks_for};
ghost use Rattle.kernel_views.specs.store_snapshots.store_facts.image_facts.Layout.{slot_count};
ghost use Rattle.kernel_views.specs.store_snapshots.store_books.Books.{is_used, kept_in, kept_names, recs_in};

use crate::faults::{StandbyFault, StandbyWhy};
use base_bytes::Blob;
use base_types::{Cut, Entity, Rec};
use data_cuts::MOST_RECORDS;
use edge_disk::{Disk, NoBlocks};
use kernel_views::{Store, StoreFault, SyncedLog};
use node_shipments::{Shipped, deliver_record};
use std::alloc::Global;
use std::marker::Model;

/// A store that takes the shipments of another kernel's run in their order. Between its calls it holds no block beside those that its kept
/// records name.
#[derive(Drop)]
pub struct Standby<D: Disk> {
    store: Store<D>,
    count: u64,
    blob: Blob,
}

impl<D: Disk> Model for Standby<D> {
    ghost use Rattle.node_standby.specs.Standing.{IsStandby, Standing};

    ghost Value = { Standing D };

    ghost view = { λ s. record { store = s.store; count = s.count } };

    ghost invariant = { λ s. IsStandby D.Disk (record { store = s.store; count = s.count }) };
}

// Whether the number is that of the next shipment behind so many.
fn is_next(count: u64, number: u64) -> bool
    ensures { result ≡ is_next count number }
{
    number > 0 && number - 1 == count
}

// So many shipments may be counted.
const MOST_SHIPMENTS: u64 = 1 << 62;

// How many records are at or above a cut.
fn count_from(recs: &[Rec], cut: &Cut) -> usize
    ensures { result ≡ count_by (is_rec_from (slice_index cut.now.0)) recs.now }
{
    recs.iter()
        .filter(|rec| cut.0[rec.entity.number() as usize] <= rec.version)
        .count()
}

// Whether each record of the entity has a lower version.
fn is_newer(recs: &[Rec], entity: Entity, version: u64) -> bool
    ensures { IsTrue result ↔ All (λ r. r.entity ≡ entity → r.version < version) recs.now }
{
    recs.iter()
        .all(|rec| rec.entity != entity || rec.version < version)
}

// Whether fewer records are kept than a log has slots.
fn has_room<D: Disk>(store: &Store<D>) -> bool
    ensures { IsTrue result ↔ length (kept_in (books store.now)) < slot_count }
{
    let kept = count_from(store.recs(), &store.cut());
    kept < MOST_RECORDS
}

// Whether a standby with this store, which took so many shipments, may take this one next.
fn may_take<D: Disk>(store: &Store<D>, count: u64, shipped: &Shipped) -> bool
    ensures { IsTrue result ↔ MayTake (record { store = store.now; count = count }) shipped.now }
{
    let few = count < MOST_SHIPMENTS;
    let room = has_room(store);
    let newer = is_newer(store.recs(), shipped.entity(), shipped.version());
    few && room && newer
}

// A standby over an image that was read and has no record.
fn over<D: Disk>(alloc: Global, synced: SyncedLog<D>) -> Result<Standby<D>, StandbyFault<D>>
    requires synced { IsSynced D.Disk synced.disk synced.tally synced.log }
    requires empty { synced.log.recs.items ≡ [] }
    ensures count { IfOk result (λ s. s.count ≡ 0) }
    ensures empty { IfOk result (λ s. recs_in (books s.store) ≡ []) }
    ensures working { IfOk result (λ s. (books s.store).shut ≡ false) }
    ensures place { IfOk result (λ s. (books s.store).place ≡ record { active = synced.log.area; epoch = synced.log.epoch }) }
    ensures follows { (b : ABeginning) (es : List AnEntry) → BeginsRight b → IsLegal b es
        → IfOk result (λ s. (books s.store).place.epoch ≤ 2 ^ 61 → Follows b es D.Disk s) }
    ensures memory { IfErr result (λ fault. fault.why ≡ StandbyWhy.Memory) }
    ensures same_disk { MatchResult result (λ s. s.store.disk ≡ synced.disk) (λ fault. fault.disk ≡ synced.disk) }
{
    let blob = match Blob::new(alloc) {
        Ok(blob) => blob,
        Err(_) => {
            return Err(StandbyFault {
                why: StandbyWhy::Memory,
                disk: synced.disk,
            });
        }
    };
    match Store::over(alloc, synced) {
        Ok(store) => Ok(Standby {
            store,
            count: 0,
            blob,
        }),
        Err(fault) => Err(StandbyFault {
            why: StandbyWhy::Memory,
            disk: fault.disk,
        }),
    }
}

impl<D: Disk> Standby<D> {
    /// Opens the image that a disk holds, which has a log without a record. It begins one sync and no write, reads 1,286 blocks at most, and
    /// takes some 3 megabytes and 5 bytes for each block of the image.
    ///
    /// `Foreign` comes exactly where a check of superblock, areas or bodies refuses the image, with its first bad place; `NotEmpty` exactly
    /// where the log has records, with their number; `ReadFault` and `WriteFault` only where a read or the sync failed. The disk comes back.
    pub fn open(alloc: Global, disk: D) -> Result<Standby<D>, StandbyFault<D>>
        ensures count { IfOk result (λ s. s.count ≡ 0) }
        ensures empty { IfOk result (λ s. recs_in (books s.store) ≡ []) }
        ensures working { IfOk result (λ s. (books s.store).shut ≡ false) }
        ensures image { D.tells → IfOk result (λ _. IsEmptyImage (D.reading disk)) }
        ensures place { D.tells → IfOk result (λ s. IsPlaceOf (D.reading disk) (books s.store).place) }
        ensures follows { (b : ABeginning) (es : List AnEntry) → BeginsRight b → IsLegal b es
            → IfOk result (λ s. (books s.store).place.epoch ≤ 2 ^ 61 → Follows b es D.Disk s) }
        ensures cause { IfErr result (λ fault. HasStandbyCauseIn D.Disk disk fault.disk fault.why) }
        ensures syncs { MatchResult result
            (λ s. SyncsOnly D.Disk disk s.store.disk)
            (λ fault. SyncsOnly D.Disk disk fault.disk) }
    {
        let synced = match SyncedLog::read(alloc, disk) {
            Ok(synced) => synced,
            Err(fault) => {
                return Err(StandbyFault {
                    why: StandbyWhy::from(fault.why),
                    disk: fault.disk,
                });
            }
        };
        let used = synced.log.recs.len();
        if used > 0 {
            return Err(StandbyFault {
                why: StandbyWhy::NotEmpty { used: used as u16 },
                disk: synced.disk,
            });
        }
        over(alloc, synced)
    }

    /// How many shipments were taken.
    pub fn count(&self) -> u64
        ensures { result ≡ self.now.count }
    {
        self.count
    }

    /// Whether this is the number of the next shipment: one more than the count.
    pub fn is_next(&self, number: u64) -> bool
        ensures { result ≡ is_next self.now.count number }
    {
        is_next(self.count, number)
    }

    /// Whether the next shipment may be this one: a count and a slot of the log are left for it, where only the records at or above the cut are
    /// kept, and each record of its entity has a lower version. True of each next shipment of a run that it follows, while its store works. It looks at
    /// each record of the log twice.
    pub fn may_take(&self, shipped: &Shipped) -> bool
        ensures { IsTrue result ↔ MayTake self.now shipped.now }
    {
        may_take(&self.store, self.count, shipped)
    }

    /// The disk, as the standby left it.
    pub fn into_disk(self) -> D
        ensures { result ≡ self.store.disk }
    {
        self.store.into_disk()
    }

    /// Takes a shipment where its number is one more than the count: its pages go into free blocks, its blob and the record behind them. Any
    /// other number changes nothing, also of a standby that is shut. It answers the count then, and takes no memory. Behind it only those blocks
    /// are in use that the records at or above its cut name.
    ///
    /// Of a number that is next: `Shut` comes exactly after an earlier failure at the disk, and `NoBlocks` exactly where fewer blocks are free
    /// than pages and blob need, with both numbers; then nothing is changed. `WriteFault` comes only where the disk's count of faults rose, and
    /// shuts the standby: the record may be found when the image is opened again, or not. `ReadFault` never comes.
    ///
    /// Of a standby that follows a run each image that a stop leaves, at whatever moment, is one of the run's first commits: of as many as
    /// were counted before or, at most, as are counted then, and one more behind a `WriteFault`.
    ///
    /// That is one write for each page, and 1,300 writes and syncs at most for the record.
    pub fn deliver(&mut self, number: u64, shipped: &Shipped) -> Result<u64, StoreFault>
        requires { is_next self.old.count number ≡ true → (books self.old.store).shut ≡ false → MayTake self.old shipped.now }
        ensures other { is_next self.old.count number ≡ false → (result ≡ Ok self.old.count) × (self.new ≡ self.old) }
        ensures counted { is_next self.old.count number ≡ true
            → MatchResult result (λ n. (n ≡ number) × (self.new.count ≡ number)) (λ _. self.new.count ≡ self.old.count) }
        ensures taken { is_next self.old.count number ≡ true
            → OnOk result (TakesRecord shipped.now.entity shipped.now.version shipped.now.stamp (books self.old.store) (books self.new.store)) }
        ensures only_kept { (n : ℕ) → (books self.new.store).shut ≡ false → is_used (books self.new.store) n ≡ kept_names (books self.new.store) n }
        ensures follows { (b : ABeginning) (es : List AnEntry) → Follows b es D.Disk self.old
            → (is_next self.old.count number ≡ true → IsShipmentAt b es self.old.count shipped.now) → Follows b es D.Disk self.new }
        ensures any_moment { D.tells → (b : ABeginning) (es : List AnEntry) → Follows b es D.Disk self.old
            → (is_next self.old.count number ≡ true → IsShipmentAt b es self.old.count shipped.now)
            → LeavesOnly D.Disk self.old.store.disk self.new.store.disk (IsImageBetween b es self.old.count (most_in self.new)) }
        ensures shut { is_next self.old.count number ≡ true → (books self.old.store).shut ≡ true ↔ IsErrOf result StoreFault.Shut }
        ensures no_blocks { (n : NoBlocks) → is_next self.old.count number ≡ true → IsErrOf result (StoreFault.NoBlocks n)
            ↔ IsShort (books self.old.store) (length shipped.now.pages + blocks_for (length_in shipped.now.part)) n }
        ensures untouched { IsErrOf result StoreFault.Shut ⊎ ((n : NoBlocks) × IsErrOf result (StoreFault.NoBlocks n)) → self.new ≡ self.old }
        ensures cause { HasDiskCause D.Disk result self.old self.new }
    {
        if !is_next(self.count, number) {
            return Ok(self.count);
        }
        if self.store.is_shut() {
            return Err(StoreFault::Shut);
        }
        shipped.sound_law();
        deliver_record(
            &mut self.store,
            shipped.entity(),
            shipped.version(),
            shipped.stamp(),
            shipped.part(),
            shipped.pages(),
            &mut self.blob,
        )?;
        self.count = number;
        Ok(number)
    }
}
