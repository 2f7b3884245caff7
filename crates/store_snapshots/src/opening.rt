// What is read of an image before its store is made.
ghost use Rattle.std.specs.Prelude.{◌≡◌, ◌⊎◌, ◌≤◌, ◌+◌, ◌++◌, [], true, false, AllPairs, length, map, slice_index, IfOk, IfErr, MatchResult};
ghost use Rattle.edge_disk.specs.Disks.{IsStable};
ghost use Rattle.store_facts.specs.image_facts.Layout.{last_number, slot_count};
ghost use Rattle.store_facts.specs.image_blocks.Logs.{HasRecords};
ghost use Rattle.store_facts.specs.log_facts.Logs.{AreInRange, IsOlder};
ghost use Rattle.store_facts.specs.log_reading.Logs.{IsKnown, IsLogOf};
ghost use Rattle.store_facts.specs.Keeping.{AreKept};
ghost use Rattle.store_snapshots.specs.OpenFaults.{HasOpenCauseIn};
ghost use Rattle.store_facts.specs.Opening.{HasStableLog, IsFresh, IsOver, IsSynced, SyncsOnly, fresh_ledger, unread};
ghost use Rattle.store_facts.specs.State.{books};
ghost use Rattle.store_facts.specs.store_books.Books.{AreTrue, recs_in};

use crate::shelf::Shelf;
use crate::store::Store;
use base_types::{Cut, Rec};
use data_blocks::{Ledger, ShadowTable};
use edge_disk::{Disk, DiskFault};
use edge_tally::Tally;
use std::alloc::{AllocError, Global};
use store_facts::{Areas, Bad, ImageLog, POOL_AT, ReadingFault, greatest, read_log};

/// Why an image was not opened.
#[derive(Clone, Copy, Debug, PartialEq, Eq, Drop)]
pub enum OpenWhy {
    /// The disk holds no image with a log: its first bad place.
    Foreign(Bad),
    /// A read failed.
    ReadFault,
    /// The sync failed.
    WriteFault,
    /// Memory ran out.
    Memory,
}

/// Why an image was not opened, and the disk.
#[derive(Drop)]
pub struct OpenFault<D: Disk> {
    pub why: OpenWhy,
    pub disk: D,
}

impl From<ReadingFault> for OpenWhy {
    ghost use Rattle.store_snapshots.specs.OpenFaults.{why};

    ghost from_gives = { λ fault e. e ≡ why fault };

    fn from(fault: ReadingFault) -> OpenWhy {
        match fault {
            ReadingFault::Foreign(bad) => OpenWhy::Foreign(bad),
            ReadingFault::ReadFault => OpenWhy::ReadFault,
            ReadingFault::Memory => OpenWhy::Memory,
        }
    }
}

// What fails at the disk itself is the sync.
impl From<DiskFault> for OpenWhy {
    ghost use Rattle.store_snapshots.specs.declared.opening.OpenWhy.TheVariants.{WriteFault};

    ghost from_gives = { λ _ e. e ≡ WriteFault };

    fn from(_fault: DiskFault) -> OpenWhy {
        OpenWhy::WriteFault
    }
}

impl From<AllocError> for OpenWhy {
    ghost use Rattle.store_snapshots.specs.declared.opening.OpenWhy.TheVariants.{Memory};

    ghost from_gives = { λ _ e. e ≡ Memory };

    fn from(_error: AllocError) -> OpenWhy {
        OpenWhy::Memory
    }
}

// The records of a log in memory, those of them that are kept with their choice, and the blocks.
#[derive(Drop)]
struct Shelved {
    log: Shelf,
    kept: Shelf,
    cut: Cut,
    blocks: Ledger,
}

// Puts records on a shelf, none of whose blobs is read yet.
fn shelve(shelf: &mut Shelf, recs: &[Rec])
    requires { length shelf.old + length recs.now ≤ slot_count }
    ensures { shelf.new ≡ shelf.old ++ map unread recs.now }
{
    for rec in recs {
        shelf.push(rec, &ShadowTable::new());
    }
}

// The blocks of an image of so many: where there are records, each counts as named until their blobs are read.
fn ledger_for(alloc: Global, recs: &[Rec], blocks: u32) -> Result<Ledger, AllocError>
    ensures { IfOk result (λ l. l ≡ fresh_ledger blocks recs.now) }
{
    if recs.is_empty() {
        Ledger::new(alloc, POOL_AT, blocks)
    } else {
        Ledger::all_named(alloc, POOL_AT, blocks)
    }
}

// The log in memory.
fn on_shelves(alloc: Global, recs: &[Rec], blocks: u32) -> Result<Shelved, AllocError>
    requires few { length recs.now ≤ slot_count }
    requires range { AreInRange blocks recs.now }
    requires ascending { AllPairs IsOlder recs.now }
    ensures log { IfOk result (λ s. s.log ≡ map unread recs.now) }
    ensures kept { IfOk result (λ s. AreKept s.log s.kept (slice_index s.cut.0)) }
    ensures blocks { IfOk result (λ s. s.blocks ≡ fresh_ledger blocks recs.now) }
{
    let mut log = Shelf::new(alloc)?;
    let mut kept = Shelf::new(alloc)?;
    let blocks = ledger_for(alloc, recs, blocks)?;
    shelve(&mut log, recs);
    let cut = greatest(recs);
    kept.copy_from(&log);
    kept.keep_from(&cut);
    Ok(Shelved {
        log,
        kept,
        cut,
        blocks,
    })
}

// Syncs a disk, and reads the log of the image on it.
fn synced<D: Disk>(alloc: Global, disk: &mut D) -> Result<(Tally, ImageLog), OpenWhy>
    ensures log { D.tells → IfOk result (λ f. IsLogOf (D.reading disk.new) f.1) }
    ensures stable { D.tells → IfOk result (λ _. IsStable D.Disk disk.new) }
    ensures settled { D.tells → IfErr result (λ why. (why ≡ OpenWhy.WriteFault) ⊎ IsStable D.Disk disk.new) }
    ensures known { IfOk result (λ f. IsKnown (D.block_count disk.new) f.1) }
    ensures one { IfOk result (λ f. f.0.0 ≡ 1) }
    ensures cause { IfErr result (HasOpenCauseIn D.Disk disk.old disk.new) }
    ensures syncs { SyncsOnly D.Disk disk.old disk.new }
{
    let mut tally = Tally(0);
    tally.sync(disk)?;
    let log = read_log(alloc, disk)?;
    Ok((tally, log))
}

/// The log of an image, read behind a sync of its disk, with the count of that sync.
#[derive(Drop)]
pub struct SyncedLog<D: Disk> {
    pub disk: D,
    pub tally: Tally,
    pub log: ImageLog,
}

impl<D: Disk> SyncedLog<D> {
    /// Syncs the disk, and reads the log of the image that it holds by the checks of superblock, areas and bodies. It begins one sync
    /// and no write, reads 1,286 blocks at most, and takes 568 bytes for each record.
    ///
    /// `Foreign` comes exactly where a check refuses the image, with its first bad place; `ReadFault` and `WriteFault` only where a read
    /// or the sync failed. The disk comes back.
    pub fn read(alloc: Global, disk: D) -> Result<SyncedLog<D>, OpenFault<D>>
        ensures synced { IfOk result (λ s. IsSynced D.Disk s.disk s.tally s.log) }
        // Only where the sync failed may a stop leave another image than the one that reads.
        ensures settled { D.tells → IfErr result (λ fault. (fault.why ≡ OpenWhy.WriteFault) ⊎ IsStable D.Disk fault.disk) }
        ensures cause { IfErr result (λ fault. HasOpenCauseIn D.Disk disk fault.disk fault.why) }
        ensures syncs { MatchResult result
            (λ s. SyncsOnly D.Disk disk s.disk)
            (λ fault. SyncsOnly D.Disk disk fault.disk) }
    {
        let mut disk = disk;
        match synced(alloc, &mut disk) {
            Ok((tally, log)) => Ok(SyncedLog { disk, tally, log }),
            Err(why) => Err(OpenFault { why, disk }),
        }
    }
}

impl<D: Disk> Store<D> {
    /// The store of an image whose log was read behind a sync of the disk, which was only read since then. Blobs aren't read; where the
    /// log has records each block counts as named until they are, and none is free. It doesn't touch the disk, and takes some 3
    /// megabytes and 5 bytes for each block of the image.
    ///
    /// `Memory` alone comes, and then the disk is handed back.
    pub fn over(alloc: Global, synced: SyncedLog<D>) -> Result<Store<D>, OpenFault<D>>
        requires { IsSynced D.Disk synced.disk synced.tally synced.log }
        ensures over { IfOk result (IsOver synced.log) }
        ensures log { D.tells → IfOk result (λ st. HasStableLog D.Disk (books st) st.disk) }
        ensures fresh { IfOk result IsFresh }
        // An image without a record is ready for commits.
        ensures empty { D.tells → IfOk result (λ st. recs_in (books st) ≡ [] → AreTrue D.Disk (books st) st.disk) }
        ensures cause { IfErr result (λ fault. fault.why ≡ OpenWhy.Memory) }
        ensures same_disk { MatchResult result (λ st. st.disk ≡ synced.disk) (λ fault. fault.disk ≡ synced.disk) }
    {
        let SyncedLog { disk, tally, log } = synced;
        let areas = Areas::new(log.area, log.epoch, log.recs.len() as u16, tally);
        match on_shelves(alloc, &log.recs, log.blocks) {
            Ok(shelved) => {
                let Shelved {
                    log,
                    kept,
                    cut,
                    blocks,
                } = shelved;
                Ok(Store {
                    disk,
                    areas,
                    log,
                    kept,
                    cut,
                    blocks,
                    small: true,
                    shut: false,
                    read_calls: 0,
                })
            }
            Err(_) => Err(OpenFault {
                why: OpenWhy::Memory,
                disk,
            }),
        }
    }

    /// Opens the image that a disk holds: the disk is synced, and then the log is read by the checks of superblock, areas and bodies.
    /// Blobs aren't read; where the log has records each block counts as named until they are, and none is free. It begins one sync
    /// and no write, reads 1,286 blocks at most, and takes some 3 megabytes and 5 bytes for each block of the image.
    ///
    /// `Foreign` comes exactly where a check refuses the image, with its first bad place; `ReadFault` and `WriteFault` only where a read
    /// or the sync failed. The disk comes back.
    pub fn open(alloc: Global, disk: D) -> Result<Store<D>, OpenFault<D>>
        ensures records { D.tells → IfOk result (λ st. HasRecords (recs_in (books st)) (D.reading disk)) }
        ensures log { D.tells → IfOk result (λ st. HasStableLog D.Disk (books st) st.disk) }
        ensures range { IfOk result (λ st. AreInRange (books st).count (recs_in (books st))) }
        ensures older { IfOk result (λ st. AllPairs IsOlder (recs_in (books st))) }
        ensures fresh { IfOk result IsFresh }
        ensures epoch { IfOk result (λ st. (books st).place.epoch ≤ last_number) }

        // An image without a record is ready for commits.
        ensures empty { D.tells → IfOk result (λ st. recs_in (books st) ≡ [] → AreTrue D.Disk (books st) st.disk) }

        ensures cause { IfErr result (λ fault. HasOpenCauseIn D.Disk disk fault.disk fault.why) }
        ensures syncs { MatchResult result
            (λ st. SyncsOnly D.Disk disk st.disk)
            (λ fault. SyncsOnly D.Disk disk fault.disk) }
    {
        let synced = SyncedLog::read(alloc, disk)?;
        Store::over(alloc, synced)
    }
}
