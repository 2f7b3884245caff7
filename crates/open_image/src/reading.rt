// What is read of an image: its log behind a sync, its parts, and the page tables of them.
ghost use Rattle.std.specs.Prelude.{◌≡◌, ◌⊎◌, IfOk, IfErr, MatchResult};
ghost use Rattle.edge_disk.specs.Disks.{IsStable};
ghost use Rattle.open_facts.specs.image_chosen_facts.Parts.{IsAcceptedWith};
ghost use Rattle.log_reading.specs.Logs.{IsKnown, IsLogOf};
ghost use Rattle.log_reading.specs.log_facts.Reads.{ReadsOnly};
ghost use Rattle.open_facts.specs.image_fits.Chosen.{parts_of};
ghost use Rattle.open_facts.specs.store_facts.Opening.{IsSynced, SyncsOnly};
ghost use Rattle.open_facts.specs.Images.{AreReadOf, HasImageCauseIn, HasPartsCauseIn};

use data_blocks::ShadowTable;
use edge_disk::Disk;
use log_reading::ImageLog;
use open_facts::{ImageParts, OpenFault, OpenWhy, SyncedLog, page_tables, read_parts};
use std::alloc::Global;

// An image that was read.
#[derive(Drop)]
pub(crate) struct ReadImage<D: Disk> {
    pub(crate) synced: SyncedLog<D>,
    pub(crate) parts: ImageParts,
    pub(crate) tables: Vec<ShadowTable>,
}

// The parts of the image with this log, and the page tables of them.
fn read_tables<D: Disk>(
    alloc: Global,
    disk: &mut D,
    log: &ImageLog,
) -> Result<(ImageParts, Vec<ShadowTable>), OpenWhy>
    requires { IsKnown (D.block_count disk.old) log.now }
    ensures read { IfOk result (λ r. AreReadOf log.now r.0 r.1.items) }
    ensures accepted { D.tells → IsLogOf (D.reading disk.old) log.now
        → IfOk result (λ r. IsAcceptedWith (D.reading disk.old) log.now.recs.items (parts_of r.0.entities.items)) }
    ensures cause { IfErr result (HasPartsCauseIn D.Disk log.now disk.old disk.new) }
    ensures same { ReadsOnly D.Disk disk.old disk.new }
{
    let parts = read_parts(alloc, disk, log)?;
    let tables = page_tables(alloc, &parts)?;
    Ok((parts, tables))
}

// Syncs the disk, and reads the image that it holds.
pub(crate) fn read_image<D: Disk>(alloc: Global, disk: D) -> Result<ReadImage<D>, OpenFault<D>>
    ensures synced { IfOk result (λ r. IsSynced D.Disk r.synced.disk r.synced.tally r.synced.log) }
    ensures read { IfOk result (λ r. AreReadOf r.synced.log r.parts r.tables.items) }
    ensures accepted { D.tells → IfOk result (λ r. IsAcceptedWith (D.reading disk) r.synced.log.recs.items (parts_of r.parts.entities.items)) }
    ensures cause { IfErr result (λ fault. HasImageCauseIn D.Disk disk fault.disk fault.why) }
    ensures syncs { MatchResult result
        (λ r. SyncsOnly D.Disk disk r.synced.disk)
        (λ fault. SyncsOnly D.Disk disk fault.disk) }
    // where the sync didn't fail, a stop leaves what reads
    ensures stable { D.tells → IfErr result (λ fault. (fault.why ≡ OpenWhy.WriteFault) ⊎ IsStable D.Disk fault.disk) }
{
    let SyncedLog {
        mut disk,
        tally,
        log,
    } = match SyncedLog::read(alloc, disk) {
        Ok(synced) => synced,
        Err(fault) => return Err(fault),
    };
    match read_tables(alloc, &mut disk, &log) {
        Ok((parts, tables)) => {
            let synced = SyncedLog { disk, tally, log };
            Ok(ReadImage {
                synced,
                parts,
                tables,
            })
        }
        Err(why) => Err(OpenFault { why, disk }),
    }
}
