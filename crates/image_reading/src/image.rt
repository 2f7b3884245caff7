//! An image, read whole.
ghost use Rattle.std.specs.Prelude.{◌≡◌, ◌<◌, ◌≤◌, ◌^◌, ℕ, All, IfOk, IsErrOf, slice_index};
ghost use Rattle.edge_disk.specs.Counts.{Rose};
ghost use Rattle.plain_states.specs.Born.{AreEdges};
ghost use Rattle.plain_states.specs.Plains.{cells_of};
ghost use Rattle.plain_states.specs.model_kernel.Soundness.{IsSound};
ghost use Rattle.plain_states.specs.model_kernel.State.{Supply};
ghost use Rattle.line_report.specs.image_blocks.Checks.{Bad as BadPlace};
ghost use Rattle.image_shown_facts.specs.image_meaning.Foreign.{IsForeign};
ghost use Rattle.image_shown_facts.specs.image_meaning.Parts.{cut_of};
ghost use Rattle.log_reading.specs.Logs.{IsLogOf};
ghost use Rattle.log_reading.specs.log_facts.Reads.{ReadsOnly};
ghost use Rattle.image_shown_facts.specs.Facts.{MeansState};
ghost use Rattle.image_shown_facts.specs.States.{IsSparseContainer};

use crate::faults::PagesFault;
use crate::state::state_of;
use base_types::Cut;
use edge_disk::Disk;
use image_shown_facts::read_parts;
use log_reading::{ImageLog, ReadingFault, read_log};
use plain_states::Plain;
use std::alloc::Global;

/// What an image says: its log, the greatest closed choice over the log's records, and the state that it means. The version of each
/// entity is its place of the cut, 0 for one that isn't born.
#[derive(Debug, Drop)]
pub struct ImageFacts {
    pub log: ImageLog,
    pub cut: Cut,
    /// Of a container's words those are kept that differ from the supplier's.
    pub state: Plain,
}

/// Reads the image on a disk. It begins no write and no sync, and reads 1,286 blocks for the log at most, then 8 for each chosen record
/// and one for each page with a block: 12,038 at most. The supplier is asked about each word of such a page. It takes memory for the
/// records, 568 bytes each, for the state, and a byte for each block of the image.
///
/// `Foreign` comes exactly where the image isn't accepted, with its first bad place; `ReadFault` only where a read failed.
pub fn read_image<D: Disk, S: Fn(u64, u32, u16) -> u64>(
    alloc: Global,
    disk: &mut D,
    supply: &S,
) -> Result<ImageFacts, ReadingFault>
    ghost s: { Supply }
    requires callable { (t p a : ℕ) → t < 2 ^ 64 → p < 256 → a < 128 → S.pre supply.now t p a }
    requires answers { (t p a r : ℕ) → t < 2 ^ 64 → p < 256 → a < 128 → S.post supply.now t p a r → r ≡ s t p a }
    ensures log { D.tells → IfOk result (λ facts. IsLogOf (D.reading disk.old) facts.log) }
    ensures cut { IfOk result (λ facts. slice_index facts.cut.0 ≡ cut_of facts.log.recs.items) }
    ensures meaning { D.tells → IfOk result (λ facts. MeansState s (D.reading disk.old) facts.state facts.cut.0) }
    ensures sound { IfOk result (λ facts. IsSound (cells_of s facts.state)) }
    ensures edges { IfOk result (λ facts. AreEdges facts.state.atlas.edges.items) }
    ensures low { IfOk result (λ facts. All (λ v. v ≤ 2 ^ 62) facts.cut.0) }
    ensures sparse { IfOk result (λ facts. All (IsSparseContainer s) facts.state.containers.items) }
    ensures foreign { D.tells → (bad : BadPlace) → IsErrOf result (ReadingFault.Foreign bad) → IsForeign (D.reading disk.old) bad }
    ensures cause { IsErrOf result ReadingFault.ReadFault → Rose (D.faults disk.old) (D.faults disk.new) }
    ensures same { ReadsOnly D.Disk disk.old disk.new }
{
    let log = read_log(alloc, disk)?;
    let parts = read_parts(alloc, disk, &log)?;
    match state_of(alloc, disk, &parts, supply) {
        Ok(state) => Ok(ImageFacts {
            log,
            cut: parts.cut,
            state,
        }),
        Err(PagesFault::ReadFault) => Err(ReadingFault::ReadFault),
        Err(PagesFault::Memory) => Err(ReadingFault::Memory),
    }
}
