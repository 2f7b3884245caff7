//! The state that an image's parts make.
ghost use Rattle.std.specs.Prelude.{◌≡◌, ◌<◌, ◌^◌, ℕ, All, IfOk, IsErrOf};
ghost use Rattle.edge_disk.specs.Counts.{Rose};
ghost use Rattle.edge_disk.specs.Image.{block_at};
ghost use Rattle.plain_states.specs.Born.{AreEdges};
ghost use Rattle.plain_states.specs.Plains.{cells_of};
ghost use Rattle.plain_states.specs.model_kernel.State.{Supply};
ghost use Rattle.image_shown_facts.specs.image_chosen.Parts.{ArePartsOf};
ghost use Rattle.log_reading.specs.Logs.{IsKnown};
ghost use Rattle.log_reading.specs.log_facts.Reads.{ReadsOnly};
ghost use Rattle.log_reading.specs.declared.log.ImageLog.{ImageLog};
ghost use Rattle.image_shown_facts.specs.image_fits.Chosen.{parts_of};
ghost use Rattle.image_shown_facts.specs.States.{IsCellOf, IsSparseContainer};

use crate::containers::containers_of;
use crate::faults::PagesFault;
use crate::loci::{atlas_at, loci_of};
use edge_disk::Disk;
use image_shown_facts::ImageParts;
use plain_states::Plain;
use std::alloc::Global;

// The state of the parts, with the words of the pages from the disk.
pub(crate) fn state_of<D: Disk, S: Fn(u64, u32, u16) -> u64>(
    alloc: Global,
    disk: &mut D,
    parts: &ImageParts,
    supply: &S,
) -> Result<Plain, PagesFault>
    ghost s: { Supply }
    requires callable { (t p a : ℕ) → t < 2 ^ 64 → p < 256 → a < 128 → S.pre supply.now t p a }
    requires answers { (t p a r : ℕ) → t < 2 ^ 64 → p < 256 → a < 128 → S.post supply.now t p a r → r ≡ s t p a }
    requires parts { (log : ImageLog) × IsKnown (D.block_count disk.old) log × ArePartsOf log parts.now }
    ensures cells { IfOk result (λ plain. (x : ℕ) → IsCellOf D.tells s (block_at (D.reading disk.old)) x (parts_of parts.now.entities.items x) (cells_of s plain x)) }
    ensures sparse { IfOk result (λ plain. All (IsSparseContainer s) plain.containers.items) }
    ensures edges { IfOk result (λ plain. AreEdges plain.atlas.edges.items) }
    ensures cause { IsErrOf result PagesFault.ReadFault → Rose (D.faults disk.old) (D.faults disk.new) }
    ensures same { ReadsOnly D.Disk disk.old disk.new }
{
    let atlas = atlas_at(alloc, &parts.entities[0])?;
    let containers = containers_of(alloc, disk, &parts.entities, atlas.containers.len(), supply)?;
    let loci = loci_of(alloc, &parts.entities, atlas.loci.len())?;
    Ok(Plain {
        atlas,
        containers,
        loci,
    })
}
