//! The containers of an image in ordinary lists, with their words.
ghost use Rattle.std.specs.Prelude.{◌≡◌, ◌<◌, ◌≤◌, ◌+◌, ◌^◌, ℕ, All, IfOk, IsErrOf, Some, length, slice_get};
ghost use Rattle.edge_disk.specs.Counts.{Rose};
ghost use Rattle.edge_disk.specs.Image.{block_at};
ghost use Rattle.plain_states.specs.Plains.{container_cell, container_of};
ghost use Rattle.plain_states.specs.model_kernel.State.{ContainerCell, Supply};
ghost use Rattle.image_shown_facts.specs.image_meaning.Parts.{table_in};
ghost use Rattle.image_shown_facts.specs.image_chosen_facts.Tables.{blocks_in};
ghost use Rattle.log_reading.specs.log_facts.Reads.{ReadsOnly};
ghost use Rattle.image_shown_facts.specs.image_fits.Chosen.{part_in, part_of, parts_of};
ghost use Rattle.image_shown_facts.specs.image_fits.declared.chosen.ChosenPart.TheVariants.{Container};
ghost use Rattle.image_shown_facts.specs.States.{AreOnDisk, IsCellOf, IsContainerPart, IsSparseContainer};

use crate::faults::PagesFault;
use crate::pages::words_of;
use base_types::MOST_ENTITIES;
use edge_disk::Disk;
use image_shown_facts::{ChosenEntity, ChosenPart, ContainerBlob, plain_head};
use plain_states::PlainContainer;
use std::alloc::Global;

// A container, with its words from the disk.
fn container_with<D: Disk, S: Fn(u64, u32, u16) -> u64>(
    alloc: Global,
    disk: &mut D,
    container: &ContainerBlob,
    supply: &S,
) -> Result<PlainContainer, PagesFault>
    ghost s: { Supply }
    requires callable { (t p a : ℕ) → t < 2 ^ 64 → p < 256 → a < 128 → S.pre supply.now t p a }
    requires answers { (t p a r : ℕ) → t < 2 ^ 64 → p < 256 → a < 128 → S.post supply.now t p a r → r ≡ s t p a }
    requires there { AreOnDisk (D.block_count disk.old) (table_in (part_of (Container container.now))) }
    ensures cell { (x : ℕ) → IfOk result (λ c. IsCellOf D.tells s (block_at (D.reading disk.old)) x (Some (part_of (Container container.now))) (ContainerCell (container_of s c))) }
    ensures sparse { IfOk result (IsSparseContainer s) }
    ensures cause { IsErrOf result PagesFault.ReadFault → Rose (D.faults disk.old) (D.faults disk.new) }
    ensures same { ReadsOnly D.Disk disk.old disk.new }
{
    let words = words_of(alloc, disk, &container.head, &container.blocks, supply)?;
    let plain = plain_head(alloc, &container.head, words)?;
    Ok(plain)
}

// The container that is chosen of an entity.
fn container_at<D: Disk, S: Fn(u64, u32, u16) -> u64>(
    alloc: Global,
    disk: &mut D,
    entity: &Option<ChosenEntity>,
    supply: &S,
) -> Result<PlainContainer, PagesFault>
    ghost s: { Supply }
    requires callable { (t p a : ℕ) → t < 2 ^ 64 → p < 256 → a < 128 → S.pre supply.now t p a }
    requires answers { (t p a r : ℕ) → t < 2 ^ 64 → p < 256 → a < 128 → S.post supply.now t p a r → r ≡ s t p a }
    requires kind { IsContainerPart (part_in entity.now) }
    requires there { AreOnDisk (D.block_count disk.old) (blocks_in (part_in entity.now)) }
    ensures cell { (x : ℕ) → IfOk result (λ c. IsCellOf D.tells s (block_at (D.reading disk.old)) x (part_in entity.now) (ContainerCell (container_of s c))) }
    ensures sparse { IfOk result (IsSparseContainer s) }
    ensures cause { IsErrOf result PagesFault.ReadFault → Rose (D.faults disk.old) (D.faults disk.new) }
    ensures same { ReadsOnly D.Disk disk.old disk.new }
{
    let Some(entity) = entity else {
        unreachable!();
    };
    match &entity.part {
        ChosenPart::Container(container) => container_with(alloc, disk, container, supply),
        ChosenPart::Atlas(_) => unreachable!(),
        ChosenPart::Locus(_) => unreachable!(),
    }
}

// So many containers, in the order of their numbers.
pub(crate) fn containers_of<D: Disk, S: Fn(u64, u32, u16) -> u64>(
    alloc: Global,
    disk: &mut D,
    entities: &[Option<ChosenEntity>],
    many: usize,
    supply: &S,
) -> Result<Vec<PlainContainer>, PagesFault>
    ghost s: { Supply }
    requires callable { (t p a : ℕ) → t < 2 ^ 64 → p < 256 → a < 128 → S.pre supply.now t p a }
    requires answers { (t p a r : ℕ) → t < 2 ^ 64 → p < 256 → a < 128 → S.post supply.now t p a r → r ≡ s t p a }
    requires places { length entities.now ≡ MOST_ENTITIES }
    requires few { many ≤ 40 }
    requires kinds { (i : ℕ) → i < many → IsContainerPart (parts_of entities.now (i + 1)) }
    requires there { (x : ℕ) → AreOnDisk (D.block_count disk.old) (blocks_in (parts_of entities.now x)) }
    ensures many { IfOk result (λ cs. length cs.items ≡ many) }
    ensures cells { IfOk result (λ cs. (i : ℕ) → i < many
        → IsCellOf D.tells s (block_at (D.reading disk.old)) (i + 1) (parts_of entities.now (i + 1)) (container_cell s (slice_get cs.items i))) }
    ensures sparse { IfOk result (λ cs. All (IsSparseContainer s) cs.items) }
    ensures cause { IsErrOf result PagesFault.ReadFault → Rose (D.faults disk.old) (D.faults disk.new) }
    ensures same { ReadsOnly D.Disk disk.old disk.new }
{
    let mut containers = Vec::new(alloc);
    for place in 0..many {
        let container = container_at(alloc, disk, &entities[place + 1], supply)?;
        containers.push(container)?;
    }
    Ok(containers)
}
