// The part of a cell, from what is chosen of its entity.
ghost use Rattle.std.specs.Prelude.{◌≡◌, ◌≤◌, ◌<◌, ℕ, IfOk, None, Some, slice_index};
ghost use Rattle.image_state_laws.specs.image_meaning.Parts.{IsFormed, table_in};
ghost use Rattle.image_chosen.specs.image_chosen_facts.Tables.{IsTableOf};
ghost use Rattle.image_chosen.specs.image_fits.Chosen.{part_of};
ghost use Rattle.table_opened.specs.Opened.{IsChosenPart, memory_with};

use base_types::{Entity, Kind};
use data_atlas::Atlas;
use data_blocks::ShadowTable;
use image_chosen::{ChosenEntity, ChosenPart, ContainerBlob};
use kernel_record_facts::{Part, Storage};
use page_memory::PagedMemory;
use std::alloc::{AllocError, Global};

// The part of an entity of which nothing is chosen.
pub(crate) fn unborn_part(alloc: Global, x: Entity, frames: u16) -> Result<Part, AllocError>
    requires some { 0 < frames }
    requires few { frames ≤ 256 }
    ensures { IfOk result (IsChosenPart frames x None) }
{
    match x.kind() {
        Kind::Atlas => Ok(Part::Atlas(Atlas::new())),
        Kind::Container => Ok(Part::Container(Storage {
            head: None,
            memory: PagedMemory::new(alloc, frames)?,
        })),
        Kind::Locus => Ok(Part::Locus(None)),
    }
}

// A container with its memory, which has these blocks.
fn storage_of(
    alloc: Global,
    container: ContainerBlob,
    table: &ShadowTable,
    frames: u16,
) -> Result<Storage, AllocError>
    requires some { 0 < frames }
    requires few { frames ≤ 256 }
    requires pages { 0 < container.head.pages }
    requires most { container.head.pages ≤ 256 }
    requires none_past { (page : ℕ) → container.head.pages ≤ page → slice_index table.now.0 page ≡ 0 }
    ensures head { IfOk result (λ b. b.head ≡ Some container.head) }
    ensures memory { IfOk result (λ b. b.memory ≡ memory_with container.head.tag container.head.pages table.now.0 frames) }
{
    let mut memory = PagedMemory::new(alloc, frames)?;
    memory.begin(container.head.tag, container.head.pages, table);
    Ok(Storage {
        head: Some(container.head),
        memory,
    })
}

// The part of a chosen entity.
pub(crate) fn chosen_part(
    alloc: Global,
    x: Entity,
    entity: ChosenEntity,
    table: &ShadowTable,
    frames: u16,
) -> Result<Part, AllocError>
    requires some { 0 < frames }
    requires few { frames ≤ 256 }
    requires formed { IsFormed x (part_of entity.part) }
    requires table { IsTableOf (table_in (part_of entity.part)) table.now.0 }
    ensures { IfOk result (IsChosenPart frames x (Some entity)) }
{
    match entity.part {
        ChosenPart::Atlas(atlas) => Ok(Part::Atlas(atlas)),
        ChosenPart::Container(container) => {
            let storage = storage_of(alloc, container, table, frames)?;
            Ok(Part::Container(storage))
        }
        ChosenPart::Locus(locus) => Ok(Part::Locus(Some(locus))),
    }
}
