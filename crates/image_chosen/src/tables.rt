//! The page tables of chosen records, as a store keeps them.
ghost use Rattle.std.specs.Prelude.{IfOk};
ghost use Rattle.image_chosen_facts.specs.image_meaning.Parts.{table_in};
ghost use Rattle.image_chosen_facts.specs.log_reading.declared.log.ImageLog.{ImageLog};
ghost use Rattle.image_chosen_facts.specs.image_fits.Chosen.{part_in, part_of};
ghost use Rattle.image_chosen.specs.Parts.{ArePartsOf};
ghost use Rattle.image_chosen_facts.specs.Tables.{ArePlaced, AreTablesOf, IsTableOf, blocks_in};

use crate::parts::ImageParts;
use base_types::MOST_PAGES;
use data_blocks::ShadowTable;
use image_chosen_facts::{ChosenEntity, ChosenPart};
use std::alloc::{AllocError, Global};

// A table of these blocks.
fn filled(blocks: &[u32]) -> ShadowTable
    ensures { IsTableOf blocks.now result.0 }
{
    let mut table = ShadowTable::new();
    for page in 0..blocks.len().min(MOST_PAGES as usize) {
        table.0[page] = blocks[page];
    }
    table
}

// The table of a part; only a container's has blocks.
fn table_of(part: &ChosenPart) -> ShadowTable
    ensures { IsTableOf (table_in (part_of part.now)) result.0 }
{
    match part {
        ChosenPart::Container(container) => {
            let pages = (container.head.pages as usize).min(MOST_PAGES as usize);
            filled(&container.blocks[..pages])
        }
        _ => ShadowTable::new(),
    }
}

/// The page table of one entity, of which nothing may be chosen: the block of each of the chosen container's pages, and 0 elsewhere.
pub fn table_for(entity: &Option<ChosenEntity>) -> ShadowTable
    ensures { IsTableOf (blocks_in (part_in entity.now)) result.0 }
{
    match entity {
        Some(entity) => table_of(&entity.part),
        None => ShadowTable::new(),
    }
}

/// The page table of each entity, by its number: the block of each of the pages that the chosen container has, and 0 for a page
/// without a block, past a container's pages, and for every entity of which no container is chosen. It takes 64 KiB of memory.
pub fn page_tables(alloc: Global, parts: &ImageParts) -> Result<Vec<ShadowTable>, AllocError>
    ensures tables { IfOk result (λ ts. AreTablesOf parts.now.entities.items ts.items) }
    ensures placed { (log : ImageLog) → ArePartsOf log parts.now → IfOk result (λ ts. ArePlaced log ts.items) }
{
    let mut tables = Vec::new(alloc);
    for entity in &parts.entities {
        tables.push(table_for(entity))?;
    }
    Ok(tables)
}
