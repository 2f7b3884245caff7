//! How often the blocks of pages and blobs are named.
ghost use Rattle.std.specs.Prelude.{◌≡◌, ◌+◌, ℕ, IfOk, length, take};
ghost use Rattle.std.specs.List.{list_all};
ghost use Rattle.image_blocks.specs.image_facts.Bodies.{blob_blocks};
ghost use Rattle.image_fit_facts.specs.image_meaning.Parts.{table_in};
ghost use Rattle.image_fits.specs.Chosen.{part_of};
ghost use Rattle.image_fit_facts.specs.Naming.{AreUses, block_passes, count_of, one_at};
ghost use Rattle.image_fits.specs.Naming.{names_in, names_of};

use crate::chosen::{ChosenEntity, ChosenPart};
use base_types::Rec;
use edge_disk::BLOCK_BYTES;
use image_blocks::POOL_AT;
use std::alloc::{AllocError, Global};

// How often a block is named where it is named more than once.
const MANY: u8 = 2;

// So many blocks from the front, or all where there are fewer.
fn front_of(blocks: &[u32], most: usize) -> &[u32]
    ensures { result.now ≡ take most blocks.now }
{
    &blocks[..most.min(blocks.len())]
}

// The blocks of a chosen part's pages, 0 for none.
pub(crate) fn table_of(part: &ChosenPart) -> &[u32]
    ensures { result.now ≡ table_in (part_of part.now) }
{
    match part {
        ChosenPart::Container(container) => {
            front_of(&container.blocks, container.head.pages as usize)
        }
        _ => &[],
    }
}

// The blocks of a record's blob.
fn blob_of(rec: &Rec) -> &[u32]
    ensures { result.now ≡ blob_blocks rec.now }
{
    front_of(
        &rec.blocks,
        (rec.length as usize + BLOCK_BYTES - 1) / BLOCK_BYTES,
    )
}

// Counts the block, if it is there, once more, up to many.
fn add_use(uses: &mut [u8], block: u32)
    ensures { (f : ℕ → ℕ) → AreUses uses.old f → AreUses uses.new (λ b. f b + one_at block b) }
{
    let at = block as usize;
    if at >= uses.len() {
        return;
    }
    if uses[at] >= MANY {
        return;
    }
    uses[at] += 1;
}

// Counts each of these blocks once more.
fn add_uses(uses: &mut [u8], blocks: &[u32])
    ensures { (f : ℕ → ℕ) → AreUses uses.old f → AreUses uses.new (λ b. f b + count_of blocks.now b) }
{
    for block in blocks {
        add_use(uses, *block);
    }
}

// Counts the blocks of a chosen entity: those of its pages once, and those of its blob twice, since a page's may be none of them.
fn add_names(uses: &mut [u8], chosen: &Option<ChosenEntity>)
    ensures { (f : ℕ → ℕ) → AreUses uses.old f → AreUses uses.new (λ b. f b + names_in b chosen.now) }
{
    if let Some(entity) = chosen {
        add_uses(uses, table_of(&entity.part));
        add_uses(uses, blob_of(&entity.rec));
        add_uses(uses, blob_of(&entity.rec));
    }
}

// Counts the blocks of all chosen entities.
fn add_all(uses: &mut [u8], entities: &[Option<ChosenEntity>])
    ensures { (f : ℕ → ℕ) → AreUses uses.old f → AreUses uses.new (λ b. f b + names_of entities.now b) }
{
    for chosen in entities {
        add_names(uses, chosen);
    }
}

// How often each block of an image of so many is named.
pub(crate) fn uses_of(
    alloc: Global,
    count: u32,
    entities: &[Option<ChosenEntity>],
) -> Result<Vec<u8>, AllocError>
    ensures uses { IfOk result (λ uses. AreUses uses.items (names_of entities.now)) }
    ensures blocks { IfOk result (λ uses. length uses.items ≡ count) }
{
    let mut uses = vec![in alloc; 0; count as usize]?;
    add_all(&mut uses, entities);
    Ok(uses)
}

// Whether a page without a block, or one whose block is in the pool and named once.
fn is_named_once(uses: &[u8], block: u32) -> bool
    ensures { result ≡ block_passes uses.now block }
{
    let at = block as usize;
    block == 0 || block >= POOL_AT && at < uses.len() && uses[at] < MANY
}

// Whether each block of these pages is in the pool and named once.
pub(crate) fn are_named_once(uses: &[u8], table: &[u32]) -> bool
    ensures { result ≡ list_all (block_passes uses.now) table.now }
{
    table.iter().all(|block| is_named_once(uses, *block))
}
