ghost use Rattle.std.specs.Prelude.{◌≡◌, ◌≢◌, ◌≤◌, ◌⊎◌, ◌||◌, ℕ, IsTrue, length, slice_index, OnOk, IfErr};
ghost use Rattle.page_store.specs.Pages.{IsReadFault, IsWriteFault};
ghost use Rattle.page_placing.specs.Copying.{AreCopied, CopiesOne, blocks_in};
ghost use Rattle.page_placing.specs.Placing.{GoesOn};

use crate::placing::place_page;
use data_blocks::ShadowTable;
use page_store::{PageFault, PageStore};

/// How many pages of a table have a block.
pub fn count_blocks(table: &ShadowTable) -> u16
    ensures count { result ≡ blocks_in table.now.0 }
    ensures few { result ≤ 256 }
{
    read_places(&table.0);
    table.0.iter().filter(|block| **block != 0).count() as u16
}

/// Copies each page of a table that has a block to a block that was free, and puts its number into the other table; a page without a block
/// has none there. There are as many free blocks as such pages.
///
/// `ReadFault` and `WriteFault` come where a call failed, and shut the store; `Shut` where an earlier call failed. The table is then anything.
pub fn copy_pages<B: PageStore>(
    store: &mut B,
    from: &ShadowTable,
    table: &mut ShadowTable,
) -> Result<(), PageFault>
    requires free { blocks_in from.now.0 ≤ B.free store.old }
    requires in_use { (p : ℕ) → slice_index from.now.0 p ≢ 0 → IsTrue (B.held store.old (slice_index from.now.0 p) || B.kept_names store.old (slice_index from.now.0 p)) }
    requires empty { (p : ℕ) → slice_index table.old.0 p ≡ 0 }
    ensures copied { OnOk result (AreCopied B.PageStore from.now.0 table.new.0 store.old store.new) }
    ensures goes_on { GoesOn B.PageStore store.old store.new result }
    ensures fault { IfErr result (λ e. IsReadFault e ⊎ IsWriteFault e) }
{
    read_places(&from.0);
    for page in 0..256_usize {
        copy_page(store, from, table, page as u8)?;
    }
    Ok(())
}

// A table has a place for each page.
fn read_places(places: &[u32; 256])
    ensures { length places.now ≡ 256 }
{
    let _first = places[0];
}

// Copies one page, if it has a block.
fn copy_page<B: PageStore>(
    store: &mut B,
    from: &ShadowTable,
    table: &mut ShadowTable,
    page: u8,
) -> Result<(), PageFault>
    requires free { slice_index from.now.0 page ≢ 0 → 1 ≤ B.free store.old }
    requires in_use { slice_index from.now.0 page ≢ 0 → IsTrue (B.held store.old (slice_index from.now.0 page) || B.kept_names store.old (slice_index from.now.0 page)) }
    ensures copied { OnOk result (CopiesOne B.PageStore from.now.0 page table.old.0 table.new.0 store.old store.new) }
    ensures goes_on { GoesOn B.PageStore store.old store.new result }
    ensures fault { IfErr result (λ e. IsReadFault e ⊎ IsWriteFault e) }
{
    let block = from.0[page as usize];
    if block == 0 {
        return Ok(());
    }
    let mut words = [0; 128];
    store.read_page(block, &mut words)?;
    place_page(store, table, page, &words)
}
