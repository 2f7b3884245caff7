ghost use Rattle.std.specs.Prelude.{◌≡◌, ◌≢◌, ◌≤◌, ◌<◌, ℕ, true, length, slice_get, slice_index, OnOk, IfErr, Some};
ghost use Rattle.page_store.specs.Pages.{IsWriteFault};
ghost use Rattle.page_placing.specs.declared.writing.PageWords.{PageWords as APage};
ghost use Rattle.page_placing.specs.Placing.{GoesOn};
ghost use Rattle.page_placing.specs.Writing.{AreAscending, AreWritten, HasGivenBack};

use crate::placing::place_page;
use data_blocks::ShadowTable;
use page_store::{PageFault, PageStore};

/// A page of a container, with its words.
#[derive(Clone, Copy, Debug, PartialEq, Eq)]
pub struct PageWords {
    pub page: u8,
    pub words: [u64; 128],
}

/// Writes each of these pages, which ascend, to a block of its own that was free, and puts its number into the table. There are as many free
/// blocks as pages.
///
/// `WriteFault` comes where a write failed, and shuts the store; `Shut` where an earlier call failed. The table is then anything.
pub fn write_pages<B: PageStore>(
    store: &mut B,
    pages: &[PageWords],
    table: &mut ShadowTable,
) -> Result<(), PageFault>
    requires free { length pages.now ≤ B.free store.old }
    requires ascending { AreAscending pages.now }
    requires empty { (p : ℕ) → slice_index table.old.0 p ≡ 0 }
    ensures written { OnOk result (AreWritten B.PageStore pages.now (length pages.now) table.new.0 store.old store.new) }
    ensures goes_on { GoesOn B.PageStore store.old store.new result }
    ensures fault { IfErr result IsWriteFault }
{
    for page in pages {
        place_page(store, table, page.page, &page.words)?;
    }
    Ok(())
}

/// Gives the block of each of these pages back. The blocks are held, and differ.
pub fn give_back_pages<B: PageStore>(store: &mut B, pages: &[PageWords], table: &ShadowTable)
    requires held { (k : ℕ) (q : APage) → slice_get pages.now k ≡ Some q → B.held store.old (slice_index table.now.0 q.page) ≡ true }
    requires apart { (i k : ℕ) (p q : APage) → i < k → slice_get pages.now i ≡ Some p → slice_get pages.now k ≡ Some q → slice_index table.now.0 q.page ≢ slice_index table.now.0 p.page }
    ensures given { HasGivenBack B.PageStore pages.now (length pages.now) table.now.0 store.old store.new }
    ensures kept { B.kept_names store.new ≡ B.kept_names store.old }
    ensures shut { B.is_shut store.new ≡ B.is_shut store.old }
    ensures between { B.Pages store.old store.new }
{
    for page in pages {
        store.give_back(table.0[page.page as usize]);
    }
}
