ghost use Rattle.std.specs.Prelude.{◌<◌, ◌≤◌, IfErr, OnOk};
ghost use Rattle.page_store.specs.Pages.{IsWriteFault};
ghost use Rattle.page_placing.specs.Placing.{GoesOn, PlacesOne};

use data_blocks::ShadowTable;
use page_store::{PageFault, PageStore};

/// Puts one page into a block that was free, where one is, and the block into the table. Only the write fails.
pub(crate) fn place_page<B: PageStore>(
    store: &mut B,
    table: &mut ShadowTable,
    page: u8,
    words: &[u64; 128],
) -> Result<(), PageFault>
    requires free { 1 ≤ B.free store.old }
    ensures placed { OnOk result (PlacesOne B.PageStore page words.now table.old.0 table.new.0 store.old store.new) }
    ensures goes_on { GoesOn B.PageStore store.old store.new result }
    ensures fault { IfErr result IsWriteFault }
{
    let block = store.take_block().unwrap();
    table.0[page as usize] = block;
    store.write_page(block, words)
}
