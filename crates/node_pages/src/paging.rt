// The pages of a record, read.
ghost use Rattle.std.specs.Prelude.{◌≡◌, ◌≢◌, ◌||◌, ◌++◌, ◌<◌, ℕ, [], IfSome, IsTrue, OnOk, false, slice_index};
ghost use Rattle.node_pages.specs.Reading.{HasReadPages, page_in, pages_to};
ghost use Rattle.kernel_record_facts.specs.image_meaning.Parts.{IsOf, Part, Spells, table_in};

use crate::faults::ShipFault;
use base_types::{Entity, Kind};
use blob_atlas::read_container;
use page_placing::PageWords;
use page_store::{PageFault, PageStore};

// The blocks of the pages that these bytes name, of an entity of this kind: of a container alone.
pub(crate) fn page_table(entity: Entity, bytes: &[u8]) -> Option<[u32; 256]>
    ensures { (part : Part) → IsOf entity part → Spells part bytes.now
        → IfSome result (λ table. (page : ℕ) → slice_index table page ≡ slice_index (table_in part) page) }
{
    match entity.kind() {
        Kind::Container => match read_container(bytes) {
            Ok(read) => Some(read.blocks),
            Err(_) => None,
        },
        Kind::Atlas => Some([0; 256]),
        Kind::Locus => Some([0; 256]),
    }
}

// Reads a page that has a block, which a kept record is to name, and puts it behind the others.
fn read_one<B: PageStore>(
    store: &mut B,
    page: u8,
    block: u32,
    pages: &mut Vec<PageWords>,
) -> Result<(), ShipFault>
    requires working { B.is_shut store.old ≡ false }
    ensures pages { B.tells → OnOk result (pages.new.items ≡ pages.old.items ++ page_in (B.words store.old) page block) }
    ensures named { block ≢ 0 → OnOk result (IsTrue (B.held store.old block || B.kept_names store.old block)) }
    ensures reads { HasReadPages B.PageStore store.old store.new result }
{
    if block == 0 {
        return Ok(());
    }
    if !store.kept(block) {
        return Err(ShipFault::Memory);
    }
    let mut words = [0; 128];
    if store.read_page(block, &mut words).is_err() {
        return Err(ShipFault::ReadFault);
    }
    match pages.push(PageWords { page, words }) {
        Ok(()) => Ok(()),
        Err(_) => Err(ShipFault::Memory),
    }
}

// Reads the pages of a table that have a block, ascending.
pub(crate) fn read_pages<B: PageStore>(
    store: &mut B,
    table: &[u32; 256],
    pages: &mut Vec<PageWords>,
) -> Result<(), ShipFault>
    requires working { B.is_shut store.old ≡ false }
    requires empty { pages.old.items ≡ [] }
    ensures pages { B.tells → OnOk result (pages.new.items ≡ pages_to (B.words store.old) table.now 256) }
    ensures reads { HasReadPages B.PageStore store.old store.new result }
{
    for page in 0..256 {
        match read_one(store, page as u8, table[page], pages) {
            Ok(()) => {}
            Err(fault) => return Err(fault),
        }
    }
    Ok(())
}
