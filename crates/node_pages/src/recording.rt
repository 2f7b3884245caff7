// A record of a store, read.
ghost use Rattle.std.specs.Prelude.{◌≡◌, IfOk, OnOk, false};
ghost use Rattle.kernel_record_facts.specs.Cells.{words_on};
ghost use Rattle.kernel_record_facts.specs.image_meaning.Parts.{IsOf, Part, Spells, table_in};
ghost use Rattle.node_pages.specs.Reading.{AnswersReads, pages_to};
ghost use Rattle.store_snapshots.specs.store_facts.State.{books};
ghost use Rattle.store_snapshots.specs.store_facts.image_facts.Bodies.{blob_in};

use crate::faults::ShipFault;
use crate::paging::{page_table, read_pages};
use base_bytes::Blob;
use base_types::Rec;
use edge_disk::Disk;
use page_placing::PageWords;
use std::alloc::Global;
use store_snapshots::Store;

/// Reads the blob of a record, and the pages of its container that have a block, ascending. It begins no write and no sync, reads 8 blocks at most for the blob
/// and one for each page, and takes the memory of the pages.
///
/// `ReadFault` comes only where the disk's count of faults rose, and shuts the store. `Memory` is also the answer where the bytes spell nothing or name
/// a block that no kept record names, as they can where the disk doesn't tell its bytes.
pub fn read_blocks<D: Disk>(
    store: &mut Store<D>,
    blob: &mut Blob,
    alloc: Global,
    rec: &Rec,
) -> Result<Vec<PageWords>, ShipFault>
    requires { (books store.old).shut ≡ false }
    ensures blob { D.tells → OnOk result (blob.new ≡ blob_in (D.reading store.old.disk) rec.now) }
    ensures pages { D.tells → IfOk result (λ pages. (p : Part) → IsOf rec.now.entity p → Spells p (blob_in (D.reading store.old.disk) rec.now)
        → pages.items ≡ pages_to (words_on (D.reading store.old.disk)) (table_in p) 256) }
    ensures answers { AnswersReads D.Disk store.old store.new result }
{
    if store.read_blob(rec, blob).is_err() {
        return Err(ShipFault::ReadFault);
    }
    let table = match page_table(rec.entity, blob.as_slice()) {
        Some(table) => table,
        None => return Err(ShipFault::Memory),
    };
    let mut pages = Vec::new(alloc);
    match read_pages(store, &table, &mut pages) {
        Ok(()) => Ok(pages),
        Err(fault) => Err(fault),
    }
}
