// How many blocks a commit needs.
ghost use Rattle.std.specs.Prelude.{◌≡◌, ◌≤◌, false};
ghost use Rattle.cell_blobs.specs.Blobs.{blob_need, is_recorded, need_in, page_need, IsFormed};

use crate::blobs::write_part;
use base_bytes::Blob;
use cell_states::{Cell, PageStore, Part};

/// The blocks for pages: those that changed and have no block of their own.
#[tactic(auto, using(crate::proofs::Shortage::few_pages))]
fn page_need<B: PageStore>(part: &Part, store: &B) -> u32
    ensures need { result ≡ page_need (B.kept_names store.now) part.now }
    ensures few { result ≤ 256 }
{
    match part {
        Part::Container(storage) => storage.memory.need(store),
        _ => 0,
    }
}

/// The blocks for the blob, at most 8; it is written to see how long it is, and what was in `blob` is lost.
pub fn blob_need(part: &Part, blob: &mut Blob) -> u32
    requires { IsFormed part.now }
    ensures need { result ≡ blob_need part.now }
    ensures few { result ≤ 8 }
{
    write_part(part, blob);
    ((blob.len() + 1023) / 1024) as u32
}

/// Whether the entity hasn't changed since its newest record.
pub fn is_recorded(cell: &Cell) -> bool
    ensures { result ≡ is_recorded cell.now }
{
    cell.clock.version == cell.wish.newest
}

/// How many blocks have to be free for a commit of the cell: one for each changed page that has no block of its own, and those
/// of the blob; 0 where the entity hasn't changed since its newest record. What was in `blob` is lost: the blob is written there to
/// see how long it is. It looks at each page of a container.
pub fn need_cell<B: PageStore>(cell: &Cell, store: &B, blob: &mut Blob) -> u32
    requires { is_recorded cell.now ≡ false → IsFormed cell.now.part }
    ensures { result ≡ need_in (B.kept_names store.now) cell.now }
{
    if is_recorded(cell) {
        return 0;
    }
    page_need(&cell.part, store) + blob_need(&cell.part, blob)
}
