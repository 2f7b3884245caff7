// How many blocks a copy needs.
ghost use Rattle.std.specs.Prelude.{◌≡◌, ◌≤◌, ◌+◌};
ghost use Rattle.kernel_record_facts.specs.cell_blobs.Blobs.{IsFormed, blob_need};
ghost use Rattle.page_placing.specs.Copying.{blocks_in};

use base_bytes::Blob;
use data_blocks::ShadowTable;
use kernel_record_facts::{Cell, blob_need};
use page_placing::count_blocks;

/// The blocks for the pages that have one, and for both blobs. What was in `blob` is lost.
pub(crate) fn need_of(from: &ShadowTable, atlas: &Cell, copy: &Cell, blob: &mut Blob) -> u32
    requires formed { IsFormed atlas.now.part × IsFormed copy.now.part }
    ensures need { result ≡ blocks_in from.now.0 + (blob_need atlas.now.part + blob_need copy.now.part) }
    ensures most { result ≤ 272 }
{
    u32::from(count_blocks(from)) + (blob_need(&atlas.part, blob) + blob_need(&copy.part, blob))
}
