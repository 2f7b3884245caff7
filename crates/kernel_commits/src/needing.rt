// Whether enough blocks are free for the records of all changed cells.
ghost use Rattle.std.specs.Prelude.{◌≡◌, ◌↔◌, None, Some};
ghost use Rattle.kernel_commit_facts.specs.table_laws.Tables.{IsOrderly};
ghost use Rattle.kernel_commit_facts.specs.Stabilising.{AreShort, NeedsFit, needs_in};
ghost use Rattle.kernel_commit_facts.specs.store_facts.State.{books};
ghost use Rattle.kernel_commit_facts.specs.store_books.Books.{kept_names};

use crate::cores::Core;
use base_bytes::Blob;
use edge_disk::{Disk, NoBlocks};
use kernel_commit_facts::{Cell, Store, need_cell};

/// The blocks that a record of each changed cell needs, together. What was in `blob` is lost.
fn all_needs<D: Disk>(cells: &[Cell], store: &Store<D>, blob: &mut Blob) -> u32
    requires { IsOrderly (books store.now).held cells.now }
    ensures { result ≡ needs_in (kept_names (books store.now)) cells.now }
{
    let mut sum = 0;
    for cell in cells {
        sum += need_cell(cell, store, blob);
    }
    sum
}

/// Both numbers, where fewer blocks are free than records of all changed cells need together.
pub(crate) fn shortage<D: Disk>(core: &mut Core<D>) -> Option<NoBlocks>
    requires { IsOrderly (books core.old.store).held core.old.cells }
    ensures same { core.new ≡ core.old }
    ensures none { result ≡ None → NeedsFit core.old }
    ensures some { (n : NoBlocks) → (result ≡ Some n) ↔ AreShort core.old n }
{
    let need = all_needs(&core.cells, &core.store, &mut core.blob);
    let free = core.store.free();
    if free < need {
        return Some(NoBlocks { need, free });
    }
    None
}
