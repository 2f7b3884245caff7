// Whether enough blocks are free for the records of all changed cells, where all are lent.
ghost use Rattle.std.specs.Prelude.{◌≡◌, ◌↔◌, None, Some, map, slice_get};
ghost use Rattle.std.specs.Sync.Mutex.{mutex_guard_value};
ghost use Rattle.thread_commits.specs.kernel_commit_facts.cell_blobs.Blobs.{need_in};
ghost use Rattle.thread_commits.specs.kernel_commit_facts.store_books.Books.{kept_names};
ghost use Rattle.thread_commits.specs.kernel_commit_facts.store_facts.State.{books};
ghost use Rattle.thread_commits.specs.kernel_commit_facts.table_laws.Tables.{IsOrderly};
ghost use Rattle.thread_commits.specs.kernel_commit_facts.Parts.{Noted, parts_of};
ghost use Rattle.thread_commits.specs.kernel_commit_facts.Stabilising.{AreShort, NeedsFit, needs_in};
ghost use Rattle.thread_settling.specs.Rows.{IsRow};

use crate::lending::LentCell;
use base_bytes::Blob;
use base_types::Entry;
use edge_disk::{Disk, NoBlocks};
use std::sync::MutexGuard;
use thread_commits::{Cell, Store, need_cell};
use thread_history::Run;
use thread_ties::{Authority, Bond};

/// The blocks that a record of a lent cell needs, none where it has its newest one. What was in `blob` is lost.
fn need_lent<D: Disk, B: Bond<Cell> + Run<Entry>, K, C: LentCell<K, D, B>>(
    all: &mut Authority<Cell, B>,
    cell: &mut C,
    store: &Store<D>,
    blob: &mut Blob,
) -> u32
    requires orderly { IsOrderly (books store.now).held all.old }
    ensures all { all.new ≡ all.old }
    ensures cell { C.keeping cell.new ≡ C.keeping cell.old }
    ensures stands { slice_get all.old (C.keeping cell.old).number ≡ Some (C.keeping cell.old).cell }
    ensures need { result ≡ need_in (kept_names (books store.now)) (C.keeping cell.old).cell }
{
    cell.meet(all);
    need_cell(cell.as_cell(), store, blob)
}

/// The blocks that a record of each changed cell needs, together. What was in `blob` is lost.
fn all_needs<D: Disk, B: Bond<Cell> + Run<Entry>, K, C: LentCell<K, D, B>>(
    all: &mut Authority<Cell, B>,
    cells: &mut [MutexGuard<'_, C>],
    store: &Store<D>,
    blob: &mut Blob,
) -> u32
    requires row { IsRow (map (λ g. C.keeping (mutex_guard_value g)) cells.old) }
    requires orderly { IsOrderly (books store.now).held all.old }
    ensures all { all.new ≡ all.old }
    ensures cells { map (λ g. C.keeping (mutex_guard_value g)) cells.new ≡ map (λ g. C.keeping (mutex_guard_value g)) cells.old }
    ensures sum { result ≡ needs_in (kept_names (books store.now)) all.old }
{
    let mut sum = 0;
    for i in 0..64 {
        let cell = &mut *cells[i];
        sum += need_lent(all, cell, store, blob);
    }
    sum
}

/// Both numbers, where fewer blocks are free than records of all changed cells need together. What was in `blob` is lost.
pub(crate) fn shortage<D: Disk, B: Bond<Cell> + Run<Entry>, K, C: LentCell<K, D, B>>(
    all: &mut Authority<Cell, B>,
    cells: &mut [MutexGuard<'_, C>],
    store: &Store<D>,
    blob: &mut Blob,
) -> Option<NoBlocks>
    requires row { IsRow (map (λ g. C.keeping (mutex_guard_value g)) cells.old) }
    requires orderly { IsOrderly (books store.now).held all.old }
    ensures all { all.new ≡ all.old }
    ensures cells { map (λ g. C.keeping (mutex_guard_value g)) cells.new ≡ map (λ g. C.keeping (mutex_guard_value g)) cells.old }
    ensures none { result ≡ None → (noted : Noted) → NeedsFit (parts_of store.now all.old noted) }
    ensures some { (noted : Noted) (n : NoBlocks) → (result ≡ Some n) ↔ AreShort (parts_of store.now all.old noted) n }
{
    let need = all_needs(all, cells, store, blob);
    let free = store.free();
    if free < need {
        return Some(NoBlocks { need, free });
    }
    None
}
