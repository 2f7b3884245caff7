// The parts of a kernel beside its cells' locks, and how they come from a kernel and back.
ghost use Rattle.std.specs.Prelude.{◌≡◌, IfSome, length, vec_len};

use base_bytes::Blob;
use base_types::Entry;
use edge_disk::Disk;
use std::alloc::Global;
use std::sync::Mutex;
use thread_cells::LockedCell;
use thread_desk::{Cell, Notes, Store};
use thread_history::Run;
use thread_stables::number_of;
use thread_ties::{Authority, Bond};

/// What a look is lent beside cells: the side that knows all of them, the store, what is noted, and room for a blob.
#[derive(Drop)]
pub(crate) struct LentCore<D: Disk, B: Bond<Cell> + Run<Entry>> {
    pub(crate) all: Authority<Cell, B>,
    pub(crate) store: Store<D>,
    pub(crate) notes: Notes,
    pub(crate) blob: Blob,
}

/// The cell that lay under a lock.
fn cell_of<B: Bond<Cell> + Run<Entry>>(locked: LockedCell<B>) -> Cell
    ensures { result ≡ locked.cell }
{
    let LockedCell {
        cell,
        share: _,
        fragment: _,
    } = locked;
    cell
}

/// The cells that lay under 64 locks, in their order; none where there is no memory for them, or where a cell lay under another's lock.
pub(crate) fn unlock_all<B: Bond<Cell> + Run<Entry>>(
    alloc: Global,
    all: &mut Authority<Cell, B>,
    mut locks: Vec<Mutex<LockedCell<B>>>,
) -> Option<Vec<Cell>>
    requires locks { vec_len locks ≡ 64 }
    requires count { length all.old ≡ 64 }
    ensures all { all.new ≡ all.old }
    ensures cells { IfSome result (λ cells. cells.items ≡ all.old) }
{
    let mut cells = Vec::with_capacity(alloc, 64).ok()?;
    locks.reverse();
    for number in 0..64_u8 {
        let Some(lock) = locks.pop() else {
            unreachable!()
        };
        let mut locked = lock.into_inner();
        locked.meet(all);
        if number_of(&locked) != number {
            return None;
        }
        cells.push_reserved(cell_of(locked));
    }
    Some(cells)
}
