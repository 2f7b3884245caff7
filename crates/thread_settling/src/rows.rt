// All cells under their locks, and all of them lent.
ghost use Rattle.std.specs.Prelude.{◌≡◌, ◌+◌, ◌<◌, IfOk, length, map, vec_len};
ghost use Rattle.std.specs.Sync.Mutex.{mutex_guard_value};
ghost use Rattle.thread_commits.specs.kernel_commit_facts.table_laws.Tables.{AreNumbered};
ghost use Rattle.thread_history.specs.Sides.{sides_upto};
ghost use Rattle.thread_settling.specs.Rows.{AreBeside, IsRow};
ghost use Rattle.thread_ties.specs.Sides.{fragments_of};

use crate::lending::{Bare, CellInLock};
use base_types::Entry;
use std::alloc::{AllocError, Global};
use std::sync::{Mutex, MutexGuard, Wait};
use thread_cells::LockedCell;
use thread_commits::Cell;
use thread_history::{Run, Share};
use thread_ties::{Bond, Fragment, fragments_law};

/// Why not all cells are lent. All locks that were taken are given back.
#[derive(Clone, Copy, Debug, PartialEq, Eq)]
pub enum RowFault {
    /// There was no memory for the guards. No lock was taken.
    Memory,
    /// The cell under the lock of this number is another entity's.
    Misplaced(u8),
}

/// The last cell, with its share and its fragment.
fn last_of<B: Bond<Cell> + Run<Entry>>(
    cells: &mut Vec<Cell>,
    shares: &mut Vec<Share<Entry, B>>,
    fragments: &mut Vec<Fragment<Cell, B>>,
) -> LockedCell<B>
    requires beside { AreBeside cells.old.items shares.old.items fragments.old.items }
    requires some { 0 < vec_len cells.old }
    ensures beside { AreBeside cells.new.items shares.new.items fragments.new.items }
    ensures fewer { vec_len cells.new + 1 ≡ vec_len cells.old }
{
    match cells.pop() {
        Some(cell) => match shares.pop() {
            Some(share) => match fragments.pop() {
                Some(fragment) => {
                    return LockedCell {
                        cell,
                        share,
                        fragment,
                    };
                }
                None => unreachable!(),
            },
            None => unreachable!(),
        },
        None => unreachable!(),
    }
}

/// Puts each cell under a lock of its own, with its share and its fragment. It takes memory for 64 locks.
pub fn lock_all<B: Bond<Cell> + Run<Entry>>(
    alloc: Global,
    mut cells: Vec<Cell>,
    mut shares: Vec<Share<Entry, B>>,
    mut fragments: Vec<Fragment<Cell, B>>,
) -> Result<Vec<Mutex<LockedCell<B>>>, AllocError>
    requires numbers { AreNumbered cells.items }
    requires shares { shares.items ≡ sides_upto 64 }
    requires fragments { fragments.items ≡ fragments_of cells.items }
    ensures all { IfOk result (λ locks. vec_len locks ≡ 64) }
{
    fragments_law::<Cell>();
    let mut locks = Vec::with_capacity(alloc, 64)?;
    for n in 0..64_usize {
        let _ = n;
        locks.push_reserved(Mutex::new(last_of(&mut cells, &mut shares, &mut fragments)));
    }
    locks.reverse();
    Ok(locks)
}

/// The number of a lent cell's entity.
pub fn number_of<B: Bond<Cell> + Run<Entry>>(cell: &LockedCell<B>) -> u8
    ensures { result ≡ cell.now.number }
{
    cell.cell.clock.entity.number()
}

/// Takes the locks of all cells, in ascending number, and waits for each. The cell under each lock is of the lock's number, or it is told
/// which isn't. It takes memory for 64 guards.
pub fn lend_row<'b, R: Wait, K, C: CellInLock<K>>(
    rt: &R,
    alloc: Global,
    locks: &'b [Mutex<C>],
) -> Result<Vec<MutexGuard<'b, C>>, RowFault>
    requires all { length locks.now ≡ 64 }
    ensures row { IfOk result (λ guards. IsRow (map (λ g. C.keeping (mutex_guard_value g)) guards.items)) }
{
    let Ok(mut guards) = Vec::with_capacity(alloc, 64) else {
        return Err(RowFault::Memory);
    };
    for number in 0..64_u8 {
        let guard = locks[usize::from(number)].lock(rt);
        if guard.number() != number {
            return Err(RowFault::Misplaced(number));
        }
        guards.push_reserved(guard);
    }
    Ok(guards)
}

/// `lend_row` of cells of which a free lock promises nothing.
pub fn lend_all<'b, R: Wait, B: Bond<Cell> + Run<Entry>>(
    rt: &R,
    alloc: Global,
    locks: &'b [Mutex<LockedCell<B>>],
) -> Result<Vec<MutexGuard<'b, LockedCell<B>>>, RowFault>
    requires all { length locks.now ≡ 64 }
    ensures row { IfOk result (λ guards. IsRow (map mutex_guard_value guards.items)) }
{
    lend_row::<R, Bare, LockedCell<B>>(rt, alloc, locks)
}
