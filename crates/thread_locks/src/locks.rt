// The locks of a board.
ghost use Rattle.std.specs.Prelude.{◌≡◌, ◌++◌, ◌+◌, ◌-◌, ◌<◌, ◌≤◌, [], IfSome, None, Some, map, slice_get, vec_capacity};
ghost use Rattle.std.specs.Sync.Mutex.{mutex_guard_value};
ghost use Rattle.thread_board.specs.declared.views.PassItem.{PassItem as AnItem};
ghost use Rattle.thread_items.specs.Places.{entry_in};
ghost use Rattle.thread_items.specs.declared.items.LookItem.{LookItem as ALook};
ghost use Rattle.thread_locks.specs.Rows.{AreFrom};

use crate::lines::Unwritten;
use crate::room::Room;
use base_types::{Entity, Entry};
use edge_disk::Disk;
use edge_managers::{Gate, Policy, Supplier};
use std::alloc::Global;
use std::marker::Model;
use std::sync::{Mutex, MutexGuard, Wait};
use thread_board::{Bench, Pass, Slate};
use thread_items::{Board, ItemDesk, LookItem, SightedCell, Till};

/// The one list, and behind it the other. None where there is no room.
fn joined<T: Drop>(front: Vec<T>, back: Vec<T>) -> Option<Vec<T>>
    ensures { IfSome result (λ all. all.items ≡ front.items ++ back.items) }
{
    let (mut all, mut back) = (front, back);
    let Ok(()) = all.append(&mut back) else {
        return None;
    };
    Some(all)
}

/// A kernel on threads: a lock for each of its 64 cells, one for its store and one for its desk, beside the board's table and its managers, which
/// keep their word and are those of the named run. Contracts see the managers.
///
/// Locks are to be taken in one order: those of loci, of the atlas, of containers, each ascending; then the store's, and last the desk's.
#[derive(Drop)]
pub struct Locks<D: Disk, S: Supplier, P: Policy, B: Board<D> + Bench> {
    pub(crate) cells: Vec<Mutex<SightedCell<D, B>>>,
    pub(crate) till: Mutex<Till<D, B>>,
    pub(crate) desk: Mutex<ItemDesk<D, Unwritten, B>>,
    pub(crate) slate: Slate<Unwritten, LookItem, B>,
    pub(crate) gate: Gate<S, P>,
    pub(crate) room: Room,
    pub(crate) alloc: Global,
}

impl<D: Disk, S: Supplier, P: Policy, B: Board<D> + Bench> Model for Locks<D, S, P, B> {
    ghost use Rattle.std.specs.Prelude.{◌≡◌, vec_len};
    ghost use Rattle.edge_managers.specs.declared.Gate.{Gate};

    ghost Value = { Gate S P };

    ghost view = { λ l. l.gate };

    ghost invariant = { λ l. (vec_len l.cells ≡ 64) × (S.keeps l.gate.supply × P.keeps l.gate.policy)
        × ((B.begin.supply ≡ S.word l.gate.supply) × (B.begin.policy ≡ P.wish l.gate.policy)) };
}

impl<D: Disk, S: Supplier, P: Policy, B: Board<D> + Bench> Locks<D, S, P, B> {
    /// The cell of an entity, once its lock is free. None where another's lies there.
    pub fn cell<R: Wait>(&self, rt: &R, entity: Entity) -> Option<MutexGuard<'_, SightedCell<D, B>>>
        ensures number { IfSome result (λ guard. (mutex_guard_value guard).number ≡ entity) }
    {
        let number = entity.number();
        let guard = self.cells[number as usize].lock(rt);
        if guard.number() != number {
            return None;
        }
        Some(guard)
    }

    /// The cells of these numbers, below 64, in their order, each once its lock is free, with room for so many. None for want of memory, or where
    /// another's lies under a lock; then all locks are given back.
    fn cells_from<R: Wait>(
        &self,
        rt: &R,
        from: u8,
        to: u8,
        room: usize,
    ) -> Option<Vec<MutexGuard<'_, SightedCell<D, B>>>>
        requires bound { (from ≤ to) × (to ≤ 64) × (to ≤ from + room) }
        ensures row { IfSome result (λ guards. AreFrom from (to - from) (map mutex_guard_value guards.items)) }
        ensures room { IfSome result (λ guards. room ≤ vec_capacity guards) }
    {
        let mut guards = Vec::with_capacity(self.alloc, room).ok()?;
        for number in from..to {
            let guard = self.cell(rt, Entity::of(number))?;
            guards.push_reserved(guard);
        }
        Some(guards)
    }

    /// The cells of all 23 loci, whose locks are taken in ascending number. None, and no lock held, for want of memory for the guards, or where
    /// another's cell lies under a lock.
    pub fn loci<R: Wait>(&self, rt: &R) -> Option<Vec<MutexGuard<'_, SightedCell<D, B>>>>
        ensures { IfSome result (λ guards. AreFrom 41 23 (map mutex_guard_value guards.items)) }
    {
        self.cells_from(rt, 41, 64, 23)
    }

    /// All 64 cells, each at the place of its number. Their locks are taken in the board's order, those of loci first. None as at `loci`.
    pub fn all_cells<R: Wait>(&self, rt: &R) -> Option<Vec<MutexGuard<'_, SightedCell<D, B>>>>
        ensures { IfSome result (λ guards. AreFrom 0 64 (map mutex_guard_value guards.items)) }
    {
        let loci = self.loci(rt)?;
        let others = self.cells_from(rt, 0, 41, 64)?;
        joined(others, loci)
    }

    /// The store, once its lock is free.
    pub fn till<R: Wait>(&self, rt: &R) -> MutexGuard<'_, Till<D, B>> {
        self.till.lock(rt)
    }

    /// The desk, once its lock is free.
    pub fn desk<R: Wait>(&self, rt: &R) -> MutexGuard<'_, ItemDesk<D, Unwritten, B>> {
        self.desk.lock(rt)
    }

    /// The managers, which keep their word and are those of the board's run.
    pub fn gate(&self) -> &Gate<S, P>
        ensures gate { result.now ≡ self.now }
        ensures keeps { S.keeps result.now.supply × P.keeps result.now.policy }
        ensures managers { (B.begin.supply ≡ S.word result.now.supply) × (B.begin.policy ≡ P.wish result.now.policy) }
    {
        &self.gate
    }

    /// The table of passes and items.
    pub fn slate(&self) -> &Slate<Unwritten, LookItem, B> {
        &self.slate
    }

    /// Where memory is taken.
    pub fn alloc(&self) -> Global {
        self.alloc
    }

    /// A pass of a number of its own, in which no item is noted. It waits for the desk's lock, and where 2^62 passes were drawn it waits for ever.
    pub fn pass<R: Wait>(&self, rt: &R) -> Pass<Unwritten, LookItem, B>
        ensures { (1 < result.number) × (result.items ≡ []) }
    {
        let fresh = self.desk.lock(rt).fresh(&self.slate);
        fresh.into_pass(rt, self.alloc, &self.slate)
    }

    /// The entry of the step that this item of a pass tells, as it stands in the history at the item's place, and will in the one that `close` gives back;
    /// none where the item tells none, or the pass has fewer items. It waits for the desk's lock.
    pub fn entry_of<R: Wait>(
        &self,
        rt: &R,
        pass: &mut Pass<Unwritten, LookItem, B>,
        at: usize,
    ) -> Option<Entry>
        ensures pass { pass.new ≡ pass.old }
        ensures entry { (x : AnItem ALook) → slice_get pass.old.items at ≡ Some x → result ≡ entry_in x.item.came }
        ensures none { slice_get pass.old.items at ≡ None → result ≡ None }
    {
        self.desk.lock(rt).entry_of(&self.slate, pass, at)
    }
}
