// One try at a step of a locus: the locks that it wants are taken in their order.
ghost use Rattle.std.specs.Prelude.{◌≡◌, ◌<◌, ◌∷◌, [], IfSome, true};
ghost use Rattle.std.specs.Sync.Mutex.{mutex_guard_value};
ghost use Rattle.thread_history.specs.Rules.{AllDiffer};
ghost use Rattle.thread_workers.specs.Trying.{HasTried};

use crate::gates::StepGate;
use crate::trying::{Tried, try_each, try_one, try_three, try_two};
use crate::wants::{Wants, is_before, next_born, wants_at};
use base_types::{Entity, Kind};
use edge_disk::Disk;
use edge_managers::{Policy, Supplier};
use std::sync::{MutexGuard, Wait};
use thread_board::{Bench, Pass};
use thread_locks::{Board, Locks, LookItem, SightedCell, Unwritten};

/// A step that a worker is to make: the board, what is told of the step, the worker and the locus.
#[derive(Drop)]
pub(crate) struct Turn<'a, D: Disk, S: Supplier, P: Policy, B: Board<D> + Bench, G: StepGate> {
    pub(crate) locks: &'a Locks<D, S, P, B>,
    pub(crate) gate: &'a G,
    pub(crate) worker: u32,
    pub(crate) locus: Entity,
}

/// The cell of an entity among these, which is taken out.
fn taken<'b, D: Disk, B: Board<D>>(
    cells: &mut Vec<MutexGuard<'b, SightedCell<D, B>>>,
    entity: Entity,
) -> Option<MutexGuard<'b, SightedCell<D, B>>>
    ensures { IfSome result (λ guard. (mutex_guard_value guard).number ≡ entity) }
{
    let number = entity.number();
    for at in 0..cells.len() {
        if cells[at].number() == number {
            let guard = cells.swap_remove(at);
            return if guard.number() == number {
                Some(guard)
            } else {
                None
            };
        }
    }
    None
}

impl<'a, D: Disk, S: Supplier, P: Policy, B: Board<D> + Bench, G: StepGate> Turn<
    'a,
    D,
    S,
    P,
    B,
    G,
> {
    /// Whether the atlas, this entity and the locus are three.
    fn is_third(&self, other: Entity) -> bool
        ensures { result ≡ true → AllDiffer (self.now.locus ∷ 0 ∷ other ∷ []) }
    {
        other != self.locus && other != Entity::ATLAS && self.locus != Entity::ATLAS
    }

    /// Tells that the step touches the locus and another entity.
    fn enter_two<R: Wait>(&self, rt: &R, other: Entity) {
        let (low, high) = if self.locus.number() < other.number() {
            (self.locus, other)
        } else {
            (other, self.locus)
        };
        self.gate.within(rt, self.worker, low);
        self.gate.within(rt, self.worker, high);
    }

    /// The look with the locus and another, both locked.
    fn with_two<R: Wait>(
        &self,
        rt: &R,
        pass: &mut Pass<Unwritten, LookItem, B>,
        cell: &mut SightedCell<D, B>,
        other: &mut SightedCell<D, B>,
    ) -> Tried
        requires room { 0 < pass.old.room }
        requires locus { cell.old.number ≡ self.now.locus }
        requires apart { AllDiffer (cell.old.number ∷ other.old.number ∷ []) }
        ensures { HasTried self.now.locus result pass.old pass.new }
    {
        self.enter_two(rt, other.locked.cell.clock.entity);
        try_two(rt, self.locks, cell, other, pass)
    }

    /// The look with the locus, the atlas and another, all three locked.
    fn with_three<R: Wait>(
        &self,
        rt: &R,
        pass: &mut Pass<Unwritten, LookItem, B>,
        cell: &mut SightedCell<D, B>,
        atlas: &mut SightedCell<D, B>,
        other: &mut SightedCell<D, B>,
    ) -> Tried
        requires room { 0 < pass.old.room }
        requires locus { cell.old.number ≡ self.now.locus }
        requires apart { AllDiffer (cell.old.number ∷ atlas.old.number ∷ other.old.number ∷ []) }
        ensures { HasTried self.now.locus result pass.old pass.new }
    {
        self.gate.within(rt, self.worker, Entity::ATLAS);
        self.enter_two(rt, other.locked.cell.clock.entity);
        try_three(rt, self.locks, cell, atlas, other, pass)
    }

    /// The try where one entity is wanted whose lock comes before the locus's: it is taken first, and the plan read again.
    fn try_before<R: Wait>(
        &self,
        rt: &R,
        pass: &mut Pass<Unwritten, LookItem, B>,
        other: Entity,
    ) -> Tried
        requires room { 0 < pass.old.room }
        requires apart { AllDiffer (self.now.locus ∷ other ∷ []) }
        ensures { HasTried self.now.locus result pass.old pass.new }
    {
        let Some(mut beside) = self.locks.cell(rt, other) else {
            return Tried::Refused;
        };
        let Some(mut cell) = self.locks.cell(rt, self.locus) else {
            return Tried::Refused;
        };
        if wants_at(&cell) != Wants::Beside(other) {
            return Tried::Again;
        }
        self.with_two(rt, pass, &mut cell, &mut beside)
    }

    /// The try where one entity is wanted.
    fn try_beside<R: Wait>(
        &self,
        rt: &R,
        pass: &mut Pass<Unwritten, LookItem, B>,
        cell: MutexGuard<'_, SightedCell<D, B>>,
        other: Entity,
    ) -> Tried
        requires room { 0 < pass.old.room }
        requires locus { (mutex_guard_value cell).number ≡ self.now.locus }
        ensures { HasTried self.now.locus result pass.old pass.new }
    {
        if other == self.locus {
            return Tried::Refused;
        }
        let mut cell = cell;
        if is_before(other, self.locus) {
            drop(cell);
            return self.try_before(rt, pass, other);
        }
        let Some(mut beside) = self.locks.cell(rt, other) else {
            return Tried::Refused;
        };
        self.with_two(rt, pass, &mut cell, &mut beside)
    }

    /// The try where the atlas and another entity are wanted, whose locks come behind the locus's.
    fn try_mapping<R: Wait>(
        &self,
        rt: &R,
        pass: &mut Pass<Unwritten, LookItem, B>,
        cell: MutexGuard<'_, SightedCell<D, B>>,
        other: Entity,
    ) -> Tried
        requires room { 0 < pass.old.room }
        requires locus { (mutex_guard_value cell).number ≡ self.now.locus }
        ensures { HasTried self.now.locus result pass.old pass.new }
    {
        if !self.is_third(other) {
            return Tried::Refused;
        }
        let mut cell = cell;
        let Some(mut atlas) = self.locks.cell(rt, Entity::ATLAS) else {
            return Tried::Refused;
        };
        let Some(mut beside) = self.locks.cell(rt, other) else {
            return Tried::Refused;
        };
        self.with_three(rt, pass, &mut cell, &mut atlas, &mut beside)
    }

    /// The try where a container is made: its number is known under the atlas's lock, and its lock comes behind that.
    fn try_make<R: Wait>(
        &self,
        rt: &R,
        pass: &mut Pass<Unwritten, LookItem, B>,
        cell: MutexGuard<'_, SightedCell<D, B>>,
    ) -> Tried
        requires room { 0 < pass.old.room }
        requires locus { (mutex_guard_value cell).number ≡ self.now.locus }
        ensures { HasTried self.now.locus result pass.old pass.new }
    {
        if self.locus == Entity::ATLAS {
            return Tried::Refused;
        }
        let mut cell = cell;
        let Some(mut atlas) = self.locks.cell(rt, Entity::ATLAS) else {
            return Tried::Refused;
        };
        let Some(born) = next_born(&atlas.locked.cell, Kind::Container) else {
            return self.with_two(rt, pass, &mut cell, &mut atlas);
        };
        if !self.is_third(born) {
            return Tried::Refused;
        }
        let Some(mut newborn) = self.locks.cell(rt, born) else {
            return Tried::Refused;
        };
        self.with_three(rt, pass, &mut cell, &mut atlas, &mut newborn)
    }

    /// The try where a locus is spawned: its number is known only under the atlas's lock, before which the locks of all loci come. They are taken,
    /// and the plan read again.
    fn try_spawn<R: Wait>(&self, rt: &R, pass: &mut Pass<Unwritten, LookItem, B>) -> Tried
        requires room { 0 < pass.old.room }
        ensures { HasTried self.now.locus result pass.old pass.new }
    {
        let Some(mut loci) = self.locks.loci(rt) else {
            return Tried::Refused;
        };
        let Some(mut cell) = taken(&mut loci, self.locus) else {
            return Tried::Refused;
        };
        if wants_at(&cell) != Wants::Spawn {
            return Tried::Again;
        }
        let Some(mut atlas) = self.locks.cell(rt, Entity::ATLAS) else {
            return Tried::Refused;
        };
        let Some(born) = next_born(&atlas.locked.cell, Kind::Locus) else {
            return self.with_atlas(rt, pass, &mut cell, &mut atlas);
        };
        if !self.is_third(born) {
            return Tried::Refused;
        }
        let Some(mut newborn) = taken(&mut loci, born) else {
            return Tried::Refused;
        };
        self.with_three(rt, pass, &mut cell, &mut atlas, &mut newborn)
    }

    /// The look of a birth for which no number is free.
    fn with_atlas<R: Wait>(
        &self,
        rt: &R,
        pass: &mut Pass<Unwritten, LookItem, B>,
        cell: &mut SightedCell<D, B>,
        atlas: &mut SightedCell<D, B>,
    ) -> Tried
        requires room { 0 < pass.old.room }
        requires locus { cell.old.number ≡ self.now.locus }
        requires atlas { atlas.old.number ≡ 0 }
        ensures { HasTried self.now.locus result pass.old pass.new }
    {
        if self.locus == Entity::ATLAS {
            return Tried::Refused;
        }
        self.with_two(rt, pass, cell, atlas)
    }

    /// The try of a stabilise, whose Stable records every cell: the locks of all are taken, and the plan read again.
    fn try_all<R: Wait>(&self, rt: &R, pass: &mut Pass<Unwritten, LookItem, B>) -> Tried
        requires room { 0 < pass.old.room }
        ensures { HasTried self.now.locus result pass.old pass.new }
    {
        let Some(mut cells) = self.locks.all_cells(rt) else {
            return Tried::Refused;
        };
        if wants_at(&cells[self.locus.number() as usize]) != Wants::All {
            return Tried::Again;
        }
        self.gate.within(rt, self.worker, self.locus);
        try_each(rt, self.locks, &mut cells, self.locus, pass)
    }

    /// One try. The plan is read under the locus's lock, which is given back where an earlier one is wanted. All locks are given back behind it.
    pub(crate) fn try_step<R: Wait>(&self, rt: &R, pass: &mut Pass<Unwritten, LookItem, B>) -> Tried
        requires room { 0 < pass.old.room }
        ensures { HasTried self.now.locus result pass.old pass.new }
    {
        let Some(mut cell) = self.locks.cell(rt, self.locus) else {
            return Tried::Refused;
        };
        match wants_at(&cell) {
            Wants::Nothing => try_one(rt, self.locks, &mut cell, pass),
            Wants::Alone => {
                self.gate.within(rt, self.worker, self.locus);
                try_one(rt, self.locks, &mut cell, pass)
            }
            Wants::Beside(other) => self.try_beside(rt, pass, cell, other),
            Wants::Mapping(other) => self.try_mapping(rt, pass, cell, other),
            Wants::Make => self.try_make(rt, pass, cell),
            Wants::Spawn => {
                drop(cell);
                self.try_spawn(rt, pass)
            }
            Wants::All => {
                drop(cell);
                self.try_all(rt, pass)
            }
        }
    }
}
