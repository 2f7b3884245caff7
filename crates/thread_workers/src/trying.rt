// One look with the lent cells in hand: the store's lock and the desk's are taken.
ghost use Rattle.std.specs.Prelude.{◌≡◌, ◌<◌, ◌∷◌, [], ℕ, map};
ghost use Rattle.std.specs.Sync.Mutex.{mutex_guard_value};
ghost use Rattle.thread_board.specs.Sides.{PassSeen};
ghost use Rattle.thread_history.specs.Rules.{AllDiffer};
ghost use Rattle.thread_locks.specs.Rows.{AreFrom};
ghost use Rattle.thread_locks.specs.thread_items.declared.items.LookItem.{LookItem as AnItem};
ghost use Rattle.thread_workers.specs.Trying.{HasAnswered, HasTried};

use base_types::Entity;
use edge_disk::Disk;
use edge_managers::{Policy, Supplier};
use std::sync::{MutexGuard, Wait};
use thread_board::{Bench, Pass};
use thread_locks::{
    Answer, Board, Locks, LookItem, SightedCell, Unwritten, look_all, look_one, look_three,
    look_two,
};

/// How a try to make a look ended.
#[derive(Clone, Copy, PartialEq, Eq, Debug)]
pub(crate) enum Tried {
    /// Its item is noted, the last of the pass.
    Noted,
    /// Other locks are wanted now, or there are 2^62 items. Nothing was done.
    Again,
    /// There was no memory for guards, or a cell lies under another's lock. Nothing was done.
    Refused,
}

/// How a try ended that was answered so.
pub(crate) fn tried_by(answer: Answer) -> Tried
    ensures { (me : ℕ) (old new : PassSeen AnItem) → HasAnswered me answer old new → HasTried me result old new }
{
    match answer {
        Answer::Came(_) => Tried::Noted,
        Answer::Unfit | Answer::Full => Tried::Again,
    }
}

/// The look where the locus alone is lent.
pub(crate) fn try_one<R: Wait, D: Disk, S: Supplier, P: Policy, B: Board<D> + Bench>(
    rt: &R,
    locks: &Locks<D, S, P, B>,
    locus: &mut SightedCell<D, B>,
    pass: &mut Pass<Unwritten, LookItem, B>,
) -> Tried
    requires room { 0 < pass.old.room }
    ensures { HasTried locus.old.number result pass.old pass.new }
{
    let mut till = locks.till(rt);
    let mut desk = locks.desk(rt);
    let answer = look_one(
        &mut desk,
        &mut till,
        locus,
        locks.gate(),
        locks.slate(),
        pass,
    );
    tried_by(answer)
}

/// The look where the locus and another are lent.
pub(crate) fn try_two<R: Wait, D: Disk, S: Supplier, P: Policy, B: Board<D> + Bench>(
    rt: &R,
    locks: &Locks<D, S, P, B>,
    locus: &mut SightedCell<D, B>,
    other: &mut SightedCell<D, B>,
    pass: &mut Pass<Unwritten, LookItem, B>,
) -> Tried
    requires room { 0 < pass.old.room }
    requires apart { AllDiffer (locus.old.number ∷ other.old.number ∷ []) }
    ensures { HasTried locus.old.number result pass.old pass.new }
{
    let mut till = locks.till(rt);
    let mut desk = locks.desk(rt);
    let answer = look_two(
        &mut desk,
        &mut till,
        locus,
        other,
        locks.gate(),
        locks.slate(),
        pass,
    );
    tried_by(answer)
}

/// The look where the locus, the atlas and another are lent.
pub(crate) fn try_three<R: Wait, D: Disk, S: Supplier, P: Policy, B: Board<D> + Bench>(
    rt: &R,
    locks: &Locks<D, S, P, B>,
    locus: &mut SightedCell<D, B>,
    atlas: &mut SightedCell<D, B>,
    other: &mut SightedCell<D, B>,
    pass: &mut Pass<Unwritten, LookItem, B>,
) -> Tried
    requires room { 0 < pass.old.room }
    requires apart { AllDiffer (locus.old.number ∷ atlas.old.number ∷ other.old.number ∷ []) }
    ensures { HasTried locus.old.number result pass.old pass.new }
{
    let mut till = locks.till(rt);
    let mut desk = locks.desk(rt);
    let answer = look_three(
        &mut desk,
        &mut till,
        locus,
        atlas,
        other,
        locks.gate(),
        locks.slate(),
        pass,
    );
    tried_by(answer)
}

/// The look where all cells are lent, each at the place of its number.
pub(crate) fn try_each<R: Wait, D: Disk, S: Supplier, P: Policy, B: Board<D> + Bench>(
    rt: &R,
    locks: &Locks<D, S, P, B>,
    cells: &mut [MutexGuard<'_, SightedCell<D, B>>],
    me: Entity,
    pass: &mut Pass<Unwritten, LookItem, B>,
) -> Tried
    requires room { 0 < pass.old.room }
    requires row { AreFrom 0 64 (map mutex_guard_value cells.old) }
    ensures { HasTried me result pass.old pass.new }
{
    let mut till = locks.till(rt);
    let mut desk = locks.desk(rt);
    let answer = look_all(
        &mut desk,
        &mut till,
        cells,
        me,
        locks.gate(),
        locks.slate(),
        pass,
    );
    tried_by(answer)
}
