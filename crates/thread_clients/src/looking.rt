// Looks at a locus that take the locks of the cells which its step wants.
ghost use Rattle.std.specs.Prelude.{◌≡◌, None, IfSome, length};
ghost use Rattle.std.specs.Sync.Mutex.{mutex_guard_value};
ghost use Rattle.thread_stables.specs.kernel_core_facts.table_laws.Tables.{AreClean};
ghost use Rattle.thread_stables.specs.kernel_core_facts.kernel_record_facts.Cells.{words_on};
ghost use Rattle.thread_stables.specs.kernel_core_facts.kernel_commit_facts.Parts.{parts_of};
ghost use Rattle.thread_stables.specs.kernel_core_facts.kernel_commit_facts.Steady.{IsSteady};
ghost use Rattle.thread_stables.specs.thread_looks.Looking.{LooksAsSerial};

use crate::lending::{Lending, lending_at};
use crate::parts::LentCore;
use base_types::{Entity, Entry};
use edge_disk::Disk;
use edge_managers::{Gate, Policy, Supplier};
use std::alloc::Global;
use std::sync::{Mutex, MutexGuard, Wait};
use thread_cells::LockedCell;
use thread_desk::{Cell, Stopped};
use thread_history::Run;
use thread_stables::{Looked, lend_all, look_all, look_one, look_three, look_two, number_of};
use thread_ties::Bond;

/// The cell of an entity, under its lock; none where another's lies there.
fn lock_at<'b, R: Wait, B: Bond<Cell> + Run<Entry>>(
    rt: &R,
    locks: &'b [Mutex<LockedCell<B>>],
    entity: Entity,
) -> Option<MutexGuard<'b, LockedCell<B>>>
    requires locks { length locks.now ≡ 64 }
    ensures number { IfSome result (λ guard. (mutex_guard_value guard).number ≡ entity) }
{
    let number = entity.number();
    let guard = locks[number as usize].lock(rt);
    if number_of(&guard) != number {
        return None;
    }
    Some(guard)
}

/// The look where the locus alone is lent.
fn look_by_one<D: Disk, B: Bond<Cell> + Run<Entry>, R: Wait, S: Supplier, P: Policy>(
    rt: &R,
    core: &mut LentCore<D, B>,
    locks: &[Mutex<LockedCell<B>>],
    me: Entity,
    gate: &Gate<S, P>,
) -> Option<Result<Looked, Stopped>>
    requires keeps { S.keeps gate.now.supply }
    requires wishes { P.keeps gate.now.policy }
    requires locks { length locks.now ≡ 64 }
    requires steady { IsSteady D.Disk (parts_of core.old.store core.old.all core.old.notes) }
    requires clean { D.tells → AreClean (S.word gate.now.supply) (words_on (D.reading core.old.store.disk)) core.old.all }
    ensures none { result ≡ None → parts_of core.new.store core.new.all core.new.notes ≡ parts_of core.old.store core.old.all core.old.notes }
    ensures looks { IfSome result (LooksAsSerial D.Disk (S.word gate.now.supply) (P.wish gate.now.policy) me (parts_of core.old.store core.old.all core.old.notes) (parts_of core.new.store core.new.all core.new.notes)) }
{
    let Some(mut locus) = lock_at(rt, locks, me) else {
        return None;
    };
    look_one(
        &mut core.all,
        &mut locus,
        &mut core.store,
        &mut core.notes,
        &mut core.blob,
        gate,
    )
}

/// The look where the locus and another are lent.
fn look_by_two<D: Disk, B: Bond<Cell> + Run<Entry>, R: Wait, S: Supplier, P: Policy>(
    rt: &R,
    core: &mut LentCore<D, B>,
    locks: &[Mutex<LockedCell<B>>],
    me: Entity,
    other: Entity,
    gate: &Gate<S, P>,
) -> Option<Result<Looked, Stopped>>
    requires keeps { S.keeps gate.now.supply }
    requires wishes { P.keeps gate.now.policy }
    requires locks { length locks.now ≡ 64 }
    requires steady { IsSteady D.Disk (parts_of core.old.store core.old.all core.old.notes) }
    requires clean { D.tells → AreClean (S.word gate.now.supply) (words_on (D.reading core.old.store.disk)) core.old.all }
    ensures none { result ≡ None → parts_of core.new.store core.new.all core.new.notes ≡ parts_of core.old.store core.old.all core.old.notes }
    ensures looks { IfSome result (LooksAsSerial D.Disk (S.word gate.now.supply) (P.wish gate.now.policy) me (parts_of core.old.store core.old.all core.old.notes) (parts_of core.new.store core.new.all core.new.notes)) }
{
    if other == me {
        return None;
    }
    let Some(mut locus) = lock_at(rt, locks, me) else {
        return None;
    };
    let mut other = locks[other.number() as usize].lock(rt);
    look_two(
        &mut core.all,
        &mut locus,
        &mut other,
        &mut core.store,
        &mut core.notes,
        &mut core.blob,
        gate,
    )
}

/// The look where the locus, the atlas and another are lent.
fn look_by_three<D: Disk, B: Bond<Cell> + Run<Entry>, R: Wait, S: Supplier, P: Policy>(
    rt: &R,
    core: &mut LentCore<D, B>,
    locks: &[Mutex<LockedCell<B>>],
    me: Entity,
    other: Entity,
    gate: &Gate<S, P>,
) -> Option<Result<Looked, Stopped>>
    requires keeps { S.keeps gate.now.supply }
    requires wishes { P.keeps gate.now.policy }
    requires locks { length locks.now ≡ 64 }
    requires steady { IsSteady D.Disk (parts_of core.old.store core.old.all core.old.notes) }
    requires clean { D.tells → AreClean (S.word gate.now.supply) (words_on (D.reading core.old.store.disk)) core.old.all }
    ensures none { result ≡ None → parts_of core.new.store core.new.all core.new.notes ≡ parts_of core.old.store core.old.all core.old.notes }
    ensures looks { IfSome result (LooksAsSerial D.Disk (S.word gate.now.supply) (P.wish gate.now.policy) me (parts_of core.old.store core.old.all core.old.notes) (parts_of core.new.store core.new.all core.new.notes)) }
{
    if me == Entity::ATLAS || other == me || other == Entity::ATLAS {
        return None;
    }
    let Some(mut locus) = lock_at(rt, locks, me) else {
        return None;
    };
    let mut atlas = locks[0].lock(rt);
    let mut other = locks[other.number() as usize].lock(rt);
    look_three(
        &mut core.all,
        &mut locus,
        &mut atlas,
        &mut other,
        &mut core.store,
        &mut core.notes,
        &mut core.blob,
        gate,
    )
}

/// The look where all are lent.
fn look_by_all<D: Disk, B: Bond<Cell> + Run<Entry>, R: Wait, S: Supplier, P: Policy>(
    rt: &R,
    alloc: Global,
    core: &mut LentCore<D, B>,
    locks: &[Mutex<LockedCell<B>>],
    me: Entity,
    gate: &Gate<S, P>,
) -> Option<Result<Looked, Stopped>>
    requires keeps { S.keeps gate.now.supply }
    requires wishes { P.keeps gate.now.policy }
    requires locks { length locks.now ≡ 64 }
    requires steady { IsSteady D.Disk (parts_of core.old.store core.old.all core.old.notes) }
    requires clean { D.tells → AreClean (S.word gate.now.supply) (words_on (D.reading core.old.store.disk)) core.old.all }
    ensures none { result ≡ None → parts_of core.new.store core.new.all core.new.notes ≡ parts_of core.old.store core.old.all core.old.notes }
    ensures looks { IfSome result (LooksAsSerial D.Disk (S.word gate.now.supply) (P.wish gate.now.policy) me (parts_of core.old.store core.old.all core.old.notes) (parts_of core.new.store core.new.all core.new.notes)) }
{
    let Ok(mut cells) = lend_all(rt, alloc, locks) else {
        return None;
    };
    look_all(
        &mut core.all,
        &mut cells,
        me,
        &mut core.store,
        &mut core.notes,
        &mut core.blob,
        gate,
    )
}

/// The look, for which those cells are lent that its step wants; none, and nothing done, where a cell doesn't lie under the lock of its
/// number, or where there is no memory for 64 guards. All locks that were taken are given back.
pub(crate) fn look_under_locks<
    D: Disk,
    B: Bond<Cell> + Run<Entry>,
    R: Wait,
    S: Supplier,
    P: Policy,
>(
    rt: &R,
    alloc: Global,
    core: &mut LentCore<D, B>,
    locks: &[Mutex<LockedCell<B>>],
    me: Entity,
    gate: &Gate<S, P>,
) -> Option<Result<Looked, Stopped>>
    requires keeps { S.keeps gate.now.supply }
    requires wishes { P.keeps gate.now.policy }
    requires locks { length locks.now ≡ 64 }
    requires steady { IsSteady D.Disk (parts_of core.old.store core.old.all core.old.notes) }
    requires clean { D.tells → AreClean (S.word gate.now.supply) (words_on (D.reading core.old.store.disk)) core.old.all }
    ensures none { result ≡ None → parts_of core.new.store core.new.all core.new.notes ≡ parts_of core.old.store core.old.all core.old.notes }
    ensures looks { IfSome result (LooksAsSerial D.Disk (S.word gate.now.supply) (P.wish gate.now.policy) me (parts_of core.old.store core.old.all core.old.notes) (parts_of core.new.store core.new.all core.new.notes)) }
{
    match lending_at(rt, &mut core.all, locks, me) {
        Lending::Alone => look_by_one(rt, core, locks, me, gate),
        Lending::Beside(other) => look_by_two(rt, core, locks, me, other, gate),
        Lending::WithAtlas(other) => look_by_three(rt, core, locks, me, other, gate),
        Lending::All => look_by_all(rt, alloc, core, locks, me, gate),
    }
}
