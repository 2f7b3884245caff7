// Which cells a step wants.
ghost use Rattle.std.specs.Prelude.{◌≡◌, length};
ghost use Rattle.thread_stables.specs.kernel_core_facts.table_laws.Steps.{IsInOrder};

use base_types::{Entity, Entry, FIRST_LOCUS, Instr, Kind, MOST_CONTAINERS, MOST_LOCI};
use std::sync::{Mutex, Wait};
use table_laws::{Plan, Reach};
use thread_cells::LockedCell;
use thread_history::Run;
use thread_stables::{Cell, Part, plan_lent};
use thread_ties::{Authority, Bond};

/// Which cells are to be lent for a step, besides the locus's own.
#[derive(Clone, Copy, Debug)]
pub(crate) enum Lending {
    /// None.
    Alone,
    /// One, which may be the atlas.
    Beside(Entity),
    /// The atlas and another.
    WithAtlas(Entity),
    /// All, for a Stable.
    All,
}

/// The number of the container that is made next, by the cell of the atlas; none where all are taken.
fn next_container(cell: &Cell) -> Option<Entity> {
    match &cell.part {
        Part::Atlas(atlas) => {
            let born = atlas.named(Kind::Container);
            if (born as usize) < MOST_CONTAINERS {
                Some(Entity::of(born + 1))
            } else {
                None
            }
        }
        _ => None,
    }
}

/// The number of the locus that is spawned next, by the cell of the atlas; none where all are taken.
fn next_locus(cell: &Cell) -> Option<Entity> {
    match &cell.part {
        Part::Atlas(atlas) => {
            let born = atlas.named(Kind::Locus);
            if (born as usize) < MOST_LOCI {
                Some(Entity::of(born + FIRST_LOCUS))
            } else {
                None
            }
        }
        _ => None,
    }
}

/// The atlas, and the entity that is named next where one is free.
fn beside_atlas(next: Option<Entity>) -> Lending {
    match next {
        Some(entity) => Lending::WithAtlas(entity),
        None => Lending::Beside(Entity::ATLAS),
    }
}

/// Which cells a birth of this kind wants.
fn lending_born<R: Wait, B: Bond<Cell> + Run<Entry>>(
    rt: &R,
    locks: &[Mutex<LockedCell<B>>],
    kind: Kind,
) -> Lending
    requires locks { length locks.now ≡ 64 }
{
    let atlas = locks[0].lock(rt);
    match kind {
        Kind::Container => beside_atlas(next_container(&atlas.cell)),
        _ => beside_atlas(next_locus(&atlas.cell)),
    }
}

/// Which cells an act wants that reaches so far.
fn lending_for<R: Wait, B: Bond<Cell> + Run<Entry>>(
    rt: &R,
    locks: &[Mutex<LockedCell<B>>],
    reach: Reach,
) -> Lending
    requires locks { length locks.now ≡ 64 }
{
    match reach {
        Reach::Alone(_) => Lending::Alone,
        Reach::Beside(entity) | Reach::Look(entity) => Lending::Beside(entity),
        Reach::Mapping(entity) => Lending::WithAtlas(entity),
        Reach::Make => lending_born(rt, locks, Kind::Container),
        Reach::Spawn => lending_born(rt, locks, Kind::Locus),
    }
}

/// Which cells a plan wants.
fn lending_of<R: Wait, B: Bond<Cell> + Run<Entry>>(
    rt: &R,
    locks: &[Mutex<LockedCell<B>>],
    plan: Plan,
) -> Lending
    requires locks { length locks.now ≡ 64 }
{
    if matches!(plan.instr, Instr::Stabilise(_)) {
        return Lending::All;
    }
    lending_for(rt, locks, plan.reach)
}

/// Which cells the next step of a locus wants. All locks that were taken are given back.
pub(crate) fn lending_at<R: Wait, B: Bond<Cell> + Run<Entry>>(
    rt: &R,
    all: &mut Authority<Cell, B>,
    locks: &[Mutex<LockedCell<B>>],
    me: Entity,
) -> Lending
    requires locks { length locks.now ≡ 64 }
    requires order { IsInOrder all.old }
    ensures { all.new ≡ all.old }
{
    let mut locus = locks[me.number() as usize].lock(rt);
    let plan = plan_lent(all, &mut locus);
    drop(locus);
    match plan {
        Ok(plan) => lending_of(rt, locks, plan),
        Err(_) => Lending::Alone,
    }
}
