// Which locks a step wants.
ghost use Rattle.std.specs.Prelude.{◌≡◌, ◌<◌};

use base_types::{Condition, Entity, FIRST_LOCUS, Instr, Kind, MOST_CONTAINERS, MOST_LOCI};
use edge_disk::Disk;
use kernel_core_facts::{Cell, Part};
use table_laws::{Plan, Reach};
use thread_locks::{Board, SightedCell};

/// Which locks a step wants besides the locus's, as far as its plan tells.
#[derive(Clone, Copy, PartialEq, Eq, Debug)]
pub(crate) enum Wants {
    /// None: the locus can't step.
    Nothing,
    /// None: its step touches it alone.
    Alone,
    /// That of one entity.
    Beside(Entity),
    /// The atlas's and that of one entity.
    Mapping(Entity),
    /// The atlas's and that of the container that is made.
    Make,
    /// The atlas's and that of the locus that is spawned, whose number is known only under the atlas's lock.
    Spawn,
    /// All, for a Stable.
    All,
}

/// What an act wants that reaches so far.
fn wants_of(reach: Reach) -> Wants {
    match reach {
        Reach::Alone(_) => Wants::Alone,
        Reach::Beside(entity) | Reach::Look(entity) => Wants::Beside(entity),
        Reach::Mapping(entity) => Wants::Mapping(entity),
        Reach::Make => Wants::Make,
        Reach::Spawn => Wants::Spawn,
    }
}

/// What a plan wants.
fn wants_by(plan: Plan) -> Wants {
    if matches!(plan.instr, Instr::Stabilise(_)) {
        return Wants::All;
    }
    wants_of(plan.reach)
}

/// Whether a step by this instruction touches its locus alone, whatever stands in the registers.
fn is_alone(instr: Instr) -> bool {
    matches!(
        instr,
        Instr::Set(..)
            | Instr::Copy(..)
            | Instr::Add(..)
            | Instr::Sub(..)
            | Instr::Jump(_)
            | Instr::Jz(..)
            | Instr::Print(_)
            | Instr::Halt
    )
}

/// Whether a locus has a step whose instruction alone tells that it touches no other entity, so that no plan is needed for its locks.
fn is_plain(cell: &Cell) -> bool {
    match &cell.part {
        Part::Locus(Some(locus)) => {
            if cell.left == 0 || locus.condition != Condition::Running {
                return false;
            }
            match locus.code.as_slice().get(locus.place as usize) {
                Some(instr) => is_alone(*instr),
                None => false,
            }
        }
        _ => false,
    }
}

/// What the next step of a cell's locus wants.
pub(crate) fn wants_at<D: Disk, B: Board<D>>(cell: &SightedCell<D, B>) -> Wants {
    if is_plain(&cell.locked.cell) {
        return Wants::Alone;
    }
    match cell.plan() {
        Ok(plan) => wants_by(plan),
        Err(_) => Wants::Nothing,
    }
}

/// The number that an entity of this kind gets which is born next, by the cell of the atlas; none where all are taken.
pub(crate) fn next_born(cell: &Cell, kind: Kind) -> Option<Entity> {
    let (first, most) = match kind {
        Kind::Locus => (FIRST_LOCUS, MOST_LOCI),
        _ => (1, MOST_CONTAINERS),
    };
    match &cell.part {
        Part::Atlas(atlas) => {
            let born = atlas.named(kind);
            if (born as usize) < most {
                Entity::new(born + first)
            } else {
                None
            }
        }
        _ => None,
    }
}

/// Whether the lock of an entity is to be taken before that of another: those of loci come first, then the atlas's, then those of containers, each
/// in ascending number.
pub(crate) fn is_before(one: Entity, other: Entity) -> bool {
    (one.number() + 23) % 64 < (other.number() + 23) % 64
}
