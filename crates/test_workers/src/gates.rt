// A gate that holds a step of one locus until a step of another was made and answered.
use base_types::Entity;
use std::sync::{Mutex, Wait};
use test_system::StepGate;

/// A gate whose calls return at once, of which it is told that they may wait: so workers take no turns, and contend for the locks of every step.
pub(crate) struct Crowd;

impl StepGate for Crowd {
    fn within<R: Wait>(&self, _rt: &R, _worker: u32, _entity: Entity) {}

    fn answered<R: Wait>(&self, _rt: &R, _worker: u32, _locus: Entity) {}
}

/// How often a step looks whether what it waits for has come.
const MOST_TURNS: u64 = 10_000_000;

/// What has come so far.
#[derive(Drop, Default)]
pub(crate) struct Came {
    /// A step is inside the first container.
    entered: bool,
    /// A look at the second locus was answered.
    answered: bool,
    /// Something that was waited for never came.
    late: bool,
}

/// A gate for two loci that store into a container of their own: the first one's step waits inside its locks until a look at the second locus was answered, and
/// the second one's until the first is inside.
#[derive(Drop)]
pub(crate) struct Overlapping {
    first: Entity,
    second: Entity,
    second_locus: Entity,
    came: Mutex<Came>,
}

impl Overlapping {
    /// The gate of these containers and of the locus in the second.
    pub(crate) fn new(first: Entity, second: Entity, second_locus: Entity) -> Overlapping {
        Overlapping {
            first,
            second,
            second_locus,
            came: Mutex::new(Came {
                entered: false,
                answered: false,
                late: false,
            }),
        }
    }

    /// Whether all came that was waited for: a step of the first locus was held while one of the second was made.
    pub(crate) fn has_overlapped(self) -> bool {
        let came = self.came.into_inner();
        came.entered && came.answered && !came.late
    }

    /// Whether a look at the second locus was answered by now.
    fn was_answered<R: Wait>(&self, rt: &R) -> bool {
        self.came.lock(rt).answered
    }

    /// Whether a step is or was inside the first container.
    fn was_entered<R: Wait>(&self, rt: &R) -> bool {
        self.came.lock(rt).entered
    }

    /// Waits inside the first container.
    fn hold_first<R: Wait>(&self, rt: &R) {
        self.came.lock(rt).entered = true;
        for _ in 0..MOST_TURNS {
            if self.was_answered(rt) {
                return;
            }
        }
        self.came.lock(rt).late = true;
    }

    /// Waits inside the second container.
    fn hold_second<R: Wait>(&self, rt: &R) {
        for _ in 0..MOST_TURNS {
            if self.was_entered(rt) {
                return;
            }
        }
        self.came.lock(rt).late = true;
    }
}

impl StepGate for Overlapping {
    fn within<R: Wait>(&self, rt: &R, _worker: u32, entity: Entity) {
        if entity == self.first {
            self.hold_first(rt);
        }
        if entity == self.second {
            self.hold_second(rt);
        }
    }

    fn answered<R: Wait>(&self, rt: &R, _worker: u32, locus: Entity) {
        if locus == self.second_locus && self.was_entered(rt) {
            self.came.lock(rt).answered = true;
        }
    }
}
