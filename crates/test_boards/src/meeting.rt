//! A gate at which two steps meet: one holds its locks until the other was made and answered.
use base_types::Entity;
use std::sync::{Mutex, Wait};
use thread_workers::StepGate;

/// What can be seen at the gate.
#[derive(Clone, Copy, PartialEq, Eq, Debug)]
enum Sign {
    /// A step that touches container 1 holds its locks.
    Entered,
    /// A look at locus 42 was answered.
    Answered,
}

/// What was seen, and whether one waited in vain.
#[derive(Drop)]
struct Seen {
    entered: bool,
    answered: bool,
    late: bool,
}

/// A gate: a step that touches container 1 waits, while it holds its locks, until a look at locus 42 was answered; and one that touches container 2
/// waits until such a step waits.
#[derive(Drop)]
pub(crate) struct Meeting {
    seen: Mutex<Seen>,
}

impl Seen {
    fn has(&self, sign: Sign) -> bool {
        match sign {
            Sign::Entered => self.entered,
            Sign::Answered => self.answered,
        }
    }

    fn note(&mut self, sign: Sign) {
        match sign {
            Sign::Entered => self.entered = true,
            Sign::Answered => self.answered = true,
        }
    }
}

impl Meeting {
    pub(crate) fn new() -> Meeting {
        Meeting {
            seen: Mutex::new(Seen {
                entered: false,
                answered: false,
                late: false,
            }),
        }
    }

    /// Whether one waited in vain.
    pub(crate) fn was_late<R: Wait>(&self, rt: &R) -> bool {
        self.seen.lock(rt).late
    }

    fn note<R: Wait>(&self, rt: &R, sign: Sign) {
        self.seen.lock(rt).note(sign);
    }

    /// Waits until this is seen, for at most 10,000,000 turns, at each of which the lock is taken and given back.
    fn wait_for<R: Wait>(&self, rt: &R, sign: Sign) {
        for _ in 0..10_000_000_u32 {
            if self.seen.lock(rt).has(sign) {
                return;
            }
        }
        self.seen.lock(rt).late = true;
    }
}

impl StepGate for Meeting {
    fn within<R: Wait>(&self, rt: &R, _worker: u32, entity: Entity) {
        match entity.number() {
            1 => {
                self.note(rt, Sign::Entered);
                self.wait_for(rt, Sign::Answered);
            }
            2 => self.wait_for(rt, Sign::Entered),
            _ => {}
        }
    }

    fn answered<R: Wait>(&self, rt: &R, _worker: u32, locus: Entity) {
        if locus.number() == 42 {
            self.note(rt, Sign::Answered);
        }
    }
}
