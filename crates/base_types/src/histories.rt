ghost use Rattle.std.specs.Prelude.{◌≡◌, ◌<◌, [], ◌∷◌};
ghost use Rattle.base_types.specs.Touches.{IsRising};

use crate::entities::Entity;
use crate::instructions::Reply;
use std::marker::Model;
use std::mem::size_of;

/// What a step answers.
#[derive(Clone, Copy, PartialEq, Eq, Hash, Debug)]
pub enum Answer {
    /// Nothing is told.
    Quiet,
    /// The walk went on to another container.
    Hop,
    Reply(Reply),
    /// A load that was answered Ok, with the word.
    Read(u64),
    Print(u64),
}

/// What an entry of a history records.
#[derive(Clone, Copy, PartialEq, Eq, Hash, Debug)]
pub enum Event {
    Birth,
    Step,
    /// A snapshot record of one entity was completed.
    Snap,
    /// A record of each changed entity was completed.
    Stable,
    /// A record may have been completed or not, as its write or sync failed.
    Tried,
}

/// An entity that an event touched: written, with its version after the event, or read, with its version.
#[derive(Clone, Copy, PartialEq, Eq, Hash, Debug)]
pub struct Touch {
    pub version: u64,
    pub entity: Entity,
    pub wrote: bool,
}

/// The touches of one event: at most three, ascending by number.
#[derive(Clone, Copy, PartialEq, Eq, Hash, Debug)]
pub struct Touched {
    items: [Touch; 3],
    len: u8,
}

impl Model for Touched {
    ghost use Rattle.std.specs.Prelude.{List};
    ghost use Rattle.base_types.specs.declared.histories.Touch.{Touch};

    ghost Value = { List Touch };

    ghost use Rattle.base_types.specs.ThreeTouches.{touches, IsFilled, filled, filled-touches};

    ghost view = { touches };

    ghost invariant = { IsFilled };

    ghost inverse = { filled };

    ghost inverse_ok = { filled-touches };
}

/// What stands in the places that are not used.
const BLANK: Touch = Touch {
    version: 0,
    entity: Entity::ATLAS,
    wrote: false,
};

impl Touched {
    pub fn none() -> Touched
        ensures { result ≡ [] }
    {
        Touched {
            items: [BLANK, BLANK, BLANK],
            len: 0,
        }
    }

    pub fn one(a: Touch) -> Touched
        ensures { result ≡ a ∷ [] }
    {
        Touched {
            items: [a, BLANK, BLANK],
            len: 1,
        }
    }

    pub fn two(a: Touch, b: Touch) -> Touched
        requires { a.entity < b.entity }
        ensures { result ≡ a ∷ b ∷ [] }
    {
        Touched {
            items: [a, b, BLANK],
            len: 2,
        }
    }

    pub fn three(a: Touch, b: Touch, c: Touch) -> Touched
        requires first { a.entity < b.entity }
        requires second { b.entity < c.entity }
        ensures { result ≡ a ∷ b ∷ c ∷ [] }
    {
        Touched {
            items: [a, b, c],
            len: 3,
        }
    }

    pub fn as_slice(&self) -> &[Touch]
        ensures touches { result.now ≡ self.now }
        ensures rising { IsRising result.now }
    {
        &self.items[..self.len as usize]
    }
}

/// One entry of a history. Snap, Stable and Tried entries touch nothing.
#[derive(Clone, Copy, PartialEq, Eq, Hash, Debug)]
pub struct Entry {
    pub event: Event,
    /// The locus that steps, the entity that is born or recorded, or for Stable the locus or the atlas.
    pub actor: Entity,
    pub touched: Touched,
    /// The recorded version for Snap and Tried, and 0 else.
    pub version: u64,
    /// Quiet but for steps.
    pub answer: Answer,
}

// A history of the longest run has to fit memory.
const _: () = prove!(size_of::<Entry>() <= 96);
