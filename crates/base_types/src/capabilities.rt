ghost use Rattle.std.specs.Prelude.{◌≡◌, ◌<◌};
ghost use Rattle.base_types.specs.Rights.{bit_of, has_right, missing_right};

use crate::entities::Entity;
use bitflags::{Flag, Flags, bitflag_items};

/// What a capability allows.
#[derive(Clone, Copy, PartialEq, Eq, Hash, Debug)]
pub enum Right {
    Read,
    Write,
    Invoke,
    Map,
    Copy,
    Snapshot,
    Control,
    Stabilise,
}

impl Right {
    /// All rights, in the order of their bits.
    pub const ALL: [Right; 8] = [
        Right::Read,
        Right::Write,
        Right::Invoke,
        Right::Map,
        Right::Copy,
        Right::Snapshot,
        Right::Control,
        Right::Stabilise,
    ];

    /// The bit that stands for the right in a set, from 0 for Read to 7 for Stabilise.
    pub fn bit(self) -> u8
        ensures bit { result ≡ bit_of self }
        ensures small { result < 8 }
    {
        match self {
            Right::Read => 0,
            Right::Write => 1,
            Right::Invoke => 2,
            Right::Map => 3,
            Right::Copy => 4,
            Right::Snapshot => 5,
            Right::Control => 6,
            Right::Stabilise => 7,
        }
    }
}

/// A set of rights, a bit for each.
#[derive(Clone, Copy, PartialEq, Eq, Hash, Debug)]
pub struct Rights(pub u8);

bitflag_items! {
    impl Rights: u8 {
        const READ = 1;
        const WRITE = 2;
        const INVOKE = 4;
        const MAP = 8;
        const COPY = 16;
        const SNAPSHOT = 32;
        const CONTROL = 64;
        const STABILISE = 128;
    }
}

impl Flags for Rights {
    ghost use Rattle.std.specs.Prelude.{⊤};
    ghost use Rattle.base_types.specs.Rights.{names_of_rights};

    type Bits = u8;

    ghost exact = { ⊤ };

    ghost table = { names_of_rights };

    ghost set_of = { λ rights. rights.0 };

    fn flags<'a>() -> &'a [Flag<Rights>] {
        Rights::FLAGS
    }

    fn bits(&self) -> u8 {
        self.0
    }

    fn from_bits_retain(bits: u8) -> Rights {
        Rights(bits)
    }
}

impl Rights {
    /// Whether the right is in the set.
    pub fn has(self, right: Right) -> bool
        ensures { result ≡ has_right self.0 right }
    {
        self.0 >> right.bit() & 1 == 1
    }

    /// The right of the lowest bit that is needed and not in the set.
    pub fn missing(self, need: Rights) -> Option<Right>
        ensures { result ≡ missing_right self.0 need.0 }
    {
        Right::ALL
            .iter()
            .copied()
            .find(|right| need.has(*right) && !self.has(*right))
    }
}

/// A capability: it names one entity, and carries rights on it.
#[derive(Clone, Copy, PartialEq, Eq, Hash, Debug)]
pub struct Cap {
    pub entity: Entity,
    pub rights: Rights,
}

/// A region of a container: pages `at` to `at + count - 1` show the pages of `target` from `from` on.
#[derive(Clone, Copy, PartialEq, Eq, Hash, Debug)]
pub struct Region {
    pub at: u8,
    pub count: u16,
    pub target: Entity,
    pub from: u8,
    pub rights: Rights,
}

impl Default for Region {
    /// The region of no pages, which stands in the unused places of a list.
    fn default() -> Region {
        Region {
            at: 0,
            count: 0,
            target: Entity::ATLAS,
            from: 0,
            rights: Rights(0),
        }
    }
}

/// A private region of a locus, which counts while the locus is in the container where it was made.
#[derive(Clone, Copy, PartialEq, Eq, Hash, Debug)]
pub struct Private {
    pub made: Entity,
    pub region: Region,
}
