ghost use Rattle.std.specs.Prelude.{◌≡◌, ◌<◌, ◌≤◌, ◌↔◌, IsNone, IfSome};

use std::marker::Model;

/// The number of an entity, below 64: the atlas is 0, containers are 1 to 40, loci 41 to 63.
#[derive(Clone, Copy, PartialEq, Eq, PartialOrd, Ord, Hash, Debug)]
pub struct Entity(u8);

impl Model for Entity {
    ghost use Rattle.std.specs.Prelude.{ℕ, ◌<◌};

    ghost Value = { ℕ };

    ghost view = { λ e. e.0 };

    ghost invariant = { λ e. e.0 < 64 };

    ghost inverse = { λ n. record { 0 = n } };
}

impl Entity {
    ghost use Rattle.base_types.specs.Kinds.{kind_of};

    /// The atlas, which is born from the start.
    pub const ATLAS: Entity = Entity(0);

    pub fn new(n: u8) -> Option<Entity>
        ensures made { IfSome result (λ e. e ≡ n) }
        ensures none { IsNone result ↔ (64 ≤ n) }
    {
        if n < 64 { Some(Entity(n)) } else { None }
    }

    /// The entity of a number that is known to be below 64.
    pub fn of(number: u8) -> Entity
        requires { number < 64 }
        ensures { result ≡ number }
    {
        Entity(number)
    }

    pub fn number(self) -> u8
        ensures number { result ≡ self }
        ensures small { result < 64 }
    {
        self.0
    }

    pub fn kind(self) -> Kind
        ensures { result ≡ kind_of self }
    {
        match self.0 {
            0 => Kind::Atlas,
            1..=40 => Kind::Container,
            _ => Kind::Locus,
        }
    }
}

/// What an entity is, by its number.
#[derive(Clone, Copy, PartialEq, Eq, Hash, Debug)]
pub enum Kind {
    /// The directory of names, of which there is one.
    Atlas,
    /// Storage.
    Container,
    /// Execution.
    Locus,
}
