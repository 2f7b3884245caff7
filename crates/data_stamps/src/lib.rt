//! Vector clocks over the entities (Fidge 1988, Mattern 1989): per entity, the version on which a state rests.
#![tactic(auto)]

ghost use Rattle.std.specs.Prelude.{◌≡◌, ◌≢◌, ℕ, ◌+◌, ◌^◌, ◌<◌, ◌≤◌, ◌↔◌, IsTrue, max, slice_index};
ghost use Rattle.data_stamps.specs.Stamps.{component, IsLeastUpperBound};

use base_types::Entity;

/// Per entity, the latest version of it on which a state rests, and 0 for none.
#[derive(Clone, Copy, PartialEq, Eq, Debug)]
pub struct Stamp(pub [u64; 64]);

impl Stamp {
    /// The stamp of a state that rests on nothing.
    pub fn new() -> Stamp
        ensures { (y : ℕ) → component result y ≡ 0 }
    {
        Stamp([0; 64])
    }

    /// The version of the entity that the stamp tells.
    pub fn at(&self, entity: Entity) -> u64
        ensures { result ≡ component self.now entity }
    {
        self.0[entity.number() as usize]
    }

    /// Takes in the other stamp: what rests on both states has this one.
    pub fn meet(&mut self, other: &Stamp)
        ensures greater { (y : ℕ) → component self.new y ≡ max (component self.old y) (component other.now y) }
        ensures least { IsLeastUpperBound (component self.new) (component self.old) (component other.now) }
    {
        for (i, mine) in self.0.iter_mut().enumerate() {
            *mine = (*mine).max(other.0[i]);
        }
    }

    /// Counts one more version of the entity.
    pub fn tick(&mut self, entity: Entity)
        requires { component self.old entity < 2 ^ 63 }
        ensures ticked { component self.new entity ≡ component self.old entity + 1 }
        ensures others { (y : ℕ) → y ≢ entity → component self.new y ≡ component self.old y }
    {
        self.0[entity.number() as usize] += 1;
    }

    /// Tells at least this version of the entity.
    pub fn raise(&mut self, entity: Entity, version: u64)
        ensures raised { component self.new entity ≡ max (component self.old entity) version }
        ensures others { (y : ℕ) → y ≢ entity → component self.new y ≡ component self.old y }
    {
        let place = entity.number() as usize;
        self.0[place] = self.0[place].max(version);
    }

    /// Whether the stamp tells at least these versions.
    pub fn covers(&self, versions: &[u64; 64]) -> bool
        ensures { IsTrue result ↔ ((y : ℕ) → slice_index versions.now y ≤ component self.now y) }
    {
        self.0
            .iter()
            .zip(versions)
            .all(|(mine, theirs)| theirs <= mine)
    }
}

impl Default for Stamp {
    ghost is_default = { λ s. (y : ℕ) → component s y ≡ 0 };

    fn default() -> Stamp {
        Stamp::new()
    }
}
