//! The directory of an image: the names of its containers and loci, and the counts of the edges between
//! containers that show regions of each other.
#![tactic(auto)]

ghost use Rattle.std.specs.Prelude.{◌≡◌, ◌≢◌, ◌+◌, ◌-◌, ◌<◌, ◌≤◌, [], length, replicate, Ok, Err, MatchOption, IfErr, OnOk, OnErr, None, codes};
ghost use Rattle.std.specs.Bool.{OnTrue, OnFalse};
ghost use Rattle.std.specs.Option.{ForSome};
ghost use Rattle.std.specs.Option.{option_map};
ghost use Rattle.base_types.specs.Edges.{ClosesCircle};
ghost use Rattle.data_atlas_facts.specs.model_circles.Containers.{IsAmongContainers};
ghost use Rattle.data_atlas_facts.specs.Reached.{FindsCircles, with_edge};
ghost use Rattle.data_atlas_facts.specs.Directory.{edges_of, with_count, name_of, is_born, entity_named, number_born, free_number, given_or_made, with_entity, IsName, IsDirectory, IsBornContainer};

mod names;
mod reached;

use arrayvec::{ArrayString, ArrayVec};
use base_types::{Entity, FIRST_CONTAINER, FIRST_LOCUS, Kind, MOST_CONTAINERS, MOST_LOCI, Reply};
pub use names::{NAME_LENGTH, is_letter, is_name, is_name_byte, made_name};
use names::{Name, name_at, number_of};
pub use reached::SIDE;
use reached::leads;
use std::marker::Model;

/// The directory: names of containers and loci in the order of their numbers, and a count for each pair of
/// containers.
#[derive(Drop, Debug)]
pub struct Atlas {
    containers: ArrayVec<Name, MOST_CONTAINERS>,
    loci: ArrayVec<Name, MOST_LOCI>,
    edges: [[u8; SIDE]; SIDE],
}

impl Model for Atlas {
    ghost use Rattle.data_atlas_facts.specs.Directory.{Directory};

    ghost Value = { Directory };

    ghost use Rattle.data_atlas_facts.specs.model_circles.Containers.{IsAmongContainers};
    ghost use Rattle.data_atlas_facts.specs.Reached.{edges_in};

    ghost view = { λ a. record { containers = a.containers.items; loci = a.loci.items; edges = a.edges } };

    ghost use Rattle.data_atlas_facts.specs.Directory.{IsDirectory};

    ghost invariant = { λ a. IsAmongContainers (edges_in a.edges)
        × IsDirectory (record { containers = a.containers.items; loci = a.loci.items; edges = a.edges }) };
}

fn atlas_name() -> ArrayString<24>
    ensures { result.bytes ≡ codes "atlas" }
{
    let mut name = ArrayString::new();
    name.push_str("atlas");
    name
}

impl Atlas {
    /// A directory in which nothing but the atlas is born.
    pub fn new() -> Atlas
        ensures { result ≡ record { containers = []; loci = []; edges = replicate 41 (replicate 41 0) } }
    {
        Atlas {
            containers: ArrayVec::new(),
            loci: ArrayVec::new(),
            edges: [[0; SIDE]; SIDE],
        }
    }

    /// Whether an edge from `c` to `d` would close a circle: `d` reaches `c` over edges, also over none.
    pub fn closes_circle(&self, c: Entity, d: Entity) -> bool
        requires c_container { IsBornContainer self.now c }
        requires d_container { IsBornContainer self.now d }
        ensures circle { OnTrue result (ClosesCircle (edges_of self.now) c d) }
        ensures open { OnFalse result (ClosesCircle (edges_of self.now) c d → ⊥) }
        ensures inside { IsAmongContainers (edges_of self.now) }
    {
        leads(&self.edges, d.number() as usize, c.number() as usize)
    }

    /// Counts one region more of `d` that `c` shows. Circle where `d` reaches `c` over edges, also over none.
    pub fn link(&mut self, c: Entity, d: Entity) -> Result<(), Reply>
        requires c_container { IsBornContainer self.old c }
        requires d_container { IsBornContainer self.old d }
        requires few { edges_of self.old c d < 255 }
        ensures circle { IfErr result (λ why. (why ≡ Reply.Circle) × ClosesCircle (edges_of self.old) c d) }
        ensures open { OnOk result (ClosesCircle (edges_of self.old) c d → ⊥) }
        ensures ok { OnOk result (self.new ≡ with_count self.old c d (edges_of self.old c d + 1)) }
        ensures edge { OnOk result
            (edges_of self.new ≡ with_edge (edges_of self.old) c d (edges_of self.old c d + 1)) }
        ensures refused { OnErr result (self.new ≡ self.old) }
        ensures inside { IsAmongContainers (edges_of self.new) }
    {
        if self.closes_circle(c, d) {
            return Err(Reply::Circle);
        }
        self.set_count(c, d, self.count(c, d) + 1);
        Ok(())
    }

    /// Sets how many regions of `d` the container `c` shows, also where that closes a circle, or one of them isn't
    /// born.
    pub fn set_count(&mut self, c: Entity, d: Entity, n: u8)
        requires c_container { (1 ≤ c) × (c ≤ MOST_CONTAINERS) }
        requires d_container { (1 ≤ d) × (d ≤ MOST_CONTAINERS) }
        ensures count { self.new ≡ with_count self.old c d n }
        ensures edge { edges_of self.new ≡ with_edge (edges_of self.old) c d n }
        ensures inside { IsAmongContainers (edges_of self.new) }
    {
        let row = &mut self.edges[c.number() as usize];
        row[d.number() as usize] = n;
    }

    /// How many regions of `d` the container `c` shows.
    pub fn count(&self, c: Entity, d: Entity) -> u8
        ensures count { result ≡ edges_of self.now c d }
        ensures inside { IsAmongContainers (edges_of self.now) }
    {
        let c = c.number() as usize;
        let d = d.number() as usize;
        if c < SIDE && d < SIDE {
            self.edges[c][d]
        } else {
            0
        }
    }

    /// Counts one region less of `d` that `c` shows.
    pub fn unlink(&mut self, c: Entity, d: Entity)
        requires { 0 < edges_of self.old c d }
        ensures count { self.new ≡ with_count self.old c d (edges_of self.old c d - 1) }
        ensures edge { edges_of self.new ≡ with_edge (edges_of self.old) c d (edges_of self.old c d - 1) }
        ensures inside { IsAmongContainers (edges_of self.new) }
    {
        self.set_count(c, d, self.count(c, d) - 1);
    }

    /// Gives birth to an entity of the kind under its lowest free number. Without a name it has the made name.
    /// NoNumber where no number is free.
    pub fn birth(&mut self, name: Option<&str>, kind: Kind) -> Result<Entity, Reply>
        requires kind { kind ≢ Kind.Atlas }
        requires name { ForSome name (λ text. IsName text.now × (entity_named self.old text.now ≡ None)) }
        ensures born { MatchOption (free_number self.old kind)
            ((result ≡ Err Reply.NoNumber) × (self.new ≡ self.old))
            (λ n. (result ≡ Ok n)
            × (self.new ≡ with_entity self.old kind (given_or_made (option_map (λ text. text.now) name.entry) n))) }
        ensures edges { self.new.edges ≡ self.old.edges }
    {
        let free = match kind {
            Kind::Container if !self.containers.is_full() => self.containers.len() as u8
                + FIRST_CONTAINER,
            Kind::Locus if !self.loci.is_full() => self.loci.len() as u8 + FIRST_LOCUS,
            _ => return Err(Reply::NoNumber),
        };
        let name = match name {
            Some(text) => Name::new(text),
            None => Name::made(free),
        };
        match kind {
            Kind::Locus => self.loci.push(name),
            _ => self.containers.push(name),
        }
        Ok(Entity::of(free))
    }

    /// The entity with this name, which for `atlas` is the atlas.
    pub fn find(&self, name: &str) -> Option<Entity>
        ensures { result ≡ entity_named self.now name.now }
    {
        if name == "atlas" {
            return Some(Entity::ATLAS);
        }
        if let Some(number) = number_of(name, FIRST_CONTAINER, self.containers.as_slice()) {
            return Some(Entity::of(number));
        }
        match number_of(name, FIRST_LOCUS, self.loci.as_slice()) {
            Some(number) => Some(Entity::of(number)),
            None => None,
        }
    }

    /// The name of the entity, if it is born.
    pub fn name(&self, entity: Entity) -> Option<ArrayString<24>>
        ensures { option_map (λ text. text.bytes) result ≡ name_of self.now entity }
    {
        let number = entity.number() as usize;
        if number == 0 {
            return Some(atlas_name());
        }
        name_at(number, self.containers.as_slice(), self.loci.as_slice())
    }

    /// How many entities of the kind are born. The atlas always is. Each name is a given one or the made one of its
    /// number, and no two entities share a name.
    pub fn named(&self, kind: Kind) -> u8
        ensures number { result ≡ number_born self.now kind }
        ensures containers { length self.now.containers ≤ MOST_CONTAINERS }
        ensures loci { length self.now.loci ≤ MOST_LOCI }
        ensures names { IsDirectory self.now }
    {
        let containers = self.containers.len() as u8;
        let loci = self.loci.len() as u8;
        match kind {
            Kind::Atlas => 1,
            Kind::Container => containers,
            Kind::Locus => loci,
        }
    }

    /// Whether the entity is born. The atlas always is.
    pub fn born(&self, entity: Entity) -> bool
        ensures { result ≡ is_born self.now entity }
    {
        self.name(entity).is_some()
    }
}

/// Over edges between containers a search of 40 steps and more finds each circle, and nothing else.
pub fn circles_are_found()
    ensures { FindsCircles }
{}
