//! How many steps of a history touched what.
use base_types::{Entity, Entry, Event, Kind, Touched};

/// How many steps of each kind a history has.
#[derive(Clone, Copy, PartialEq, Eq, Debug)]
pub(crate) struct Kinds {
    /// That touched the locus alone.
    pub(crate) alone: u32,
    /// That touched one container or locus beside it.
    pub(crate) beside: u32,
    /// Births for which no number was free: these touched the atlas beside it.
    pub(crate) barren: u32,
    /// Regions that were put in or taken out.
    pub(crate) mapping: u32,
    /// Containers that were made.
    pub(crate) make: u32,
    /// Loci that were spawned.
    pub(crate) spawn: u32,
    /// Stables behind steps.
    pub(crate) stables: u32,
}

// One more, but for the last number.
fn count(number: &mut u32) {
    *number = number.wrapping_add(1);
}

// The kind of the entity that was born besides the actor, if one was.
fn born(touched: &Touched, actor: Entity) -> Option<Kind> {
    for touch in touched.as_slice() {
        if touch.version == 1 && touch.wrote && touch.entity != actor {
            return Some(touch.entity.kind());
        }
    }
    None
}

// Whether the first entity that was touched is the atlas.
fn touches_atlas(touched: &Touched) -> bool {
    match touched.as_slice().first() {
        Some(touch) => touch.entity == Entity::ATLAS,
        None => false,
    }
}

impl Kinds {
    pub(crate) fn none() -> Kinds {
        Kinds {
            alone: 0,
            beside: 0,
            barren: 0,
            mapping: 0,
            make: 0,
            spawn: 0,
            stables: 0,
        }
    }

    /// Counts a step.
    fn add_step(&mut self, entry: &Entry) {
        match entry.touched.as_slice().len() {
            1 => count(&mut self.alone),
            2 if touches_atlas(&entry.touched) => count(&mut self.barren),
            2 => count(&mut self.beside),
            _ => match born(&entry.touched, entry.actor) {
                Some(Kind::Container) => count(&mut self.make),
                Some(_) => count(&mut self.spawn),
                None => count(&mut self.mapping),
            },
        }
    }

    /// What the steps of a history are.
    pub(crate) fn of(history: &[Entry]) -> Kinds {
        let mut kinds = Kinds::none();
        for entry in history {
            match entry.event {
                Event::Step => kinds.add_step(entry),
                Event::Stable if entry.actor != Entity::ATLAS => count(&mut kinds.stables),
                _ => {}
            }
        }
        kinds
    }
}

/// How many Snaps of an entity a history has.
pub(crate) fn snaps_of(history: &[Entry], entity: Entity) -> u32 {
    let mut snaps = 0;
    for entry in history {
        if entry.event == Event::Snap && entry.actor == entity {
            count(&mut snaps);
        }
    }
    snaps
}
