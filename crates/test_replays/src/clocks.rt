//! The clocks of a history's entries and its commits, worked out apart from the kernel.
use base_types::{Entity, Entry, Event, Rec};
use data_stamps::Stamp;
use std::alloc::Global;
use std::test::Fail;

/// The versions and the vector clocks of all entities, from the empty image on, by the entries alone.
#[derive(Drop)]
pub struct Clocks {
    versions: [u64; 64],
    stamps: Vec<Stamp>,
}

impl Clocks {
    pub fn new(alloc: Global) -> Result<Clocks, Fail> {
        let mut stamps = Vec::new(alloc);
        for _entity in 0..64 {
            stamps.push(Stamp::new())?;
        }
        Ok(Clocks {
            versions: [0; 64],
            stamps,
        })
    }

    // The least clock that covers those of all that an entry touches, with its versions.
    fn past_of(&self, entry: &Entry) -> Stamp {
        let mut past = Stamp::new();
        for touch in entry.touched.as_slice() {
            past.meet(&self.stamp_of(touch.entity));
            past.raise(touch.entity, touch.version);
        }
        past
    }

    pub fn version_of(&self, entity: Entity) -> u64 {
        self.versions[entity.number() as usize]
    }

    pub fn stamp_of(&self, entity: Entity) -> Stamp {
        match self.stamps.get(entity.number() as usize) {
            Some(stamp) => *stamp,
            None => Stamp::new(),
        }
    }

    /// Goes on over an entry.
    pub fn follow(&mut self, entry: &Entry) {
        let past = self.past_of(entry);
        for touch in entry.touched.as_slice() {
            let x = touch.entity.number() as usize;
            if touch.wrote && x < self.stamps.len() {
                self.versions[x] = touch.version;
                self.stamps[x] = past;
            }
        }
    }

    // A record of the entity as it is now.
    fn record_of(&self, entity: Entity) -> Rec {
        let stamp = self.stamp_of(entity).0;
        Rec {
            entity,
            version: self.version_of(entity),
            stamp,
            length: 1,
            blocks: [0; 8],
        }
    }
}

/// What a history committed, and how many commits there were behind each entry with a mark.
#[derive(Drop)]
pub struct Commits {
    pub recs: Vec<Rec>,
    pub behind: Vec<usize>,
}

impl Commits {
    /// None so far.
    pub(crate) fn new(alloc: Global) -> Commits {
        Commits {
            recs: Vec::new(alloc),
            behind: Vec::new(alloc),
        }
    }
}

// The newest committed version of an entity.
pub(crate) fn newest(recs: &[Rec], entity: Entity) -> u64 {
    let mut version = 0;
    for rec in recs {
        if rec.entity == entity {
            version = rec.version;
        }
    }
    version
}

// Adds a record of each entity that changed since its newest one.
fn commit_changed(clocks: &Clocks, recs: &mut Vec<Rec>) -> Result<(), Fail> {
    for x in 0..64 {
        let entity = Entity::of(x);
        if newest(recs, entity) < clocks.version_of(entity) {
            recs.push(clocks.record_of(entity))?;
        }
    }
    Ok(())
}

// Adds what an entry commits.
pub(crate) fn commit_behind(
    clocks: &Clocks,
    entry: &Entry,
    commits: &mut Commits,
) -> Result<(), Fail> {
    match entry.event {
        Event::Snap => {
            commits.recs.push(clocks.record_of(entry.actor))?;
            commits.behind.push(commits.recs.len())?;
        }
        Event::Stable => {
            commit_changed(clocks, &mut commits.recs)?;
            commits.behind.push(commits.recs.len())?;
        }
        Event::Tried => commits.recs.push(clocks.record_of(entry.actor))?,
        Event::Birth | Event::Step => {}
    }
    Ok(())
}

/// The commits of a history from the empty image on.
pub fn commits_of(alloc: Global, history: &[Entry]) -> Result<Commits, Fail> {
    let mut clocks = Clocks::new(alloc)?;
    let mut commits = Commits::new(alloc);
    for entry in history {
        clocks.follow(entry);
        commit_behind(&clocks, entry, &mut commits)?;
    }
    Ok(commits)
}
