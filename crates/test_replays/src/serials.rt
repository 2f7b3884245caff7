//! The whole serial history of a script from the empty image on: births, steps and Stables by the plain kernel, and behind each step the
//! Snaps of the wishes that are open.
ghost use Rattle.script_types.specs.Rules.{IsScript};
ghost use Rattle.script_types.specs.Scripts.{tables_of};

use crate::choices::greatest_choice;
use crate::clocks::{Clocks, Commits, commit_behind, newest};
use base_types::{Answer, Entity, Entry, Event, FIRST_LOCUS, Kind, Rec, Touched};
use edge_managers::{CountedWords, EveryVersions, Policy, Supplier};
use plain_runs::{has_no_snaps, play};
use script_types::Script;
use std::alloc::Global;
use std::test::Fail;

// After how many versions an entity is wished, which the script gives birth to from nothing.
fn every_of(script: &Script, entity: Entity) -> u32 {
    let number = usize::from(entity.number());
    match entity.kind() {
        Kind::Atlas => 1,
        Kind::Container => match script.containers.get(number.saturating_sub(1)) {
            Some(table) => table.every,
            None => 0,
        },
        Kind::Locus => match script.loci.get(number.saturating_sub(FIRST_LOCUS as usize)) {
            Some(table) => table.every,
            None => 0,
        },
    }
}

// Whether four records of the entity or more are at or above the cut.
fn is_full(recs: &[Rec], entity: Entity) -> bool {
    let cut = greatest_choice(recs);
    let least = cut.0[entity.number() as usize];
    let kept = recs
        .iter()
        .filter(|rec| rec.entity == entity && least <= rec.version)
        .count();
    kept >= 4
}

// A history that is being made, with its clocks and its commits.
#[derive(Drop)]
struct Making {
    clocks: Clocks,
    commits: Commits,
    history: Vec<Entry>,
}

impl Making {
    // Whether a wish of the entity is open, behind a step that wrote it.
    fn is_wished(&self, script: &Script, entity: Entity) -> bool {
        let recorded = newest(&self.commits.recs, entity);
        let since = self.clocks.version_of(entity).saturating_sub(recorded);
        EveryVersions.wish(every_of(script, entity), since)
    }

    // Whether the entity is snapped behind a step that wrote it.
    fn is_due(&self, script: &Script, entity: Entity) -> bool {
        self.is_wished(script, entity) && !is_full(&self.commits.recs, entity)
    }

    // The Snap of the entity as it is now.
    fn snap_of(&self, entity: Entity) -> Entry {
        Entry {
            event: Event::Snap,
            actor: entity,
            touched: Touched::none(),
            version: self.clocks.version_of(entity),
            answer: Answer::Quiet,
        }
    }

    // One entry more.
    fn append(&mut self, entry: Entry) -> Result<(), Fail> {
        self.clocks.follow(&entry);
        commit_behind(&self.clocks, &entry, &mut self.commits)?;
        self.history.push(entry)?;
        Ok(())
    }

    // The Snaps behind a step that owes no Stable.
    fn snap_written(&mut self, script: &Script, step: &Entry) -> Result<(), Fail> {
        for touch in step.touched.as_slice() {
            let entity = touch.entity;
            if touch.wrote && self.is_due(script, entity) {
                let snap = self.snap_of(entity);
                self.append(snap)?;
            }
        }
        Ok(())
    }
}

// Whether an entry with that one behind it, if there is one, is a step that owes no Stable.
fn is_looked_at(entry: &Entry, next: Option<&Entry>) -> bool {
    let owes = match next {
        Some(next) => next.event == Event::Stable,
        None => false,
    };
    entry.event == Event::Step && !owes
}

/// The serial history of a script from the empty image on, if its code has no `snap` and makes no locus.
pub fn serial_history(alloc: Global, script: &Script) -> Result<Vec<Entry>, Fail>
    requires script { IsScript (tables_of script.now) }
{
    if !has_no_snaps(script) {
        return Err(Fail::from("code without snap"));
    }
    let words = |tag, page, place| CountedWords.word(tag, page, place);
    let played = play(alloc, script, &words);
    if !played.whole {
        return Err(Fail::from("memory"));
    }
    let mut making = Making {
        clocks: Clocks::new(alloc)?,
        commits: Commits::new(alloc),
        history: Vec::new(alloc),
    };
    for (place, entry) in played.history.iter().enumerate() {
        making.append(*entry)?;
        if is_looked_at(entry, played.history.get(place + 1)) {
            making.snap_written(script, entry)?;
        }
    }
    Ok(making.history)
}
