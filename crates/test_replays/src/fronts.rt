//! What an image may mean: the greatest closed choice over the first commits of a history, for so many of them.
ghost use Rattle.script_types.specs.Rules.{IsScript};
ghost use Rattle.script_types.specs.Scripts.{tables_of};

use crate::choices::greatest_choice;
use crate::replays::part_of;
use crate::shows::{facts_of, shown};
use base_types::{Cut, Entry, Rec};
use edge_disk::MemoryDisk;
use image_reading::ImageFacts;
use script_types::Script;
use std::alloc::Global;
use std::test::Fail;

/// A choice, and what is shown of its state.
#[derive(Drop)]
pub struct Front {
    cut: Cut,
    shown: String,
}

impl Front {
    /// Whether this is what is shown of its state.
    pub fn shows(&self, text: &str) -> bool {
        self.shown.as_str() == text
    }

    /// Whether it takes the same records as another one.
    pub fn is_as(&self, other: &Front) -> bool {
        self.cut == other.cut
    }
}

/// That of the first commits of a history.
pub fn front_of(
    alloc: Global,
    script: &Script,
    history: &[Entry],
    recs: &[Rec],
) -> Result<Front, Fail>
    requires script { IsScript (tables_of script.now) }
{
    let cut = greatest_choice(recs);
    let part = part_of(alloc, script, history, &cut)?;
    Ok(Front {
        cut,
        shown: part.shown(alloc)?,
    })
}

/// Those of so many commits and more, up to all.
pub fn fronts_from(
    alloc: Global,
    script: &Script,
    history: &[Entry],
    recs: &[Rec],
    least: usize,
) -> Result<Vec<Front>, Fail>
    requires script { IsScript (tables_of script.now) }
{
    let mut fronts = Vec::new(alloc);
    for len in least..=recs.len() {
        fronts.push(front_of(alloc, script, history, &recs[..len])?)?;
    }
    Ok(fronts)
}

// Whether one of the records has this entity, version and stamp.
fn is_among(rec: &Rec, recs: &[Rec]) -> bool {
    for other in recs {
        let same = rec.entity == other.entity && rec.version == other.version;
        if same && rec.stamp == other.stamp {
            return true;
        }
    }
    false
}

// Whether each record of the log is one of these.
fn are_among(facts: &ImageFacts, recs: &[Rec]) -> bool {
    for rec in &facts.log.recs {
        if !is_among(rec, recs) {
            return false;
        }
    }
    true
}

// Whether the image has one of these choices, and shows its state.
fn is_one_of(facts: &ImageFacts, shown: &str, fronts: &[Front]) -> bool {
    for front in fronts {
        if front.cut == facts.cut && front.shown.as_str() == shown {
            return true;
        }
    }
    false
}

/// The image means one of these, and its records are among those.
pub fn means_one_of(
    alloc: Global,
    disk: &mut MemoryDisk,
    fronts: &[Front],
    recs: &[Rec],
) -> Result<(), Fail> {
    let facts = facts_of(alloc, disk)?;
    let shown = shown(alloc, &facts)?;
    if !is_one_of(&facts, shown.as_str(), fronts) {
        return Err(Fail::from("the image means another state"));
    }
    if !are_among(&facts, recs) {
        return Err(Fail::from("the image has another record"));
    }
    Ok(())
}
