//! What the image may mean behind a run, worked out by the plain kernel from the run's history.
ghost use Rattle.std.specs.Prelude.{◌≤◌};
ghost use Rattle.edge_disk.specs.MemoryDisk.{moments_of};
ghost use Rattle.script_types.specs.Rules.{IsScript};
ghost use Rattle.script_types.specs.Scripts.{tables_of};

use crate::{FORMAT_CALLS, shown};
use base_types::{Entry, Event};
use command_outcomes::Outcome;
use edge_disk::{MemoryDisk, Torn};
use script_types::Script;
use std::alloc::Global;
use std::test::Fail;
use test_replays::{Commits, Front, acknowledged, commits_of, fronts_from};

/// Every way in which a block that was not synced may be torn here.
const TORN: &[Torn] = &[Torn::Old, Torn::New, Torn::Fill(1)];

/// What the image may mean behind a run that came to its end, or that a failing call ended: what all its commits make, the tried one in or out.
pub fn left_by(alloc: Global, script: &Script, history: &[Entry]) -> Result<Vec<Front>, Fail>
    requires script { IsScript (tables_of script.now) }
{
    let recs = commits_of(alloc, history)?.recs;
    let tried = history.iter().any(|entry| entry.event == Event::Tried);
    let least = recs.len().saturating_sub(usize::from(tried));
    fronts_from(alloc, script, history, &recs, least)
}

/// Whether the disk's image shows one of these.
pub fn shows_one_of(alloc: Global, disk: MemoryDisk, fronts: &[Front]) -> Result<bool, Fail> {
    let text = shown(alloc, disk)?;
    Ok(fronts.iter().any(|front| front.shows(text.as_str())))
}

/// Whether the image that a stop at a moment leaves shows one of these, however it is torn.
pub(crate) fn stop_shows_one_of(
    alloc: Global,
    disk: &MemoryDisk,
    moment: u64,
    fronts: &[Front],
) -> Result<bool, Fail>
    requires { moment ≤ moments_of disk.now }
{
    for &torn in TORN {
        if !shows_one_of(alloc, disk.crash(moment, torn)?, fronts)? {
            return Ok(false);
        }
    }
    Ok(true)
}

/// A moment of a run since the `format`, a stop at which leaves an image that shows no state of the first so many commits that hold all that was acknowledged by
/// then, if there is one. The fronts are those of all first commits.
pub fn wrong_stop(
    alloc: Global,
    outcome: &Outcome<MemoryDisk>,
    commits: &Commits,
    fronts: &[Front],
) -> Result<Option<u64>, Fail> {
    let disk = &outcome.disk;
    let end = disk.moments();
    for moment in FORMAT_CALLS..=end {
        let since = moment.saturating_sub(FORMAT_CALLS);
        let least = acknowledged(&commits.behind, &outcome.marks, since);
        let held = &fronts[least.min(fronts.len())..];
        if !stop_shows_one_of(alloc, disk, moment, held)? {
            return Ok(Some(moment));
        }
    }
    Ok(None)
}
