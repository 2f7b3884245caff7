// What a look came to, as an item of a pass.
ghost use Rattle.std.specs.Prelude.{◌≡◌, slice_get};
ghost use Rattle.thread_items.specs.Places.{came_by, stood};

use base_types::{Entity, Entry};
use std::snapshot::Snapshot;
use thread_board::Placed;
use thread_desk_stables::{Idle, Looked, Stopped};

/// What came of one look at a locus. The entry of a step takes no room here: it stands in the history at the item's place.
#[derive(Drop)]
pub enum Came {
    /// A step was made, with this entry.
    Made(Snapshot<Entry>),
    /// None was: the locus couldn't step.
    Idle(Idle),
    /// The kernel had stopped before, or was stopped at the step, which wasn't made.
    Stopped(Stopped),
    /// The kernel was stopped behind the step with this entry.
    StoppedBehind(Snapshot<Entry>, Stopped),
}

/// An item of a pass: one look at a locus, and what came of it.
#[derive(Drop)]
pub struct LookItem {
    pub locus: Entity,
    /// How many entries the history had before the look. Its step, if it made one, stands behind them.
    pub place: u64,
    pub came: Came,
}

impl Placed for LookItem {
    ghost use Rattle.std.specs.Prelude.{◌+◌};
    ghost use Rattle.thread_items.specs.Places.{steps_in};

    ghost starts = { λ i. i.place };

    ghost ends = { λ i. i.place + steps_in i.came };
}

/// The entry of a step, as an item has it.
fn stood_of(entry: &Entry) -> Snapshot<Entry>
    ensures { result ≡ stood entry.now }
{
    Snapshot::of(entry)
}

/// What came of a look, by what it answered and what the history has at its place.
pub(crate) fn came_of(answer: &Result<Looked, Stopped>, entries: &[Entry], place: usize) -> Came
    ensures { result ≡ came_by answer.now (slice_get entries.now place) }
{
    match answer {
        Ok(Looked::Made(made)) => Came::Made(stood_of(&made.entry)),
        Ok(Looked::Idle(why)) => Came::Idle(*why),
        Err(why) => match entries.get(place) {
            Some(entry) => Came::StoppedBehind(stood_of(entry), *why),
            None => Came::Stopped(*why),
        },
    }
}
