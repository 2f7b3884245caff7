//! Plain states on which the events of a history are made again.
ghost use Rattle.std.specs.Prelude.{◌≡◌, true};
ghost use Rattle.plain_states.specs.Born.{AreEdges};
ghost use Rattle.plain_states.specs.Events.{AreFewVersions};
ghost use Rattle.plain_states.specs.Plains.{cells_of};
ghost use Rattle.script_types.specs.model_kernel.Soundness.{IsSound};
ghost use Rattle.script_types.specs.model_kernel.State.{Supply};
ghost use Rattle.edge_managers.specs.Managers.{counted_word};
ghost use Rattle.script_types.specs.Rules.{IsScript};
ghost use Rattle.script_types.specs.Scripts.{tables_of};

use crate::shows::shown_of;
use base_types::{Cut, Entity, Entry, Event};
use edge_managers::{CountedWords, Supplier};
use plain_runs::{against, next_name, plain_step};
use plain_states::{Plain, PlainAtlas, plain_birth};
use script_types::Script;
use std::alloc::{AllocError, Global};
use std::marker::Model;
use std::test::Fail;

/// Nothing but the atlas is born.
fn empty_state(alloc: Global) -> Plain
    ensures sound { (s : Supply) → IsSound (cells_of s result) }
    ensures edges { AreEdges result.atlas.edges.items }
{
    Plain {
        atlas: PlainAtlas {
            containers: Vec::new(alloc),
            loci: Vec::new(alloc),
            edges: Vec::new(alloc),
        },
        containers: Vec::new(alloc),
        loci: Vec::new(alloc),
    }
}

// Whether each version can rise.
fn are_low(versions: &[u64; 64]) -> bool
    ensures { result ≡ true → AreFewVersions versions.now }
{
    versions.iter().all(|v| *v < 1 << 63)
}

// A step of a locus, over a supplier whose words count up from the tag.
fn counted_step(
    state: &mut Plain,
    versions: &mut [u64; 64],
    locus: Entity,
) -> Result<Option<Entry>, AllocError>
    requires sound { IsSound (cells_of counted_word state.old) }
    requires few { AreFewVersions versions.old }
    requires edges { AreEdges state.old.atlas.edges.items }
    ensures sound { IsSound (cells_of counted_word state.new) }
    ensures edges { AreEdges state.new.atlas.edges.items }
{
    let words = |tag, page, place| CountedWords.word(tag, page, place);
    plain_step(state, versions, locus, &words)
}

/// A plain state from which events can be made, with its versions.
#[derive(Drop)]
pub struct Replay {
    pub state: Plain,
    pub versions: [u64; 64],
}

impl Model for Replay {
    ghost use Rattle.std.specs.Prelude.{ℕ, List};
    ghost use Rattle.test_replays.specs.Ready.{IsReady};

    ghost Value = { List ℕ };

    ghost view = { λ r. r.versions };

    ghost invariant = { λ r. IsReady r.state };
}

impl Replay {
    /// Begins with nothing.
    pub fn new(alloc: Global) -> Replay {
        Replay {
            state: empty_state(alloc),
            versions: [0; 64],
        }
    }

    /// The birth of the script's next name, if there is one.
    fn bear(&mut self, alloc: Global, script: &Script) -> Result<Option<Entry>, AllocError>
        requires script { IsScript (tables_of script.now) }
    {
        if !are_low(&self.versions) {
            return Ok(None);
        }
        match against(alloc, script, &self.state.atlas) {
            Ok(()) => {}
            Err(_) => return Ok(None),
        }
        match next_name(script, &self.state.atlas) {
            Some(name) => plain_birth(alloc, &mut self.state, &mut self.versions, script, name),
            None => Ok(None),
        }
    }

    /// A step of a locus, if it can step.
    fn step(&mut self, locus: Entity) -> Result<Option<Entry>, AllocError> {
        if !are_low(&self.versions) {
            return Ok(None);
        }
        counted_step(&mut self.state, &mut self.versions, locus)
    }

    /// The birth or step that stands for an entry.
    pub fn follow(
        &mut self,
        alloc: Global,
        script: &Script,
        entry: &Entry,
    ) -> Result<Option<Entry>, AllocError>
        requires script { IsScript (tables_of script.now) }
    {
        match entry.event {
            Event::Birth => self.bear(alloc, script),
            Event::Step => self.step(entry.actor),
            Event::Snap | Event::Stable | Event::Tried => Ok(None),
        }
    }

    /// What is shown of it.
    pub fn shown(&self, alloc: Global) -> Result<String, Fail> {
        shown_of(alloc, &self.state)
    }
}

/// Whether the entry is a birth or a step.
pub fn is_played(entry: &Entry) -> bool {
    matches!(entry.event, Event::Birth | Event::Step)
}

// Whether all that an entry writes is within a part.
fn is_within(entry: &Entry, cut: &Cut) -> bool {
    for touch in entry.touched.as_slice() {
        if touch.wrote && cut.0[touch.entity.number() as usize] < touch.version {
            return false;
        }
    }
    true
}

/// The state of the part of a history up to a cut. Each birth and step of it is made again as it was.
pub fn part_of(alloc: Global, script: &Script, history: &[Entry], cut: &Cut) -> Result<Replay, Fail>
    requires script { IsScript (tables_of script.now) }
{
    let mut replay = Replay::new(alloc);
    for entry in history {
        if is_played(entry) && is_within(entry, cut) {
            let made = replay.follow(alloc, script, entry)?;
            if made != Some(*entry) {
                return Err(Fail::from("an entry made again is another"));
            }
        }
    }
    Ok(replay)
}
