// Wishes for snapshots.
ghost use Rattle.std.specs.Prelude.{◌≡◌, ◌≤◌, ◌<◌, ◌-◌, ◌||◌, ℕ, List, Option, if◌then◌else◌, true};
ghost use Rattle.cell_clocks.specs.model_kernel.Histories.{after_step, asked_by, every_of, has_wish, writes, Run};
ghost use Rattle.cell_clocks.specs.model_kernel.State.{KernelState, LocusState, Supply};
ghost use Rattle.act_calls.specs.model_acts.Views.{is_number};
ghost use Rattle.cell_states.specs.Cells.{part_of, HasCell};
ghost use Rattle.cell_states.specs.Wishes.{HasWish, is_open};

use crate::cells::{Cell, Part, Storage, Wish};
use base_types::{Entity, Entry};
use edge_managers::{Gate, Policy, Supplier};

/// The interval of the part's manager, 1 for the atlas and 0 for what isn't born.
fn every(part: &Part) -> u32
    ensures { (s : Supply) → (words : ℕ → List ℕ) → result ≡ every_of (part_of s words part.now) }
{
    match part {
        Part::Atlas(_) => 1,
        Part::Container(
            Storage {
                head: Some(head),
                ..
            },
        ) => head.every,
        Part::Container(Storage { head: None, .. }) => 0,
        Part::Locus(Some(locus)) => locus.every,
        Part::Locus(None) => 0,
    }
}

/// Whether the entry writes the entity.
fn is_written(entry: &Entry, entity: Entity) -> bool
    ensures { result ≡ writes entry.now entity }
{
    entry
        .touched
        .as_slice()
        .iter()
        .any(|t| t.entity == entity && t.wrote)
}

/// Whether this is the entity that a snap named.
fn is_named(asked: Option<Entity>, entity: Entity) -> bool
    ensures { result ≡ is_number entity asked }
{
    match asked {
        Some(named) => named == entity,
        None => false,
    }
}

/// The wish after a step.
fn noted(wish: &Wish, written: bool, named: bool) -> Wish
    ensures { result ≡ record { by_step = written || wish.now.by_step; asked = named || wish.now.asked; newest = wish.now.newest } }
{
    Wish {
        by_step: written || wish.by_step,
        asked: named || wish.asked,
        newest: wish.newest,
    }
}

/// The steps left after a step, of this locus or another.
fn left_after(left: u32, stepped: bool) -> u32
    requires { stepped ≡ true → 0 < left }
    ensures { result ≡ (if stepped then left - 1 else left) }
{
    if stepped { left - 1 } else { left }
}

impl Cell {
    /// Whether a record of the entity is wished: its last writer is a step and the policy says so, or a snap named it.
    pub fn is_wished<S: Supplier, P: Policy>(&self, gate: &Gate<S, P>) -> bool
        requires keeps { P.keeps gate.now.policy }
        requires newest { self.now.wish.newest ≤ self.now.clock.version }
        ensures open { (s : Supply) → (words : ℕ → List ℕ)
            → result ≡ is_open (P.wish gate.now.policy) (part_of s words self.now.part) self.now.clock.version self.now.wish }
        ensures run { (s : Supply) → (words : ℕ → List ℕ) → (steps : ℕ) → (r : Run) → HasCell s words r.state self.now → HasWish steps r self.now
            → result ≡ has_wish (P.wish gate.now.policy) r self.now.clock.entity }
    {
        if self.wish.asked {
            return true;
        }
        let since = self.clock.version - self.wish.newest;
        let every = every(&self.part);
        self.wish.by_step && gate.wishes(every, since)
    }

    /// Takes in a step that touched the entity, as its entry tells it: a written one was last written by a step, one that
    /// a snap named is asked for, and the locus that stepped has one step less left.
    pub fn note_step(&mut self, entry: &Entry, asked: Option<Entity>)
        requires left { self.old.clock.entity ≡ entry.now.actor → 0 < self.old.left }
        ensures clock { self.new.clock ≡ self.old.clock }
        ensures part { self.new.part ≡ self.old.part }
        ensures newest { self.new.wish.newest ≡ self.old.wish.newest }
        ensures run { (steps : ℕ) → (r : Run) → (l : Option LocusState) → (v : KernelState) → asked_by entry.now.answer l ≡ asked
            → HasWish steps r self.old → HasWish steps (after_step r entry.now l v) self.new }
    {
        let me = self.clock.entity;
        self.wish = noted(&self.wish, is_written(entry, me), is_named(asked, me));
        self.left = left_after(self.left, entry.actor == me);
    }
}
