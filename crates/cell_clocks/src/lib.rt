//! Versions and vector clocks of the entities that an event touches, and the entry that tells them.
//!
//! A written entity has the next version, and a read one keeps its own. Each written entity gets the clock that joins
//! those of all touched ones, and knows each of them at the version that the entry tells (Fidge, Mattern). A call costs
//! the same whatever the history is: one number where one entity is touched, and else a pass over the 64 numbers of a
//! clock for each further entity.
#![tactic(auto)]

ghost use Rattle.std.specs.Prelude.{◌≡◌, ◌<◌, ◌^◌, ℕ, ◌∷◌, []};
ghost use Rattle.model_kernel.specs.State.{Cell as ModelCell, KernelState};
ghost use Rattle.data_stamps.specs.Stamps.{component};
ghost use Rattle.cell_clocks.specs.Clocks.{HasClock, writing, reading, CarriesOne, CarriesTwo, CarriesThree};

mod joins;

use base_types::{Answer, Entity, Entry, Event, Touch, Touched};
use data_stamps::Stamp;
use joins::{join, raise, read_touch, step_touch};

/// How often an entity was written, and on which versions of the others it rests.
#[derive(Clone, Copy, PartialEq, Eq, Debug)]
pub struct Clock {
    pub entity: Entity,
    pub version: u64,
    pub stamp: Stamp,
}

impl Clock {
    /// The clock of an entity that was never written.
    pub fn new(entity: Entity) -> Clock
        ensures entity { result.entity ≡ entity }
        ensures version { result.version ≡ 0 }
        ensures stamp { (y : ℕ) → component result.stamp y ≡ 0 }
    {
        Clock {
            entity,
            version: 0,
            stamp: Stamp::new(),
        }
    }
}

fn entry(event: Event, actor: Entity, touched: Touched, answer: Answer) -> Entry
    ensures { result ≡ record { event = event; actor = actor; touched = touched; version = 0; answer = answer } }
{
    Entry {
        event,
        actor,
        touched,
        version: 0,
        answer,
    }
}

/// An event that writes one entity.
pub fn write_one(event: Event, actor: Entity, answer: Answer, a: &mut Clock) -> Entry
    requires few { a.old.version < 2 ^ 63 }
    ensures entity { a.new.entity ≡ a.old.entity }
    ensures carries { (w : KernelState) → HasClock w a.old → (j : ModelCell)
        → CarriesOne event actor answer w (writing a.old.entity j ∷ []) result a.new }
{
    let first = step_touch(a);
    raise(&mut a.stamp, &first);
    a.version = first.version;
    entry(event, actor, Touched::one(first), answer)
}

/// An event that writes two entities.
pub fn write_two(event: Event, actor: Entity, answer: Answer, a: &mut Clock, b: &mut Clock) -> Entry
    requires few_a { a.old.version < 2 ^ 63 }
    requires few_b { b.old.version < 2 ^ 63 }
    requires apart { a.old.entity < b.old.entity }
    ensures entity_a { a.new.entity ≡ a.old.entity }
    ensures entity_b { b.new.entity ≡ b.old.entity }
    ensures carries { (w : KernelState) → HasClock w a.old → HasClock w b.old → (j k : ModelCell)
        → CarriesTwo event actor answer w (writing a.old.entity j ∷ writing b.old.entity k ∷ []) result a.new b.new }
{
    let first = step_touch(a);
    let second = step_touch(b);
    join(&mut a.stamp, &b.stamp, &first, &second);
    b.stamp = a.stamp;
    a.version = first.version;
    b.version = second.version;
    entry(event, actor, Touched::two(first, second), answer)
}

/// An event that reads one entity and writes another.
pub fn read_and_write(
    event: Event,
    actor: Entity,
    answer: Answer,
    a: &Clock,
    b: &mut Clock,
) -> Entry
    requires few_b { b.old.version < 2 ^ 63 }
    requires apart { a.now.entity < b.old.entity }
    ensures entity_b { b.new.entity ≡ b.old.entity }
    ensures carries { (w : KernelState) → HasClock w a.now → HasClock w b.old → (k : ModelCell)
        → CarriesTwo event actor answer w (reading a.now.entity ∷ writing b.old.entity k ∷ []) result a.now b.new }
{
    let first = read_touch(a);
    let second = step_touch(b);
    join(&mut b.stamp, &a.stamp, &first, &second);
    b.version = second.version;
    entry(event, actor, Touched::two(first, second), answer)
}

/// An event that writes three entities.
pub fn write_three(
    event: Event,
    actor: Entity,
    answer: Answer,
    a: &mut Clock,
    b: &mut Clock,
    c: &mut Clock,
) -> Entry
    requires few_a { a.old.version < 2 ^ 63 }
    requires few_b { b.old.version < 2 ^ 63 }
    requires few_c { c.old.version < 2 ^ 63 }
    requires first_apart { a.old.entity < b.old.entity }
    requires second_apart { b.old.entity < c.old.entity }
    ensures entity_a { a.new.entity ≡ a.old.entity }
    ensures entity_b { b.new.entity ≡ b.old.entity }
    ensures entity_c { c.new.entity ≡ c.old.entity }
    ensures carries { (w : KernelState) → HasClock w a.old → HasClock w b.old → HasClock w c.old → (j k l : ModelCell)
        → CarriesThree event actor answer w (writing a.old.entity j ∷ writing b.old.entity k ∷ writing c.old.entity l ∷ []) result a.new b.new c.new }
{
    let first = step_touch(a);
    let second = step_touch(b);
    let third = step_touch(c);
    join(&mut a.stamp, &b.stamp, &first, &second);
    a.stamp.meet(&c.stamp);
    raise(&mut a.stamp, &third);
    b.stamp = a.stamp;
    c.stamp = a.stamp;
    a.version = first.version;
    b.version = second.version;
    c.version = third.version;
    entry(event, actor, Touched::three(first, second, third), answer)
}
