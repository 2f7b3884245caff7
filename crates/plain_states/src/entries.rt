ghost use Rattle.std.specs.Prelude.{◌≡◌, ◌+◌, ◌<◌, ◌^◌, true, [], ◌∷◌, slice_index};
ghost use Rattle.plain_states.specs.Entries.{raised, step_entry, touch_by, versions_after};
ghost use Rattle.plain_states.specs.Events.{AreFewVersions};

use base_types::{Answer, Entity, Entry, Event, Touch, Touched};

/// An entity that a step touches, and whether it writes it.
#[derive(Clone, Copy, Debug)]
pub struct Mark {
    pub entity: Entity,
    pub wrote: bool,
}

/// The mark of an entity that is written.
pub fn wrote(entity: Entity) -> Mark
    ensures { result ≡ record { entity = entity; wrote = true } }
{
    Mark {
        entity,
        wrote: true,
    }
}

/// The touch of an entity, whose version rises where it is written.
fn touch(versions: &mut [u64; 64], mark: Mark) -> Touch
    requires few { slice_index versions.old mark.entity < 2 ^ 63 }
    ensures touch { result ≡ touch_by versions.old mark }
    ensures versions { versions.new ≡ raised versions.old mark }
{
    let n = mark.entity.number() as usize;
    if mark.wrote {
        versions[n] += 1;
    }
    Touch {
        version: versions[n],
        entity: mark.entity,
        wrote: mark.wrote,
    }
}

/// The entry of a step, which has no version of its own.
fn entry(actor: Entity, touched: Touched, answer: Answer) -> Entry
    ensures { result ≡ record { event = Event.Step; actor = actor; touched = touched; version = 0; answer = answer } }
{
    Entry {
        event: Event::Step,
        actor,
        touched,
        version: 0,
        answer,
    }
}

/// The entry of a step that touches the locus alone, which it writes.
pub fn entry_alone(versions: &mut [u64; 64], locus: Entity, answer: Answer) -> Entry
    requires few { AreFewVersions versions.old }
    ensures entry { result ≡ step_entry versions.old locus (record { entity = locus; wrote = true } ∷ []) answer }
    ensures versions { versions.new ≡ versions_after versions.old (record { entity = locus; wrote = true } ∷ []) }
{
    let a = touch(versions, wrote(locus));
    entry(locus, Touched::one(a), answer)
}

/// The entry of a step that touches two entities.
pub fn entry_of_two(
    versions: &mut [u64; 64],
    actor: Entity,
    first: Mark,
    second: Mark,
    answer: Answer,
) -> Entry
    requires few { AreFewVersions versions.old }
    requires apart { first.entity < second.entity }
    ensures entry { result ≡ step_entry versions.old actor (first ∷ second ∷ []) answer }
    ensures versions { versions.new ≡ versions_after versions.old (first ∷ second ∷ []) }
{
    let a = touch(versions, first);
    let b = touch(versions, second);
    entry(actor, Touched::two(a, b), answer)
}

/// The entry of a step that writes three entities.
pub fn entry_of_three(
    versions: &mut [u64; 64],
    actor: Entity,
    first: Entity,
    second: Entity,
    third: Entity,
    answer: Answer,
) -> Entry
    requires few { AreFewVersions versions.old }
    requires first_apart { first < second }
    requires second_apart { second < third }
    ensures entry { result ≡ step_entry versions.old actor (record { entity = first; wrote = true } ∷ record { entity = second; wrote = true } ∷ record { entity = third; wrote = true } ∷ []) answer }
    ensures versions { versions.new ≡ versions_after versions.old (record { entity = first; wrote = true } ∷ record { entity = second; wrote = true } ∷ record { entity = third; wrote = true } ∷ []) }
{
    let a = touch(versions, wrote(first));
    let b = touch(versions, wrote(second));
    let c = touch(versions, wrote(third));
    entry(actor, Touched::three(a, b, c), answer)
}
