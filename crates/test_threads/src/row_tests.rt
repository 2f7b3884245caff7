//! Runs under locks that are worked out by hand.
ghost use Rattle.std.specs.Prelude.{◌≡◌, ◌<◌};

use crate::kinds::Kinds;
use crate::runs::{born, formatted, lent, lent_in_turn, owned, runs_the_same};
use base_types::{Answer, Entity, Entry, Event, Reply, Touch, Touched};
use script_reading::read_script;
use std::test::Fail;
use thread_looks::Stopped;

// A step of each kind of plan but a birth for which no number is free: by the locus alone, a store into its container, a Snap of it that is asked
// for, a stabilise that is refused and one that isn't, a container that is made, a page of it that is mapped, and a locus that is spawned. The
// atlas is snapped at each version.
const EACH_KIND: &[u8] = b"steps = 10
program.p = ['set r2 1', 'store r0 r1', 'snap r0', 'stabilise r0', 'stabilise r2', 'make r3 r2 r1 -', 'map r0 r6 r3 r6 r2 r', 'spawn r4 @9', 'halt', 'halt']
container = [{ name = 'a', pages = 1, program = 'p' }]
locus = [{ name = 'l', host = 'a', caps = ['a rwms', 'atlas t'] }]
";

// An entity that was written, with its new version.
fn wrote(entity: u8, version: u64) -> Touch
    requires { entity < 64 }
    ensures { result.entity ≡ entity }
{
    Touch {
        version,
        entity: Entity::of(entity),
        wrote: true,
    }
}

fn entry(event: Event, actor: u8, touched: Touched, version: u64, answer: Answer) -> Entry
    requires { actor < 64 }
{
    Entry {
        event,
        actor: Entity::of(actor),
        touched,
        version,
        answer,
    }
}

fn step(actor: u8, touched: Touched, answer: Answer) -> Entry
    requires { actor < 64 }
{
    entry(Event::Step, actor, touched, 0, answer)
}

fn birth(actor: u8, touched: Touched) -> Entry
    requires { actor < 64 }
{
    entry(Event::Birth, actor, touched, 0, Answer::Quiet)
}

fn mark(event: Event, actor: u8, version: u64) -> Entry
    requires { actor < 64 }
{
    entry(event, actor, Touched::none(), version, Answer::Quiet)
}

// What that run leaves, worked out by hand.
fn entries_of_each_kind() -> [Entry; 18] {
    let ok = Answer::Reply(Reply::Ok);
    let refused = Answer::Reply(Reply::WrongKind);
    let made = Touched::three(wrote(0, 3), wrote(2, 1), wrote(41, 7));
    let mapped = Touched::three(wrote(0, 4), wrote(1, 5), wrote(41, 8));
    let spawned = Touched::three(wrote(0, 5), wrote(41, 9), wrote(42, 1));
    [
        birth(1, Touched::two(wrote(0, 1), wrote(1, 1))),
        birth(41, Touched::three(wrote(0, 2), wrote(1, 2), wrote(41, 1))),
        mark(Event::Stable, 0, 0),
        step(41, Touched::one(wrote(41, 2)), Answer::Quiet),
        step(41, Touched::two(wrote(1, 3), wrote(41, 3)), ok),
        step(41, Touched::two(wrote(1, 4), wrote(41, 4)), ok),
        mark(Event::Snap, 1, 4),
        step(41, Touched::one(wrote(41, 5)), refused),
        step(41, Touched::one(wrote(41, 6)), ok),
        mark(Event::Stable, 41, 0),
        step(41, made, ok),
        mark(Event::Snap, 0, 3),
        step(41, mapped, ok),
        mark(Event::Snap, 0, 4),
        step(41, spawned, ok),
        mark(Event::Snap, 0, 5),
        step(42, Touched::one(wrote(42, 2)), Answer::Quiet),
        step(41, Touched::one(wrote(41, 10)), Answer::Quiet),
    ]
}

#[test]
fn steps_of_each_kind_are_made_under_locks(rt: HostRuntime) -> Result<(), Fail> {
    let alloc = rt.alloc();
    let script = read_script(alloc, EACH_KIND)?.script;
    let wanted = entries_of_each_kind();
    let (ended, kinds) = lent(&rt, alloc, formatted(alloc, 2600, &[])?, &script, 9)?;
    assert!(&rt; ended.stopped.is_none());
    assert!(&rt; ended.history.as_slice() == wanted.as_slice());
    // one for each Stable and each Snap
    assert!(&rt; ended.marks.len() == 6);
    let each = Kinds {
        alone: 3,
        stabilise: 2,
        look: 1,
        beside: 1,
        mapping: 1,
        make: 1,
        spawn: 1,
        barren: 0,
    };
    assert!(&rt; kinds == each, "{kinds:?}");
    // the loci that step, and one that is absent
    let me = Entity::of(41);
    let others = (Entity::of(42), Entity::of(50));
    let turns = [me, me, me, me, me, others.1, me, me, me, others.0, me];
    let (ended, made) = lent_in_turn(&rt, alloc, formatted(alloc, 2600, &[])?, &script, &turns)?;
    assert!(&rt; made == 11 && ended.stopped.is_none());
    assert!(&rt; ended.history.as_slice() == wanted.as_slice());
    Ok(())
}

// A word is stored and made stable, and then read again and again.
const READS: &[u8] = b"steps = 20
program.p = ['set r2 1', 'store r0 r1', 'stabilise r2', 'load r3 r0', 'jump @3']
container = [{ name = 'a', pages = 1, program = 'p' }]
locus = [{ name = 'l', host = 'a', caps = ['a rw', 'atlas t'] }]
";

#[test]
fn a_page_that_is_not_read_stops_the_kernel(rt: HostRuntime) -> Result<(), Fail> {
    let alloc = rt.alloc();
    let script = read_script(alloc, READS)?.script;
    let begun = owned(alloc, formatted(alloc, 2600, &[])?, &script, 5)?.disk;
    let kernel = born(alloc, begun, &script).ok_or("a kernel")?;
    // the first call behind the opening of the image is the read of the page
    let fails = [kernel.into_ended().disk.calls().wrapping_add(1)];
    let one = owned(alloc, formatted(alloc, 2600, &fails)?, &script, 5)?.disk;
    let other = owned(alloc, formatted(alloc, 2600, &fails)?, &script, 5)?.disk;
    let (ended, kinds) = runs_the_same(&rt, alloc, &script, (one, other), 5)?;
    assert!(&rt; ended.stopped == Some(Stopped::ReadFault));
    assert!(&rt; ended.history.is_empty() && kinds == Kinds::none());
    Ok(())
}
