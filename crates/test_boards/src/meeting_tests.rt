//! Two steps at once: one holds its locks while the other is made and answered.
use crate::again::worked;
use crate::boards::Left;
use crate::cases::Case;
use crate::kinds::Kinds;
use crate::looks::Went;
use crate::meeting::Meeting;
use crate::workers::Work;
use base_types::{Entity, Event};
use kernel_core::Stopped;
use std::alloc::Global;
use std::test::Fail;

// Two loci store into a container each. Each store is recorded.
const TWO_STORES: &[u8] = b"steps = 10
program.p = ['store r0 r1', 'halt']
container = [{ name = 'a', pages = 1, every = 1, program = 'p' }, { name = 'b', pages = 1, every = 1, program = 'p' }]
locus = [{ name = 'l', host = 'a', every = 1 }, { name = 'm', host = 'b', every = 1 }]
";

/// The locus that made the first step.
fn first_to_step(left: &Left) -> Option<Entity> {
    for entry in left.ended.history.as_slice() {
        if entry.event == Event::Step {
            return Some(entry.actor);
        }
    }
    None
}

#[test]
fn a_step_is_made_and_answered_while_another_holds_its_locks(rt: HostRuntime) -> Result<(), Fail> {
    let alloc = rt.alloc();
    let case = Case::read(alloc, TWO_STORES, 2600)?;
    let gate = Meeting::new();
    let left = worked(&rt, alloc, &case, &[], &gate, Work::of(2, 2))?;
    assert!(&rt; !gate.was_late(&rt));
    assert!(&rt; left.ended.stopped.is_none());
    assert!(&rt; first_to_step(&left) == Some(Entity::of(42)));
    let each = Kinds {
        alone: 2,
        beside: 2,
        ..Kinds::none()
    };
    let kinds = Kinds::of(&left.ended.history);
    assert!(&rt; kinds == each, "{kinds:?}");
    Ok(())
}

#[test]
fn a_step_that_waits_finds_the_stop(rt: HostRuntime) -> Result<(), Fail> {
    let alloc = rt.alloc();
    let case = Case::read(alloc, TWO_STORES, 2600)?;
    // the first call behind the births
    let fails = [case.calls(alloc)?.wrapping_add(1)];
    let gate = Meeting::new();
    let left = worked(&rt, alloc, &case, &fails, &gate, Work::of(2, 2))?;
    assert!(&rt; !gate.was_late(&rt));
    let why = Stopped::WriteFault;
    assert!(&rt; left.ended.stopped == Some(why));
    assert!(&rt; first_to_step(&left) == Some(Entity::of(42)));
    let (one, other) = (left.of(0), left.of(1));
    assert!(&rt; one.len() == 1 && one[0].went == Went::Stopped(why));
    assert!(&rt; other.len() == 1 && other[0].went == Went::StoppedBehind(why));
    Ok(())
}
