//! Runs whose counts are worked out by hand, whatever the order of their looks.
use crate::again::worked;
use crate::boards::on_board;
use crate::cases::Case;
use crate::kinds::{Kinds, snaps_of};
use crate::looks::Went;
use crate::workers::Work;
use base_types::Entity;
use kernel_core::Idle;
use std::test::Fail;
use thread_workers::OpenGate;

// Two loci of a container each: an act by the locus alone, a store, a Snap that is asked for, a stabilise, a container that is made, a page of it
// that is mapped, a locus that is spawned and halts, as each of the two does.
const EACH_KIND: &[u8] = b"steps = 10
program.p = ['set r2 1', 'store r0 r1', 'snap r0', 'stabilise r2', 'make r3 r2 r1 -', 'map r0 r6 r3 r6 r2 r', 'spawn r4 @8', 'halt', 'halt']
container = [{ name = 'a', pages = 1, program = 'p' }, { name = 'b', pages = 1, program = 'p' }]
locus = [{ name = 'l', host = 'a', caps = ['a rwms', 'atlas t'] }, { name = 'm', host = 'b', caps = ['b rwms', 'atlas t'] }]
";

// Two loci spawn others until no number is free and beyond, twenty times each. Those that are spawned step while more are.
const SPAWNS: &[u8] = b"steps = 60
program.p = ['spawn r4 @3', 'drop r4', 'jump @0', 'set r1 1', 'set r1 2', 'halt']
container = [{ name = 'a', pages = 1, program = 'p' }, { name = 'b', pages = 1, program = 'p' }]
locus = [{ name = 'l', host = 'a' }, { name = 'm', host = 'b' }]
";

// One locus stabilises over and over, while another stores. Its Stables record all that was changed.
const STABILISES: &[u8] = b"steps = 20
program.s = ['stabilise r0', 'jump @0']
program.p = ['store r0 r1', 'add r1 r2', 'jump @0']
container = [{ name = 'a', pages = 1, program = 's' }, { name = 'b', pages = 1, program = 'p' }]
locus = [{ name = 'l', host = 'a', caps = ['atlas t'] }, { name = 'm', host = 'b' }]
";

// Two loci store into one container, each of whose versions is to be recorded, and are recorded at no version: no record of it behind that of the
// births can be taken, so that three more are made, and then it is full.
const FULL: &[u8] = b"steps = 20
program.p = ['store r0 r1', 'store r0 r1', 'store r0 r1', 'store r0 r1', 'halt']
container = [{ name = 'a', pages = 1, every = 1, program = 'p' }]
locus = [{ name = 'l', host = 'a' }, { name = 'm', host = 'a' }]
";

#[test]
fn steps_of_each_kind_are_made_by_two_threads(rt: HostRuntime) -> Result<(), Fail> {
    let alloc = rt.alloc();
    let case = Case::read(alloc, EACH_KIND, 4000)?;
    let left = worked(&rt, alloc, &case, &[], &OpenGate, Work::of(2, 10))?;
    assert!(&rt; left.ended.stopped.is_none());
    let each = Kinds {
        alone: 8,
        beside: 4,
        mapping: 2,
        make: 2,
        spawn: 2,
        stables: 2,
        ..Kinds::none()
    };
    let kinds = Kinds::of(&left.ended.history);
    assert!(&rt; kinds == each, "{kinds:?}");
    Ok(())
}

#[test]
fn newborns_step_while_others_are_spawned(rt: HostRuntime) -> Result<(), Fail> {
    let alloc = rt.alloc();
    let case = Case::read(alloc, SPAWNS, 4000)?;
    let left = worked(&rt, alloc, &case, &[], &OpenGate, Work::of(3, 60))?;
    assert!(&rt; left.ended.stopped.is_none());
    // 21 of 23 loci are spawned, each of which makes three steps
    let each = Kinds {
        alone: 80 + 63,
        spawn: 21,
        barren: 19,
        ..Kinds::none()
    };
    let kinds = Kinds::of(&left.ended.history);
    assert!(&rt; kinds == each, "{kinds:?}");
    Ok(())
}

#[test]
fn all_is_stabilised_while_another_stores(rt: HostRuntime) -> Result<(), Fail> {
    let alloc = rt.alloc();
    let case = Case::read(alloc, STABILISES, 4000)?;
    let left = worked(&rt, alloc, &case, &[], &OpenGate, Work::of(2, 20))?;
    assert!(&rt; left.ended.stopped.is_none());
    let each = Kinds {
        alone: 33,
        beside: 7,
        stables: 10,
        ..Kinds::none()
    };
    let kinds = Kinds::of(&left.ended.history);
    assert!(&rt; kinds == each, "{kinds:?}");
    Ok(())
}

#[test]
fn a_full_container_is_not_recorded(rt: HostRuntime) -> Result<(), Fail> {
    let alloc = rt.alloc();
    let case = Case::read(alloc, FULL, 4000)?;
    let left = worked(&rt, alloc, &case, &[], &OpenGate, Work::of(2, 5))?;
    assert!(&rt; left.ended.stopped.is_none());
    assert!(&rt; Kinds::of(&left.ended.history).beside == 8);
    assert!(&rt; snaps_of(&left.ended.history, Entity::of(1)) == 3);
    Ok(())
}

#[test]
fn an_absent_locus_and_the_atlas_are_idle(rt: HostRuntime) -> Result<(), Fail> {
    let alloc = rt.alloc();
    let case = Case::read(alloc, EACH_KIND, 4000)?;
    let births = case.kernel(alloc, &[])?.history().len() as u64;
    let work = Work {
        workers: 1,
        loci: &[63, 41, 0],
        rounds: 1,
    };
    let left = worked(&rt, alloc, &case, &[], &OpenGate, work)?;
    let items = left.of(0);
    assert!(&rt; items.len() == 3);
    assert!(&rt; items[0].went == Went::Idle(Idle::Absent) && items[0].place == births);
    assert!(&rt; items[1].went == Went::Made && items[1].place == births);
    assert!(&rt;
        items[2].went == Went::Idle(Idle::Absent) && items[2].place == births.wrapping_add(1)
    );
    Ok(())
}

#[test]
fn of_an_opened_image_no_locus_is_born(rt: HostRuntime) -> Result<(), Fail> {
    let alloc = rt.alloc();
    let case = Case::read(alloc, EACH_KIND, 2600)?;
    let kernel = case.opened(alloc)?;
    let left = on_board(&rt, alloc, kernel, &OpenGate, Work::of(2, 1))?;
    assert!(&rt; left.ended.stopped.is_none() && left.ended.history.is_empty());
    // each worker looked at its loci, and who finishes at all
    assert!(&rt; left.of(0).len() == 12 && left.of(1).len() == 11 && left.of(2).len() == 23);
    for i in 0..left.items.len() {
        for item in &left.items[i] {
            assert!(&rt; item.went == Went::Idle(Idle::Absent) && item.place == 0);
        }
    }
    Ok(())
}
