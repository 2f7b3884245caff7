//! Runs of steps of few kinds: mappings, and births until no number is free.
use crate::kinds::Kinds;
use crate::runs::{runs_the_same, two};
use script_reading::read_script;
use std::test::Fail;

// Mappings, one that would close a circle, a load that leads through three of them, a store that one denies, and one that is taken out twice.
const MAPS: &[u8] = b"steps = 20
program.p = ['set r5 1', 'set r1 1', 'set r2 2', 'set r3 3', 'set r4 128', 'map r0 r6 r1 r6 r5 r', 'map r1 r6 r2 r6 r5 r', 'map r2 r6 r0 r6 r5 r', 'map r3 r5 r0 r6 r5 r', 'load r2 r4', 'store r4 r1', 'unmap r3 r5', 'unmap r3 r5', 'halt']
container = [{ name = 'a', pages = 1 }, { name = 'b', pages = 1 }, { name = 'c', pages = 1 }, { name = 'h', pages = 2, program = 'p' }]
locus = [{ name = 'l', host = 'h', caps = ['a rm', 'b rm', 'c rm', 'h rwm'] }]
";

// Containers are made and loci spawned, by a locus each, until all numbers are taken and beyond. Each that is spawned halts.
const ALL_NUMBERS: &[u8] = b"steps = 121
program.m = ['set r2 1', 'make r3 r2 r1 -', 'drop r3', 'jump @1']
program.s = ['spawn r4 @3', 'drop r4', 'jump @0', 'halt']
container = [{ name = 'a', pages = 1, program = 'm' }, { name = 'b', pages = 1, program = 's' }]
locus = [{ name = 'l', host = 'a' }, { name = 'k', host = 'b' }]
";

#[test]
fn mappings_are_the_same_under_locks(rt: HostRuntime) -> Result<(), Fail> {
    let alloc = rt.alloc();
    let script = read_script(alloc, MAPS)?.script;
    let (ended, kinds) = runs_the_same(&rt, alloc, &script, two(alloc, 2600, &[])?, 20)?;
    assert!(&rt; ended.stopped.is_none());
    let each = Kinds {
        alone: 6,
        look: 5,
        mapping: 6,
        ..Kinds::none()
    };
    assert!(&rt; kinds == each, "{kinds:?}");
    Ok(())
}

#[test]
fn births_are_the_same_until_no_number_is_free(rt: HostRuntime) -> Result<(), Fail> {
    let alloc = rt.alloc();
    let script = read_script(alloc, ALL_NUMBERS)?.script;
    let (ended, kinds) = runs_the_same(&rt, alloc, &script, two(alloc, 4000, &[])?, 121)?;
    assert!(&rt; ended.stopped.is_none());
    // of 40 containers and 23 loci two each are the script's
    let each = Kinds {
        alone: 182,
        make: 38,
        spawn: 21,
        barren: 22,
        ..Kinds::none()
    };
    assert!(&rt; kinds == each, "{kinds:?}");
    Ok(())
}
