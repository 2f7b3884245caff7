//! The scripts that the tests run.
use std::alloc::{AllocError, Global};

pub(crate) const FIVE: &str = "steps = 1
program.p = ['set r0 5', 'store r1 r0', 'load r2 r1', 'print r2', 'halt']
container = [{ name = 'a', pages = 1, program = 'p' }]
locus = [{ name = 'l', host = 'a' }]
";

// A word is stored, and there the locus halts. One that begins at place 3 stores another word. The container is snapped at each version.
pub(crate) const STORES_ONCE: &str =
    "program.p = ['set r0 5', 'store r1 r0', 'halt', 'set r0 9', 'store r1 r0', 'halt']
container = [{ name = 'a', pages = 1, every = 1, program = 'p' }]
locus = [{ name = 'l', host = 'a' }]
";

// The same, where the locus is snapped too.
pub(crate) const STORES_BOTH: &str =
    "program.p = ['set r0 5', 'store r1 r0', 'halt', 'set r0 9', 'store r1 r0', 'halt']
container = [{ name = 'a', pages = 1, every = 1, program = 'p' }]
locus = [{ name = 'l', host = 'a', every = 2 }]
";

// STORES_ONCE with a second locus, which is picked first and snapped.
pub(crate) const STORES_AGAIN: &str = "order = ['m', 'm']
program.p = ['set r0 5', 'store r1 r0', 'halt', 'set r0 9', 'store r1 r0', 'halt']
container = [{ name = 'a', pages = 1, every = 1, program = 'p' }]
locus = [{ name = 'l', host = 'a' }, { name = 'm', host = 'a', at = 3, every = 2 }]
";

// A word of each of 256 pages is stored, and then all are added up.
pub(crate) const ALL_PAGES: &str =
    "program.p = ['set r1 128', 'set r2 256', 'set r3 1', 'store r0 r2', 'add r0 r1', 'sub r2 r3', 'jz r2 @8', 'jump @3', 'set r0 0', 'set r2 256', 'load r4 r0', 'add r5 r4', 'add r0 r1', 'sub r2 r3', 'jz r2 @16', 'jump @10', 'print r5', 'halt']
container = [{ name = 'a', pages = 256, program = 'p' }]
locus = [{ name = 'l', host = 'a' }]
";

pub(crate) const LAST_NUMBER: &str = "steps = 100
program.p = ['spawn r1 @5', 'jz r7 @0', 'print r7', 'halt', 'halt', 'halt']
container = [{ name = 'a', pages = 1, program = 'p' }]
locus = [{ name = 'l', host = 'a' }]
";

pub(crate) const ALWAYS_STABLE: &str = "steps = 1400
program.p = ['stabilise r0', 'jump @0']
container = [{ name = 'a', pages = 1, program = 'p' }]
locus = [{ name = 'l', host = 'a', caps = ['atlas t'] }]
";

// A Stable, and then steps until they are used up.
pub(crate) const COUNTS_ON: &str = "steps = 103
program.p = ['set r0 7', 'store r1 r0', 'stabilise r2', 'add r0 r3', 'jump @3']
container = [{ name = 'a', pages = 1, program = 'p' }]
locus = [{ name = 'l', host = 'a', caps = ['atlas t'] }]
";

// Two loci store: one into its own container, which it makes stable at each round; the other stores and loads through a region.
pub(crate) const WISHES: &str = "steps = 12
program.p = ['set r0 7', 'set r3 1', 'store r1 r0', 'add r0 r0', 'store r1 r0', 'stabilise r3', 'jump @3']
program.q = ['set r0 3', 'set r1 130', 'store r1 r0', 'load r2 r1', 'add r1 r0', 'jump @2']
container = [
    { name = 'a', pages = 2, every = 3, program = 'p' },
    { name = 'b', pages = 2, tag = 5, every = 2, program = 'q', regions = ['1 a 1 1 rw'] },
]
locus = [
    { name = 'l', host = 'a', every = 4, caps = ['a s', 'atlas t'] },
    { name = 'm', host = 'b', every = 3 },
]
";

// A word of each of 40 pages is stored, and the container is snapped behind the last.
pub(crate) const FORTY_PAGES: &str =
    "program.p = ['set r1 128', 'set r2 40', 'set r3 1', 'store r0 r2', 'add r0 r1', 'sub r2 r3', 'jz r2 @8', 'jump @3', 'halt']
container = [{ name = 'a', pages = 256, every = 40, program = 'p' }]
locus = [{ name = 'l', host = 'a' }]
";

// A word of each of 40 pages is stored, and then all is to be made stable.
pub(crate) const FORTY_PAGES_STABLE: &str =
    "program.p = ['set r1 128', 'set r2 40', 'set r3 1', 'store r0 r2', 'add r0 r1', 'sub r2 r3', 'jz r2 @8', 'jump @3', 'stabilise r2', 'halt']
container = [{ name = 'a', pages = 256, program = 'p' }]
locus = [{ name = 'l', host = 'a', caps = ['atlas t'] }]
";

// A word is stored and all is made stable, which takes the steps; behind that it is loaded.
pub(crate) const LOADS_BEHIND: &str = "steps = 3
program.p = ['set r0 7', 'store r1 r0', 'stabilise r2', 'load r3 r1', 'halt']
container = [{ name = 'a', pages = 1, program = 'p' }]
locus = [{ name = 'l', host = 'a', caps = ['atlas t'] }]
";

/// These names, as a list.
pub(crate) fn names_of(alloc: Global, names: &[&str]) -> Result<Vec<String>, AllocError> {
    let mut list = Vec::new(alloc);
    for name in names {
        list.push(String::from_str(alloc, name)?)?;
    }
    Ok(list)
}
