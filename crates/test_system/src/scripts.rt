//! Scripts that tests run.
use std::alloc::{AllocError, Global};

pub const FIVE: &[u8] = b"program.p = ['set r0 5', 'store r1 r0', 'load r2 r1', 'print r2', 'halt']
container = [{ name = 'a', pages = 1, program = 'p' }]
locus = [{ name = 'l', host = 'a' }]
";

// What an image shows of its births.
pub const BORN: &str = "container a 1 0 0 -
locus l a 0 running 0 0 0 0 0 0 0 0 0
";

pub const PAST_THE_PAGE: &[u8] =
    b"program.p = ['set r0 128', 'load r1 r0', 'print r7', 'set r0 127', 'load r1 r0', 'print r7', 'halt']
container = [{ name = 'a', pages = 1, program = 'p' }]
locus = [{ name = 'l', host = 'a' }]
";

// The supplier's words count up from the tag.
pub const TAGGED: &[u8] = b"program.p = ['set r0 130', 'load r1 r0', 'print r1', 'halt']
container = [{ name = 'a', pages = 2, tag = 7, program = 'p' }]
locus = [{ name = 'l', host = 'a' }]
";

// A private region is looked at before the container's.
pub const PRIVATE_FIRST: &[u8] =
    b"program.p = ['set r0 128', 'load r1 r0', 'print r1', 'set r2 1', 'set r5 1', 'lmap r2 r3 r4 r5 r', 'load r1 r0', 'print r1', 'lunmap r2', 'load r1 r0', 'print r1', 'halt']
container = [
    { name = 'b', pages = 1, tag = 1000 },
    { name = 'c', pages = 1, tag = 2000 },
    { name = 'a', pages = 2, program = 'p', regions = ['1 b 0 1 rw'] },
]
locus = [{ name = 'l', host = 'a', caps = ['c r'] }]
";

// It is looked at in the host where it was made.
pub const PRIVATE_IN_ONE_HOST: &[u8] = b"program.d = ['load r1 r0', 'print r1', 'return']
program.p = ['set r5 1', 'lmap r2 r3 r4 r5 r', 'load r1 r0', 'print r1', 'set r6 1', 'invoke r6', 'load r1 r0', 'print r1', 'halt']
container = [
    { name = 'c', pages = 1, tag = 2000 },
    { name = 'd', pages = 1, tag = 3000, entry = 0, program = 'd' },
    { name = 'a', pages = 1, program = 'p' },
]
locus = [{ name = 'l', host = 'a', caps = ['c r', 'd i'] }]
";

pub const CIRCLES: &[u8] =
    b"program.p = ['set r5 1', 'set r1 1', 'set r2 2', 'map r0 r6 r1 r6 r5 r', 'print r7', 'map r1 r6 r2 r6 r5 r', 'print r7', 'map r2 r6 r0 r6 r5 r', 'print r7', 'map r0 r1 r0 r6 r5 r', 'print r7', 'halt']
container = [
    { name = 'a', pages = 2 },
    { name = 'b', pages = 1 },
    { name = 'c', pages = 1 },
    { name = 'h', pages = 1, program = 'p' },
]
locus = [{ name = 'l', host = 'h', caps = ['a rm', 'b rm', 'c rm'] }]
";

pub const DENIED_OVER_A_MAPPING: &[u8] = b"program.p = ['store r0 r1', 'print r7', 'halt']
container = [
    { name = 'c', pages = 1 },
    { name = 'b', pages = 1, regions = ['0 c 0 1 r'] },
    { name = 'a', pages = 1, program = 'p', regions = ['0 b 0 1 rw'] },
]
locus = [{ name = 'l', host = 'a' }]
";

pub const INVOKES_WITHOUT_ENTRY: &[u8] =
    b"program.p = ['invoke r0', 'print r7', 'set r0 1', 'invoke r0', 'print r7', 'halt']
container = [
    { name = 'b', pages = 1 },
    { name = 'a', pages = 1, program = 'p' },
]
locus = [{ name = 'l', host = 'a', caps = ['b r', 'b i'] }]
";

pub const FULL_CHAIN: &[u8] =
    b"program.p = ['invoke r0', 'print r7', 'halt', 'return', 'print r7', 'halt']
container = [{ name = 'a', pages = 1, entry = 0, program = 'p' }]
locus = [
    { name = 'l', host = 'a', caps = ['a i'] },
    { name = 'm', host = 'a', at = 3 },
]
";

// Every page is stored to and loaded from again.
pub const ALL_PAGES: &[u8] =
    b"program.p = ['set r1 128', 'set r2 256', 'set r3 1', 'store r0 r2', 'add r0 r1', 'sub r2 r3', 'jz r2 @8', 'jump @3', 'set r0 0', 'set r2 256', 'load r4 r0', 'add r5 r4', 'add r0 r1', 'sub r2 r3', 'jz r2 @16', 'jump @10', 'print r5', 'halt']
container = [{ name = 'a', pages = 256, program = 'p' }]
locus = [{ name = 'l', host = 'a' }]
";

// What an image shows of its births.
pub const ALL_PAGES_BORN: &str = "container a 256 0 0 -
locus l a 0 running 0 0 0 0 0 0 0 0 0
";

/// `ALL_PAGES` with so many pages in memory.
pub fn all_pages_by(alloc: Global, frames: &[u8]) -> Result<Vec<u8>, AllocError> {
    let mut script = b"frames = ".to_vec(alloc)?;
    script.extend_from_slice(frames)?;
    script.extend_from_slice(b"\n")?;
    script.extend_from_slice(ALL_PAGES)?;
    Ok(script)
}

pub const SPAWNS_TO_THE_LAST: &[u8] = b"steps = 100
program.p = ['spawn r1 @5', 'jz r7 @0', 'print r7', 'halt', 'halt', 'halt']
container = [{ name = 'a', pages = 1, program = 'p' }]
locus = [{ name = 'l', host = 'a' }]
";

pub const STOPS_ITSELF: &[u8] = b"program.p = ['stop r0', 'go r0', 'print r7', 'halt']
container = [{ name = 'a', pages = 1, program = 'p' }]
locus = [{ name = 'l', host = 'a', caps = ['l k'] }]
";

// The same, where another locus makes all stable behind it.
pub const STOPPED_AND_STABLE: &[u8] = b"program.p = ['stop r0', 'go r0', 'print r7', 'halt']
program.q = ['stabilise r0']
container = [
    { name = 'a', pages = 1, program = 'p' },
    { name = 'b', pages = 1, program = 'q' },
]
locus = [
    { name = 'l', host = 'a', caps = ['l k'] },
    { name = 'm', host = 'b', caps = ['atlas t'] },
]
";

// It stands behind the call by which it stopped itself.
pub const STOPPED: &str = "container a 1 0 0 -
container b 1 0 0 -
locus l a 1 stopped 0 0 0 0 0 0 0 0 0
cap l 0 l k
locus m b 1 running 0 0 0 0 0 0 0 0 0
cap m 0 atlas t
";

pub const TAKES: &[u8] =
    b"program.p = ['take r1 r0 r2', 'print r1', 'print r7', 'take r1 r0 r1', 'print r7', 'halt']
container = [
    { name = 'b', pages = 1, caps = ['b r'] },
    { name = 'a', pages = 1, program = 'p' },
]
locus = [{ name = 'l', host = 'a', caps = ['b c'] }]
";

// A Stable, and then steps until they are used up.
pub const COUNTS_ON: &[u8] = b"steps = 103
program.p = ['set r0 7', 'store r1 r0', 'stabilise r2', 'add r0 r3', 'jump @3']
container = [{ name = 'a', pages = 1, program = 'p' }]
locus = [{ name = 'l', host = 'a', caps = ['atlas t'] }]
";

// A capability that lets the atlas be read does not let it be made stable.
pub const UNSTABLE: &[u8] = b"program.p = ['stabilise r0', 'print r7', 'halt']
container = [{ name = 'a', pages = 1, program = 'p' }]
locus = [{ name = 'l', host = 'a', caps = ['atlas r'] }]
";

// The picks of the order come first.
pub const ORDERED: &[u8] = b"order = ['m', 'm', 'l']
program.p = ['print r0', 'halt']
container = [{ name = 'a', pages = 1, program = 'p' }]
locus = [{ name = 'l', host = 'a' }, { name = 'm', host = 'a' }]
";

pub const STABILISES: &[u8] =
    b"program.p = ['set r0 7', 'store r1 r0', 'stabilise r2', 'store r1 r2', 'halt']
container = [{ name = 'a', pages = 1, program = 'p' }]
locus = [{ name = 'l', host = 'a', caps = ['atlas t'] }]
";

// What an image shows of the last Stable of `STABILISES` and of `COUNTS_ON`.
pub const STABLE: &str = "container a 1 0 0 -
word a 0 7
locus l a 3 running 0 7 0 0 0 0 0 0 0
cap l 0 atlas t
";

// A line before a Stable, and one behind it.
pub const PRINTS_TWICE: &[u8] =
    b"program.p = ['set r0 5', 'print r0', 'stabilise r1', 'print r0', 'halt']
container = [{ name = 'a', pages = 1, program = 'p' }]
locus = [{ name = 'l', host = 'a', caps = ['atlas t'] }]
";

// The Stable keeps how many lines there were before it.
pub const PRINTED_ONCE: &str = "container a 1 0 0 -
locus l a 3 running 0 5 0 0 0 0 0 0 0
printed l 1
cap l 0 atlas t
";

// The container is wished at each version, and no locus.
pub const WISHED: &[u8] =
    b"program.p = ['set r0 5', 'store r1 r0', 'halt', 'set r0 9', 'store r1 r0', 'halt']
container = [{ name = 'a', pages = 1, every = 1, program = 'p' }]
locus = [{ name = 'l', host = 'a' }]
";

// The same with one more locus, whose picks come first.
pub const WISHED_BY_TWO: &[u8] = b"order = ['m', 'm']
program.p = ['set r0 5', 'store r1 r0', 'halt', 'set r0 9', 'store r1 r0', 'halt']
container = [{ name = 'a', pages = 1, every = 1, program = 'p' }]
locus = [{ name = 'l', host = 'a' }, { name = 'm', host = 'a', at = 3, every = 2 }]
";

pub const WISHED_BY_TWO_KEPT: &str = "container a 1 0 1 -
word a 0 9
locus l a 0 running 0 0 0 0 0 0 0 0 0
locus m a 5 running 2 9 0 0 0 0 0 0 0
";

// The locus is wished too, after two versions.
pub const WISHES: &[u8] =
    b"program.p = ['set r0 5', 'store r1 r0', 'halt', 'set r0 9', 'store r1 r0', 'halt']
container = [{ name = 'a', pages = 1, every = 1, program = 'p' }]
locus = [{ name = 'l', host = 'a', every = 2 }]
";

// What an image shows of the births of `WISHES`, and of `WISHED`.
pub const BORN_WITH_WISHES: &str = "container a 1 0 1 -
locus l a 0 running 2 0 0 0 0 0 0 0 0
";

pub const BORN_WISHED: &str = "container a 1 0 1 -
locus l a 0 running 0 0 0 0 0 0 0 0 0
";

// What it shows once both records are there.
pub const WISHES_KEPT: &str = "container a 1 0 1 -
word a 0 5
locus l a 2 running 2 5 0 0 0 0 0 0 0
";

// A Stable at each second step.
pub const ALWAYS_STABLE: &[u8] = b"steps = 1400
program.p = ['stabilise r0', 'jump @0']
container = [{ name = 'a', pages = 1, program = 'p' }]
locus = [{ name = 'l', host = 'a', caps = ['atlas t'] }]
";

// A snapshot is asked for without the right to it, and with it.
pub const NO_SNAP: &[u8] = b"program.p = ['snap r0', 'print r7', 'halt']
container = [{ name = 'a', pages = 1, program = 'p' }]
locus = [{ name = 'l', host = 'a', caps = ['a r'] }]
";

pub const SNAP: &[u8] = b"program.p = ['snap r0', 'print r7', 'halt']
container = [{ name = 'a', pages = 1, program = 'p' }]
locus = [{ name = 'l', host = 'a', caps = ['a s'] }]
";

// Loads the word at place 2 of page 1 of a container of tag 7, whose words `p` makes.
pub const PAGE_AND_PLACE: &[u8] = b"supply = ['7 p']
program.p = ['copy r3 r2', 'add r3 r1', 'halt']
program.q = ['set r0 130', 'load r1 r0', 'print r1', 'halt']
container = [{ name = 'a', pages = 2, tag = 7, program = 'q' }]
locus = [{ name = 'l', host = 'a' }]
";

// The same by a program that never halts, and by one that prints.
pub const NEVER_HALTS: &[u8] = b"supply = ['7 p']
program.p = ['jump @0']
program.q = ['set r0 130', 'load r1 r0', 'print r1', 'halt']
container = [{ name = 'a', pages = 2, tag = 7, program = 'q' }]
locus = [{ name = 'l', host = 'a' }]
";

pub const PRINTS: &[u8] = b"supply = ['7 p']
program.p = ['print r0']
program.q = ['set r0 130', 'load r1 r0', 'print r1', 'halt']
container = [{ name = 'a', pages = 2, tag = 7, program = 'q' }]
locus = [{ name = 'l', host = 'a' }]
";

// `WISHED`, where a program says yes for 5.
pub const WISHED_BY_PROGRAM: &[u8] = b"policy = ['5 y']
program.y = ['set r3 1']
program.p = ['set r0 5', 'store r1 r0', 'halt', 'set r0 9', 'store r1 r0', 'halt']
container = [{ name = 'a', pages = 1, every = 5, program = 'p' }]
locus = [{ name = 'l', host = 'a' }]
";

pub const BORN_WISHED_BY_PROGRAM: &str = "container a 1 0 5 -
locus l a 0 running 0 0 0 0 0 0 0 0 0
";

// The locus is wished after two versions, and only reads the container.
pub const LOADS: &[u8] = b"program.p = ['load r1 r0', 'load r1 r0', 'halt']
container = [{ name = 'a', pages = 1, program = 'p' }]
locus = [{ name = 'l', host = 'a', every = 2 }]
";

// The container is wished at each version, until it has four records that no cut goes past.
pub const STORES_ON: &[u8] =
    b"program.p = ['store r1 r0', 'store r1 r0', 'store r1 r0', 'store r1 r0', 'store r1 r0', 'halt']
container = [{ name = 'a', pages = 1, every = 1, program = 'p' }]
locus = [{ name = 'l', host = 'a' }]
";

// Counts in a page and prints the count; its first step behind that makes it stable.
pub const COUNT: &str = "steps = 6
program.p = ['set r2 1', 'load r1 r0', 'add r1 r2', 'store r0 r1', 'print r1', 'stabilise r3', 'jump @1']
container = [{ name = 'box', pages = 1, program = 'p' }]
locus = [{ name = 'counter', host = 'box', caps = ['atlas t'] }]
";

// What is shown once it was made stable.
pub const COUNTED: &str = "container box 1 0 0 -
word box 0 1
locus counter box 6 running 0 0 1 1 0 0 0 0 0
printed counter 1
cap counter 0 atlas t
";
