ghost use Rattle.plain_steps.specs.model_kernel.Soundness.{IsSound};
ghost use Rattle.plain_states.specs.Plains.{cells_of};

use crate::scripts_played::played;
use edge_streams::{MemorySink, SinkFault};
use plain_show::write_show;
use plain_states::Plain;
use std::test::Fail;

/// What is shown of a state on a supplier whose words are the tag.
fn show(state: &Plain, sink: &mut MemorySink) -> Result<(), SinkFault>
    requires { IsSound (cells_of (λ tag page place. tag) state.now) }
{
    write_show(state, &|tag, _, _| tag, sink)
}

/// A locus that stored a word and stabilised.
const SMALL: &str = "steps = 3
program.p = ['set r0 7', 'store r1 r0', 'stabilise r2', 'halt']
container = [{ name = 'a', pages = 1, program = 'p' }]
locus = [{ name = 'l', host = 'a', caps = ['atlas t'] }]
";

#[test]
fn a_container_and_a_locus_are_shown_by_their_lines(rt: HostRuntime) -> Result<(), Fail> {
    let played = played(rt.alloc(), SMALL)?;
    let mut sink = MemorySink::new(rt.alloc(), 256, Vec::new(rt.alloc()))?;
    show(&played.state, &mut sink)?;
    let lines = b"container a 1 0 0 -
word a 0 7
locus l a 3 running 0 7 0 0 0 0 0 0 0
cap l 0 atlas t
";
    assert!(rt; sink.held() == lines.as_slice());
    Ok(())
}

/// A locus that stored a word, printed twice, made a private region, went from `a` into `b`, and looks for address 2
/// there: two hops lead over `c` to `d`.
const EACH_PART: &str = "steps = 10
program.p = ['set r0 7', 'store r1 r0', 'print r0', 'print r0', 'set r2 1', 'lmap r2 r2 r1 r2 rw', 'set r6 2', 'invoke r2']
program.q = ['load r5 r6']
container = [
    { name = 'd', pages = 3 },
    { name = 'c', pages = 2, regions = ['0 d 1 1 r'] },
    { name = 'b', pages = 8, tag = 5, entry = 0, program = 'q', regions = ['0 c 0 1 r'] },
    { name = 'a', pages = 3, entry = 9, program = 'p', regions = ['2 b 5 1 rw'], caps = ['d rm'] },
]
locus = [{ name = 'l', host = 'a', caps = ['atlas t', 'b rwi'] }]
";

#[test]
fn each_part_of_both_has_its_line(rt: HostRuntime) -> Result<(), Fail> {
    let played = played(rt.alloc(), EACH_PART)?;
    let mut sink = MemorySink::new(rt.alloc(), 512, Vec::new(rt.alloc()))?;
    show(&played.state, &mut sink)?;
    let lines = b"container d 3 0 0 -
container c 2 0 0 -
region c 0 d 1 1 r
container b 8 5 0 0
region b 0 c 0 1 r
container a 3 0 0 9
region a 2 b 5 1 rw
cap a 0 d rm
word a 0 7
locus l b 0 running 0 7 0 1 0 0 0 2 0
printed l 2
private l a 1 b 0 1 rw
call l a 8
walk l d 130 2
cap l 0 atlas t
cap l 1 b rwi
";
    assert!(rt; sink.held() == lines.as_slice());
    Ok(())
}
