//! Boards whose kernel stops while two threads step.
use crate::again::worked;
use crate::boards::Left;
use crate::cases::Case;
use crate::looks::{Look, Went};
use crate::workers::Work;
use base_types::Event;
use kernel_core::Stopped;
use std::test::Fail;
use thread_workers::OpenGate;

// Two loci store at the head of one page after another of a container each, over and over, and each store is recorded.
const STORES: &[u8] = b"steps = 400
program.p = ['set r1 128', 'store r0 r1', 'add r0 r1', 'jump @1']
container = [{ name = 'a', pages = 100, every = 1, program = 'p' }, { name = 'b', pages = 100, every = 1, program = 'p' }]
locus = [{ name = 'l', host = 'a', every = 1 }, { name = 'm', host = 'b', every = 1 }]
";

// One locus stores into two pages, of which one is in memory, and reads one again, with a record of each second version. Another stores into a page that
// stays in memory, over and over, and isn't recorded: so each call of the disk is the first one's.
const PAGES: &[u8] = b"steps = 10
frames = 1
program.p = ['set r1 128', 'store r0 r1', 'store r1 r0', 'load r2 r0', 'halt']
program.q = ['store r0 r1', 'jump @0']
container = [{ name = 'a', pages = 2, every = 2, program = 'p' }, { name = 'b', pages = 1, program = 'q' }]
locus = [{ name = 'l', host = 'a', every = 2 }, { name = 'm', host = 'b' }]
";

/// Whether the last of these items tells why the kernel has stopped.
fn tells(items: &[Look], stopped: Stopped) -> bool {
    match items.last() {
        Some(look) => match look.went {
            Went::Stopped(why) | Went::StoppedBehind(why) => why == stopped,
            Went::Made | Went::Idle(_) => false,
        },
        None => false,
    }
}

/// How many passes end with an item that tells why the kernel has stopped.
fn tellers(left: &Left) -> u32 {
    let Some(stopped) = left.ended.stopped else {
        return 0;
    };
    let mut tellers = 0_u32;
    for i in 0..left.items.len() {
        if tells(&left.items[i], stopped) {
            tellers = tellers.wrapping_add(1);
        }
    }
    tellers
}

#[test]
fn a_kernel_on_threads_stops_for_want_of_blocks(rt: HostRuntime) -> Result<(), Fail> {
    let alloc = rt.alloc();
    let case = Case::read(alloc, STORES, 2600)?;
    let left = worked(&rt, alloc, &case, &[], &OpenGate, Work::of(2, 400))?;
    let stopped = left.ended.stopped;
    assert!(&rt;
        matches!(stopped, Some(Stopped::NoBlocks(_))),
        "{stopped:?}"
    );
    // both workers find the stop, and who finishes
    assert!(&rt; tellers(&left) == 3);
    Ok(())
}

#[test]
fn a_kernel_on_threads_stops_at_each_call_that_fails(rt: HostRuntime) -> Result<(), Fail> {
    let alloc = rt.alloc();
    let case = Case::read(alloc, PAGES, 2600)?;
    let from = case.calls(alloc)?;
    let (mut reads, mut writes) = (0_u32, 0_u32);
    for later in 1..=60_u64 {
        let fails = [from.wrapping_add(later)];
        let left = worked(&rt, alloc, &case, &fails, &OpenGate, Work::of(2, 6))?;
        match left.ended.stopped {
            Some(Stopped::ReadFault) => reads = reads.wrapping_add(1),
            Some(Stopped::WriteFault) => writes = writes.wrapping_add(1),
            // the run has fewer calls
            _ => break,
        }
        // who met the fault, and who finishes
        assert!(&rt; tellers(&left) >= 2, "{later}");
    }
    // two records of the locus and one of its container, each of three blocks and two syncs at least; and the page that is read again
    assert!(&rt; reads == 1 && writes >= 15, "{reads} {writes}");
    Ok(())
}

#[test]
fn a_kernel_that_had_stopped_makes_no_step(rt: HostRuntime) -> Result<(), Fail> {
    let alloc = rt.alloc();
    let case = Case::read(alloc, PAGES, 2600)?;
    // the last call of the births
    let fails = [case.calls(alloc)?];
    let left = worked(&rt, alloc, &case, &fails, &OpenGate, Work::of(2, 6))?;
    let why = Stopped::WriteFault;
    assert!(&rt; left.ended.stopped == Some(why));
    let history = left.ended.history.as_slice();
    assert!(&rt; !history.iter().any(|entry| entry.event == Event::Step));
    // each worker is told so at its first look, and so is who finishes
    assert!(&rt; left.items.len() == 3);
    for i in 0..left.items.len() {
        let items = left.of(i);
        assert!(&rt; items.len() == 1 && items[0].went == Went::Stopped(why));
        assert!(&rt; items[0].place == history.len() as u64);
    }
    Ok(())
}
