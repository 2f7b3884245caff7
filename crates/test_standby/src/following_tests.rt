// A second node that follows a whole run.
use crate::first::{First, runs_over};
use crate::images::{answer, formatted, standby};
use crate::second::{calls_of, left_where, part, stops_leave, turned};
use edge_disk::{Disk, MemoryDisk};
use node_exchange::{Happening, Lines, take_over};
use node_shipments::Shipped;
use node_world::Sender;
use std::alloc::Global;
use std::test::Fail;
use test_replays::means_one_of;

// A word is stored, and container and locus are snapped behind it.
const STORES: &str =
    "program.p = ['set r0 5', 'store r1 r0', 'halt', 'set r0 9', 'store r1 r0', 'halt']
container = [{ name = 'a', pages = 1, every = 1, program = 'p' }]
locus = [{ name = 'l', host = 'a', every = 2 }]
";

// What is shown behind it.
const STORED: &str = "container a 1 0 1 -
word a 0 5
locus l a 2 running 2 5 0 0 0 0 0 0 0
";

// Two loci store words, one of them through a region, and one makes all stable again and again.
const STABLES: &str = "steps = 10
program.p = ['set r0 7', 'set r3 1', 'store r1 r0', 'add r0 r0', 'stabilise r3', 'jump @2']
program.q = ['set r0 3', 'set r1 130', 'store r1 r0', 'add r1 r0', 'jump @2']
container = [
    { name = 'a', pages = 2, every = 2, program = 'p' },
    { name = 'b', pages = 2, tag = 5, every = 2, program = 'q', regions = ['1 a 1 1 rw'] },
]
locus = [
    { name = 'l', host = 'a', every = 4, caps = ['a s', 'atlas t'] },
    { name = 'm', host = 'b', every = 3 },
]
";

// A sender that is offered the shipments of a run.
fn sender_of(alloc: Global, text: &str) -> Result<Sender<Shipped>, Fail> {
    let mut sender = Sender::new(alloc);
    for shipped in First::run(alloc, text)?.made {
        let _number = sender.offer(shipped)?;
    }
    Ok(sender)
}

// Whether a standby answers these counts. Of each a packet, the number with which it comes, and the count.
fn are_answered<D: Disk + Drop>(
    alloc: Global,
    disk: D,
    sender: &Sender<Shipped>,
    table: &[(u64, u64, u64)],
) -> Result<bool, Fail> {
    let mut second = standby(alloc, disk)?;
    for &(packet, number, count) in table {
        let shipped = sender.packet(packet).ok_or("a packet")?;
        if answer(&mut second, number, shipped) != Some(Ok(count)) {
            return Ok(false);
        }
    }
    Ok(true)
}

#[test]
fn packets_are_taken_in_their_order(rt: HostRuntime) -> Result<(), Fail> {
    let sender = sender_of(rt.alloc(), STORES)?;
    let table = [
        (2, 2, 0),
        (1, 1, 1),
        (1, 1, 1),
        (2, 2, 2),
        (2, u64::MAX, 2),
        (1, 0, 2),
    ];
    let disk = formatted(rt.alloc(), &[])?;
    assert!(rt; are_answered(rt.alloc(), disk, &sender, &table)?);
    Ok(())
}

#[test]
fn a_stop_in_a_delivery_leaves_what_the_first_commits_mean(rt: HostRuntime) -> Result<(), Fail> {
    let first = First::run(rt.alloc(), STORES)?;
    // three records behind the births, and two snapshots
    assert!(rt; first.made.len() == 5 && first.are_commits());
    assert!(rt; first.fronts.last().is_some_and(|front| front.shows(STORED)));
    stops_leave(rt.alloc(), &first, 1)
}

#[test]
fn stops_between_stables_leave_what_the_first_commits_mean(rt: HostRuntime) -> Result<(), Fail> {
    let first = First::run(rt.alloc(), STABLES)?;
    assert!(rt; first.made.len() > 12 && first.are_commits());
    stops_leave(rt.alloc(), &first, 11)
}

#[test]
fn a_call_that_fails_leaves_the_commits_so_far_or_one_more(rt: HostRuntime) -> Result<(), Fail> {
    let first = First::run(rt.alloc(), STORES)?;
    let (opened, last) = calls_of(rt.alloc(), &first)?;
    let mut most = 0;
    for before in opened..last {
        let count = left_where(rt.alloc(), &first, before + 1)?;
        assert!(rt; most <= count && count < 5, "behind {before}");
        most = count;
    }
    // the last call belongs to the last of five
    assert!(rt; most == 4);
    Ok(())
}

// Plays events between two nodes, and loses the first with its disk.
fn left_by<D: Disk + Drop, E: Drop>(
    alloc: Global,
    first: E,
    made: &[Shipped],
    events: &[Happening],
    disk: D,
) -> Result<(u64, D), Fail> {
    let second = standby(alloc, disk)?;
    let lines = Lines::new(alloc);
    Ok(take_over(first, lines, made, events, second))
}

// All is acknowledged when the first node is lost, and the second disk means what all commits mean.
fn taken_over(alloc: Global, first: First) -> Result<MemoryDisk, Fail> {
    let First {
        disk,
        recs,
        fronts,
        made,
    } = first;
    let many = made.len();
    let events = turned(alloc, many as u64)?;
    let (acked, mut left) = left_by(alloc, disk, &made, &events, formatted(alloc, &[])?)?;
    if acked != many as u64 {
        return Err("what is acknowledged".into());
    }
    means_one_of(alloc, &mut left, part(&fronts, many, many), &recs)?;
    Ok(left)
}

#[test]
fn a_run_goes_on_from_the_second_disk(rt: HostRuntime) -> Result<(), Fail> {
    let left = taken_over(rt.alloc(), First::run(rt.alloc(), STABLES)?)?;
    assert!(rt; runs_over(rt.alloc(), left, STABLES)?);
    Ok(())
}
