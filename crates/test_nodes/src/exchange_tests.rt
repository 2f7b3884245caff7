// Events between two nodes, against a plain world of them.
use crate::images::{small_image, standby, used_in};
use crate::made::atlas_at;
use edge_disk::{Disk, MemoryDisk};
use node_exchange::{Happening, Lines, exchange};
use node_shipments::Shipped;
use rand_core::utils::NextWord;
use rand_pcg::Pcg32;
use std::alloc::Global;
use std::test::Fail;

// How many shipments are made.
const MADE: u64 = 6;

// What came of two nodes: how many shipments were offered, acknowledged and taken.
#[derive(Clone, Copy, PartialEq, Eq)]
struct Came {
    offered: u64,
    acked: u64,
    taken: u64,
}

// The plain world: what came of it, the numbers of the packets that were sent and the counts that were told, in their order.
#[derive(Drop)]
struct Plain {
    came: Came,
    packets: Vec<u64>,
    counts: Vec<u64>,
}

// A number of the list, counted from its end.
fn from_end(numbers: &[u64], which: usize) -> Option<u64> {
    numbers.iter().rev().nth(which).copied()
}

impl Plain {
    fn new(alloc: Global) -> Plain {
        let (offered, acked, taken) = (0, 0, 0);
        Plain {
            came: Came {
                offered,
                acked,
                taken,
            },
            packets: Vec::new(alloc),
            counts: Vec::new(alloc),
        }
    }

    fn happens(&mut self, event: Happening) -> Result<(), Fail> {
        let came = &mut self.came;
        match event {
            Happening::Offer => came.offered = MADE.min(came.offered.saturating_add(1)),
            Happening::Send { number } => {
                if came.acked < number && number <= came.offered {
                    self.packets.push(number)?;
                }
            }
            Happening::Comes { which } => {
                if from_end(&self.packets, which) == came.taken.checked_add(1) {
                    came.taken = came.taken.saturating_add(1);
                }
            }
            Happening::Tell => self.counts.push(came.taken)?,
            Happening::Heard { which } => {
                came.acked = came.acked.max(from_end(&self.counts, which).unwrap_or(0));
            }
        }
        Ok(())
    }
}

// A number up to another one.
fn up_to(words: &mut Pcg32, most: usize) -> usize {
    words.next_word() as usize % most.saturating_add(1)
}

// An event: a number that may be offered or not, a packet or a count that was sent or wasn't.
fn drawn_event(words: &mut Pcg32, plain: &Plain) -> Happening {
    match up_to(words, 8) {
        0 => Happening::Offer,
        1 | 2 => Happening::Send {
            number: up_to(words, 7) as u64,
        },
        3..=5 => Happening::Comes {
            which: up_to(words, plain.packets.len()),
        },
        6 => Happening::Tell,
        _ => Happening::Heard {
            which: up_to(words, plain.counts.len()),
        },
    }
}

// So many events that are drawn, and what comes of them.
fn drawn(alloc: Global, seed: u64, many: u64) -> Result<(Vec<Happening>, Came), Fail> {
    let mut words = Pcg32::new(seed, 55);
    let mut plain = Plain::new(alloc);
    let mut events = Vec::new(alloc);
    for _event in 0..many {
        let event = drawn_event(&mut words, &plain);
        plain.happens(event)?;
        events.push(event)?;
    }
    Ok((events, plain.came))
}

// The atlas at so many versions.
fn made(alloc: Global) -> Result<Vec<Shipped>, Fail> {
    let mut all = Vec::new(alloc);
    for version in 1..=MADE {
        all.push(atlas_at(alloc, version)?)?;
    }
    Ok(all)
}

// Plays events from the start, with the disk of the second node, and gives that back.
fn played<D: Disk + Drop>(
    alloc: Global,
    made: &[Shipped],
    events: &[Happening],
    disk: D,
) -> Result<(Came, D), Fail> {
    let mut second = standby(alloc, disk)?;
    let mut lines = Lines::new(alloc);
    let _ = exchange(&mut lines, made, events, &mut second);
    let came = Came {
        offered: lines.offered(),
        acked: lines.acked(),
        taken: second.count(),
    };
    Ok((came, second.into_disk()))
}

// What came of events, and how many records the second image has then, where its disk's calls with these numbers fail.
fn played_where(
    alloc: Global,
    made: &[Shipped],
    events: &[Happening],
    fails: &[u64],
) -> Result<(Came, Option<u16>), Fail> {
    let (came, disk) = played(alloc, made, events, small_image(alloc, fails)?)?;
    Ok((came, used_in(alloc, disk)))
}

// Whether drawn events come to what the plain world says; and how many of the shipments are acknowledged then.
fn drawn_and_played(alloc: Global, made: &[Shipped], seed: u64) -> Result<(bool, u64), Fail> {
    let (events, came) = drawn(alloc, seed, seed.saturating_mul(10))?;
    let (answered, used) = played_where(alloc, made, &events, &[])?;
    let same = answered == came && used.map(u64::from) == Some(came.taken);
    Ok((same, came.acked))
}

#[test]
fn drawn_events_come_to_what_the_plain_world_says(rt: HostRuntime) -> Result<(), Fail> {
    let made = made(rt.alloc())?;
    let mut most = 0;
    for seed in 1..=32 {
        let (same, acked) = drawn_and_played(rt.alloc(), &made, seed)?;
        assert!(rt; same, "{seed}");
        most = most.max(acked);
    }
    // some of these lists come to the end
    assert!(rt; most == MADE);
    Ok(())
}

// So many shipments are offered, sent and taken, and the count is told and heard behind each; then all that is left is offered.
fn without_loss(alloc: Global, many: u64) -> Result<Vec<Happening>, Fail> {
    let mut events = Vec::new(alloc);
    for number in 1..=many {
        events.push(Happening::Offer)?;
        events.push(Happening::Send { number })?;
        events.push(Happening::Comes { which: 0 })?;
        events.push(Happening::Tell)?;
        events.push(Happening::Heard { which: 0 })?;
    }
    Ok(events)
}

// How many calls a disk that works has seen, behind each number of shipments.
fn calls_behind(alloc: Global, made: &[Shipped]) -> Result<Vec<u64>, Fail> {
    let mut calls = Vec::new(alloc);
    for many in 0..=MADE {
        let events = without_loss(alloc, many)?;
        let (_, disk): (Came, MemoryDisk) = played(alloc, made, &events, small_image(alloc, &[])?)?;
        calls.push(disk.calls())?;
    }
    Ok(calls)
}

// Where the call behind so many fails, what was delivered before it is taken and acknowledged, and nothing more; the record of the delivery that failed is there or
// not. The deliveries ended behind these numbers of calls, the opening first.
fn stops_behind(alloc: Global, made: &[Shipped], calls: &[u64], before: u64) -> Result<bool, Fail> {
    let ended = calls.iter().filter(|behind| **behind <= before).count() as u64;
    let events = without_loss(alloc, MADE)?;
    let (came, used) = played_where(alloc, made, &events, &[before.saturating_add(1)])?;
    let all = came.offered == MADE && came.acked == came.taken;
    let used = u64::from(used.ok_or("an image")?).saturating_add(1);
    Ok(
        all && came.taken.saturating_add(1) == ended
            && used.saturating_sub(ended) <= 1
            && ended <= used,
    )
}

#[test]
fn nothing_more_is_taken_behind_a_call_that_failed(rt: HostRuntime) -> Result<(), Fail> {
    let made = made(rt.alloc())?;
    let calls = calls_behind(rt.alloc(), &made)?;
    let (first, last) = (calls.first().ok_or("calls")?, calls.last().ok_or("calls")?);
    for before in *first..*last {
        assert!(rt;
            stops_behind(rt.alloc(), &made, &calls, before)?,
            "behind {before}"
        );
    }
    Ok(())
}
