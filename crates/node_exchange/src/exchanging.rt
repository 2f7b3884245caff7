// Events, played.
ghost use Rattle.std.specs.Prelude.{◌≡◌, ◌<◌, ℕ, length, take, OnErr, OnOk, Some, slice_get};
ghost use Rattle.node_exchange.specs.Playing.{HasCome, HasPlayed, PlaysOn, TakesOn};
ghost use Rattle.node_exchange.specs.Wires.{AreInOrder, AreInStep, world_of};
ghost use Rattle.node_world.specs.Worlds.{Offer, happens};

use crate::lines::{Lines, Sent};
use edge_disk::Disk;
use node_standby::{Shipped, Standby};
use std::alloc::AllocError;

/// What may happen next between two nodes.
#[derive(Clone, Copy, Debug, PartialEq, Eq)]
pub enum Happening {
    /// The first node offers its next shipment, if it has one.
    Offer,
    /// It sends the packet of a number, if it is offered and not acknowledged.
    Send { number: u64 },
    /// A packet comes to the second node: the newest that was ever sent is 0, the one before it 1, and so on.
    Comes { which: usize },
    /// The second node tells its count.
    Tell,
    /// A count comes to the first node, numbered as packets are.
    Heard { which: usize },
}

// Offers the next of so many shipments.
fn offer_next(lines: &mut Lines, made: u64) -> Result<(), AllocError>
    ensures world { (count : ℕ) → OnOk result (world_of lines.new count made ≡ happens (world_of lines.old count made) Offer) }
    ensures err { OnErr result (lines.new ≡ lines.old) }
{
    let next = lines.offered();
    if next < made {
        lines.offer(next)
    } else {
        Ok(())
    }
}

// The shipment of a packet that was sent.
fn shipped(made: &[Shipped], sent: Sent) -> &Shipped
    requires { sent.place < length made.now }
    ensures { slice_get made.now sent.place ≡ Some result.now }
{
    &made[sent.place as usize]
}

// Lets a packet come, and tells whether it was taken.
fn come<D: Disk>(lines: &Lines, made: &[Shipped], which: usize, standby: &mut Standby<D>) -> bool
    requires step { AreInStep lines.now standby.old.count (length made.now) }
    ensures { HasCome D.Disk made.now lines.now which result standby.old standby.new }
{
    match lines.sent(which) {
        Some(sent) => {
            let shipped = shipped(made, sent);
            if standby.is_next(sent.number) && !standby.may_take(shipped) {
                return false;
            }
            standby.deliver(sent.number, shipped).is_ok()
        }
        None => true,
    }
}

// Plays one event.
fn play<D: Disk>(
    lines: &mut Lines,
    made: &[Shipped],
    event: &Happening,
    standby: &mut Standby<D>,
) -> Result<(), AllocError>
    requires { AreInStep lines.old standby.old.count (length made.now) }
    ensures { PlaysOn D.Disk made.now event.now lines.old lines.new standby.old standby.new result }
{
    match *event {
        Happening::Offer => offer_next(lines, made.len() as u64),
        Happening::Send { number } => lines.send(number),
        Happening::Comes { which } => {
            come(lines, made, which, standby);
            Ok(())
        }
        Happening::Tell => lines.tell(standby.count()),
        Happening::Heard { which } => {
            lines.hear(which);
            Ok(())
        }
    }
}

/// Plays any list of events between two nodes, the first of which made these shipments, over a network that loses, repeats and reorders. It
/// takes memory for what is offered, sent and told; where that runs out it stops behind the events that were played. A shipment that the second
/// node may not take is not taken; there is none where these ship the first commits of a run that it follows.
///
/// Whatever the events are: of each such run the second node keeps the first commits, as many as its count tells, and at each moment each image that
/// a stop leaves of its disk is one of the run's first commits (`takes`). What is acknowledged is at most its count, and that at most what was offered
/// (`order`). The world of the two is what the events make of it, and each packet that came was taken unless the second node can take no more
/// (`played`); where memory ran out that is said of the first of the events (`err`). They may go on from there (`step`).
pub fn exchange<D: Disk>(
    lines: &mut Lines,
    made: &[Shipped],
    events: &[Happening],
    standby: &mut Standby<D>,
) -> Result<(), AllocError>
    requires step { AreInStep lines.old standby.old.count (length made.now) }
    ensures step { AreInStep lines.new standby.new.count (length made.now) }
    ensures played { OnOk result (HasPlayed made.now events.now lines.old lines.new standby.old standby.new) }
    ensures err { OnErr result ((many : ℕ) × HasPlayed made.now (take many events.now) lines.old lines.new standby.old standby.new) }
    ensures order { AreInOrder lines.new standby.new.count (length made.now) }
    ensures takes { TakesOn D.Disk made.now standby.old standby.new }
{
    for event in events {
        if play(lines, made, event, standby).is_err() {
            return Err(AllocError);
        }
    }
    Ok(())
}
