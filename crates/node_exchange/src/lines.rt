// What lies between two nodes, and the first one's sender.
ghost use Rattle.std.specs.Prelude.{◌≡◌, ◌≤◌, ◌∷◌, ℕ, [], OnOk, OnErr, Some, option_map, slice_get};
ghost use Rattle.node_exchange.specs.Wires.{AreInStep, hearing_in, sent_as, sent_in};
ghost use Rattle.node_world.specs.Worlds.{offered, packet_in, with_offer};

use node_world::Sender;
use std::alloc::{AllocError, Global};
use std::collections::VecDeque;
use std::marker::Model;

/// A packet that was sent: the number of its shipment, and the place of that in the list of all shipments.
#[derive(Clone, Copy, Debug, PartialEq, Eq)]
pub struct Sent {
    pub number: u64,
    pub place: u64,
}

/// The first node's sender, and every packet and every count that was ever sent, the newest first. Shipments are known by their places in the
/// list of all.
#[derive(Drop)]
pub struct Lines {
    sender: Sender<u64>,
    offers: u64,
    packets: VecDeque<Sent>,
    counts: VecDeque<u64>,
}

impl Model for Lines {
    ghost use Rattle.std.specs.Prelude.{◌≡◌, map};
    ghost use Rattle.node_world.specs.Worlds.{offered};
    ghost use Rattle.node_exchange.specs.Wires.{Wires, sent_as};

    ghost Value = { Wires };

    ghost view = { λ a. record { sender = a.sender; packets = map sent_as a.packets.items; counts = a.counts.items } };

    ghost invariant = { λ a. a.offers ≡ offered a.sender };
}

impl Lines {
    /// Nothing was offered and sent. With a standby that took nothing two nodes are in step, however many shipments are made.
    pub fn new(alloc: Global) -> Lines
        ensures empty { result ≡ record { sender = record { acked = 0; waiting = [] }; packets = []; counts = [] } }
        ensures step { (made : ℕ) → AreInStep result 0 made }
    {
        Lines {
            sender: Sender::new(alloc),
            offers: 0,
            packets: VecDeque::new(alloc),
            counts: VecDeque::new(alloc),
        }
    }

    /// How many shipments are acknowledged.
    pub fn acked(&self) -> u64
        ensures { result ≡ self.now.sender.acked }
    {
        self.sender.acked()
    }

    /// How many were offered.
    pub fn offered(&self) -> u64
        ensures { result ≡ offered self.now.sender }
    {
        self.offers
    }

    // Offers the shipment at a place.
    pub(crate) fn offer(&mut self, place: u64) -> Result<(), AllocError>
        ensures offered { OnOk result (self.new ≡ record self.old { sender = with_offer self.old.sender place }) }
        ensures err { OnErr result (self.new ≡ self.old) }
    {
        let number = self.sender.offer(place)?;
        self.offers = number;
        Ok(())
    }

    // Sends the packet of a number, if the sender has it.
    pub(crate) fn send(&mut self, number: u64) -> Result<(), AllocError>
        ensures sent { OnOk result (self.new ≡ record self.old { packets = sent_in self.old.packets number (packet_in self.old.sender number) }) }
        ensures err { OnErr result (self.new ≡ self.old) }
    {
        let place = match self.sender.packet(number) {
            Some(place) => *place,
            None => return Ok(()),
        };
        match self.packets.push_front(Sent { number, place }) {
            Ok(()) => Ok(()),
            Err(_) => Err(AllocError),
        }
    }

    // A packet that was ever sent.
    pub(crate) fn sent(&self, which: usize) -> Option<Sent>
        ensures { option_map sent_as result ≡ slice_get self.now.packets which }
    {
        self.packets.get(which).copied()
    }

    // The count is told.
    pub(crate) fn tell(&mut self, count: u64) -> Result<(), AllocError>
        ensures told { OnOk result (self.new ≡ record self.old { counts = count ∷ self.old.counts }) }
        ensures err { OnErr result (self.new ≡ self.old) }
    {
        match self.counts.push_front(count) {
            Ok(()) => Ok(()),
            Err(_) => Err(AllocError),
        }
    }

    // A count that was ever told.
    fn told(&self, which: usize) -> Option<u64>
        ensures { result ≡ slice_get self.now.counts which }
    {
        self.counts.get(which).copied()
    }

    // A count that was ever told is heard, if there is one.
    pub(crate) fn hear(&mut self, which: usize)
        requires { (count : ℕ) → slice_get self.old.counts which ≡ Some count → count ≤ offered self.old.sender }
        ensures { self.new ≡ record self.old { sender = hearing_in self.old.sender (slice_get self.old.counts which) } }
    {
        if let Some(count) = self.told(which) {
            self.sender.heard(count);
        }
    }
}
