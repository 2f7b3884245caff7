// The sender's side.
ghost use Rattle.std.specs.Prelude.{◌≡◌, ◌≤◌, ◌<◌, ◌+◌, ◌-◌, ◌^◌, IfOk, OnOk, OnErr, [], drop, length, option_map};
ghost use Rattle.node_world.specs.Worlds.{Sending, after_heard, offered, packet_in, with_offer};

use std::alloc::{AllocError, Global};
use std::collections::VecDeque;
use std::marker::Model;

// Drops so many from the front.
fn drop_first<T: Drop>(waiting: &mut VecDeque<T>, many: u64)
    requires { many ≤ length waiting.old.items }
    ensures { waiting.new.items ≡ drop many waiting.old.items }
{
    for _ in 0..many {
        let _ = waiting.pop_front();
    }
}

/// What was offered and may be lacking yet at the other end, in order, and how many are acknowledged.
#[derive(Drop)]
pub struct Sender<T: Drop> {
    acked: u64,
    waiting: VecDeque<T>,
}

impl<T: Drop> Model for Sender<T> {
    ghost use Rattle.std.specs.Prelude.{◌+◌, ◌<◌, ◌^◌, length};
    ghost use Rattle.node_world.specs.Worlds.{Sending};

    ghost Value = { Sending T };

    ghost view = { λ s. record { acked = s.acked; waiting = s.waiting.items } };

    ghost invariant = { λ s. s.acked + length s.waiting.items < 2 ^ 64 };
}

impl<T: Drop> Sender<T> {
    /// Nothing was offered.
    pub fn new(alloc: Global) -> Sender<T>
        ensures { result ≡ record { acked = 0; waiting = [] } }
    {
        Sender {
            acked: 0,
            waiting: VecDeque::new(alloc),
        }
    }

    /// Offers a shipment, and answers its number, from 1 on. Where memory runs out nothing is changed.
    pub fn offer(&mut self, shipment: T) -> Result<u64, AllocError>
        ensures number { IfOk result (λ n. n ≡ offered self.new) }
        ensures offered { OnOk result (self.new ≡ with_offer self.old shipment) }
        ensures err { OnErr result (self.new ≡ self.old) }
    {
        let number = self.offered();
        if number == u64::MAX {
            return Err(AllocError);
        }
        match self.waiting.push_back(shipment) {
            Ok(()) => Ok(number + 1),
            Err(_) => Err(AllocError),
        }
    }

    /// The packet with this number: none where it is 0, acknowledged or not yet offered.
    pub fn packet(&self, number: u64) -> Option<&T>
        ensures { option_map (λ p. p.now) result ≡ packet_in self.now number }
    {
        if number <= self.acked {
            return None;
        }
        self.waiting.get((number - self.acked - 1) as usize)
    }

    /// Hears that so many have come: what is at or below the count is dropped.
    pub fn heard(&mut self, count: u64)
        requires { count ≤ offered self.old }
        ensures { self.new ≡ after_heard self.old count }
    {
        if count <= self.acked {
            return;
        }
        drop_first(&mut self.waiting, count - self.acked);
        self.acked = count;
    }

    /// How many are acknowledged.
    pub fn acked(&self) -> u64
        ensures { result ≡ self.now.acked }
    {
        self.acked
    }

    /// How many were offered: below 2^64.
    pub fn offered(&self) -> u64
        ensures value { result ≡ offered self.now }
        ensures few { offered self.now < 2 ^ 64 }
    {
        self.acked + self.waiting.len() as u64
    }
}
