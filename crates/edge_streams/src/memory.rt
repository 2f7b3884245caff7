// A source and a sink in memory, whose calls can be made to fail.
ghost use Rattle.std.specs.Prelude.{◌≡◌, ◌↔◌, ◌⊎◌, ◌+◌, ◌<◌, ◌≤◌, ◌++◌, [], length, min, take, drop, Some, Contains, IsTrue, IsErr, IfOk, OnOk, OnErr};
ghost use Rattle.edge_disk.specs.Counts.{raised, Rose};
ghost use Rattle.edge_streams.specs.Streams.{Takes, Puts};
ghost use Rattle.edge_streams.specs.Memory.{SourceState, SinkState};

use crate::{Sink, SinkFault, Source, SourceFault};
use std::alloc::{AllocError as Memory, Global};
use std::marker::Model;

/// A source of given bytes. Its takes are numbered from 1 on, and those with given numbers fail. The count of takes
/// stays at 2^64 - 1, so from there on each take has that number.
#[derive(Debug, Drop)]
pub struct MemorySource {
    bytes: Vec<u8>,
    at: usize,
    fails: Vec<u64>,
    calls: u64,
    faults: u64,
}

impl Model for MemorySource {
    ghost use Rattle.std.specs.Prelude.{◌≤◌, drop, vec_len};
    ghost use Rattle.edge_streams.specs.Memory.{SourceState};

    ghost Value = { SourceState };

    ghost view = { λ s. record { left = drop s.at s.bytes.items; fails = s.fails.items; calls = s.calls; faults = s.faults } };

    ghost invariant = { λ s. s.at ≤ vec_len s.bytes };
}

impl MemorySource {
    /// A source of these bytes, of which none is taken, and no call made.
    pub fn new(bytes: Vec<u8>, fails: Vec<u64>) -> MemorySource
        ensures { result ≡ record { left = bytes.items; fails = fails.items; calls = 0; faults = 0 } }
    {
        MemorySource {
            bytes,
            at: 0,
            fails,
            calls: 0,
            faults: 0,
        }
    }
}

impl Source for MemorySource {
    ghost left = { λ s. Some s.left };

    ghost faults = { λ s. s.faults };

    fn take(&mut self, out: &mut [u8]) -> Result<usize, SourceFault>
        requires { 0 < length out.old }
        ensures within { IfOk result (λ n. n ≤ length out.new) }
        ensures bytes { Takes (Some self.old.left) (Some self.new.left) result out.new }
        ensures count { self.old.faults ≤ self.new.faults }
        ensures cause { OnErr result (Rose self.old.faults self.new.faults) }

        // It fails exactly where its number says so, and gives as much as there is and as fits.
        ensures fails { IsErr result ↔ Contains self.old.fails (raised self.old.calls) }
        ensures amount { IfOk result (λ n. n ≡ min (length self.old.left) (length out.old)) }
        ensures ok { IfOk result (λ n. self.new ≡ record self.old { left = drop n self.old.left; calls = raised self.old.calls }) }
        ensures err { OnErr result (self.new ≡ record self.old { calls = raised self.old.calls; faults = raised self.old.faults }) }
    {
        self.calls = self.calls.saturating_add(1);
        if is_listed(&self.fails, self.calls) {
            self.faults = self.faults.saturating_add(1);
            return Err(SourceFault);
        }
        let n = copy_front(&self.bytes[self.at..], out);
        self.at += n;
        Ok(n)
    }
}

/// A sink that holds what is put into it, up to a number of bytes. Its puts are numbered from 1 on, and those with given
/// numbers fail. The count of puts stays at 2^64 - 1, so from there on each put has that number.
#[derive(Debug, Drop)]
pub struct MemorySink {
    bytes: Vec<u8>,
    room: u32,
    fails: Vec<u64>,
    calls: u64,
    faults: u64,
}

impl Model for MemorySink {
    ghost use Rattle.std.specs.Prelude.{◌≤◌, vec_len, vec_capacity};
    ghost use Rattle.edge_streams.specs.Memory.{SinkState};

    ghost Value = { SinkState };

    ghost view = { λ s. record { held = s.bytes.items; room = s.room; fails = s.fails.items; calls = s.calls; faults = s.faults } };

    ghost invariant = { λ s. (vec_len s.bytes ≤ s.room) × (s.room ≤ vec_capacity s.bytes) };
}

impl MemorySink {
    /// An empty sink, which reserves `room` bytes, so that no later call takes memory.
    pub fn new(alloc: Global, room: u32, fails: Vec<u64>) -> Result<MemorySink, Memory>
        ensures { IfOk result (λ sink. sink ≡ record { held = []; room = room; fails = fails.items; calls = 0; faults = 0 }) }
    {
        Ok(MemorySink {
            bytes: Vec::with_capacity(alloc, room as usize)?,
            room,
            fails,
            calls: 0,
            faults: 0,
        })
    }

    /// What was put.
    pub fn held(&self) -> &[u8]
        ensures { result.now ≡ self.now.held }
    {
        &self.bytes
    }
}

impl Sink for MemorySink {
    ghost held = { λ s. Some s.held };

    ghost faults = { λ s. s.faults };

    fn put(&mut self, bytes: &[u8]) -> Result<(), SinkFault>
        ensures bytes { Puts (Some self.old.held) (Some self.new.held) result bytes.now }
        ensures count { self.old.faults ≤ self.new.faults }
        ensures cause { OnErr result (Rose self.old.faults self.new.faults) }

        // It fails exactly where its number says so, or the piece has no room, and then puts nothing.
        ensures fails { IsErr result ↔ (Contains self.old.fails (raised self.old.calls)
            ⊎ (self.old.room < length self.old.held + length bytes.now)) }
        ensures ok { OnOk result (self.new ≡ record self.old { held = self.old.held ++ bytes.now; calls = raised self.old.calls }) }
        ensures err { OnErr result (self.new ≡ record self.old { calls = raised self.old.calls; faults = raised self.old.faults }) }
    {
        self.calls = self.calls.saturating_add(1);
        let has_room = bytes.len() <= self.room as usize - self.bytes.len();
        if is_listed(&self.fails, self.calls) || !has_room {
            self.faults = self.faults.saturating_add(1);
            return Err(SinkFault);
        }
        self.bytes.extend_from_slice(bytes).unwrap();
        Ok(())
    }
}

fn is_listed(calls: &[u64], call: u64) -> bool
    ensures { IsTrue result ↔ Contains calls.now call }
{
    calls.contains(&call)
}

// Copies as much as fits, and answers how much that was.
fn copy_front(from: &[u8], to: &mut [u8]) -> usize
    ensures amount { result ≡ min (length from.now) (length to.old) }
    ensures copied { take result to.new ≡ take result from.now }
{
    let n = from.len().min(to.len());
    to[..n].copy_from_slice(&from[..n]);
    n
}
