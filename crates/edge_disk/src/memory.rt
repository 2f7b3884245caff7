// A disk in memory, which can tell what a stop at any moment of its past leaves.
ghost use Rattle.std.specs.Prelude.{◌≡◌, ◌≤◌, ◌<◌, ◌^◌, ◌↔◌, ◌⊎◌, ◌+◌, [], length, replicate, slice_set, IfOk, OnOk, OnErr, IsErr, IsTrue, Contains};
ghost use Rattle.edge_disk.specs.Disk.{HasCause, LeavesNoMore, Only, Tears, Ticks};
ghost use Rattle.edge_disk.specs.Disks.{TimePasses};
ghost use Rattle.edge_disk.specs.Image.{IsImage, SameOutside, block_at};
ghost use Rattle.edge_disk.specs.Kept.{IsTorn, MayLeave, after};
ghost use Rattle.edge_disk.specs.KeptLaws.{IsImage-from_kept, MayLeave-since_now, MightHaveLeft-earlier, MightHaveLeft-now};

use crate::calls::{Call, Torn, count_up};
use crate::tape::Tape;
use crate::{BLOCK_BYTES, Disk, DiskFault};
use std::alloc::{AllocError, Global};

/// A disk in memory.
///
/// A call whose number is in `fails` fails, counted from 1 over reads, writes and syncs, and so does a write or a
/// sync once `room` of them are kept. No other call fails. A write that fails by its number leaves its block pending,
/// and it reads as before; one that fails for want of room changes nothing.
#[derive(Drop)]
pub struct MemoryDisk {
    alloc: Global,
    tape: Tape,
    fails: Vec<u64>,
    // How many calls were begun, and how many of them failed.
    calls: u64,
    faults: u64,
}

impl MemoryDisk {
    ghost use Rattle.edge_disk.specs.MemoryDisk.{StartsWith, calls_of, moments_of, reading_of, room_of, stood_at};

    /// A disk of zero blocks. It takes all its memory here: about 2 KiB a block, and 1 KiB for each call in `room`.
    pub fn new(
        alloc: Global,
        blocks: u32,
        room: u32,
        fails: Vec<u64>,
    ) -> Result<MemoryDisk, AllocError>
        ensures { IfOk result (StartsWith (replicate blocks (replicate BLOCK_BYTES 0)) room fails.items) }
    {
        MemoryDisk::with_blocks(alloc, zero_blocks(alloc, blocks)?, room, fails)
    }

    fn with_blocks(
        alloc: Global,
        blocks: Vec<[u8; 1024]>,
        room: u32,
        fails: Vec<u64>,
    ) -> Result<MemoryDisk, AllocError>
        requires few { length blocks.items < 2 ^ 32 }
        requires whole { IsImage (length blocks.items) blocks.items }
        ensures { IfOk result (StartsWith blocks.items room fails.items) }
    {
        Ok(MemoryDisk {
            alloc,
            tape: Tape::new(alloc, blocks, room)?,
            fails,
            calls: 0,
            faults: 0,
        })
    }

    /// A new disk as a stop at that moment leaves this one, with nothing pending, the same room and no failing call.
    /// A moment is the number of writes and syncs that have ended by then.
    pub fn crash(&self, moment: u64, torn: Torn) -> Result<MemoryDisk, AllocError>
        requires { moment ≤ moments_of self.now }
        ensures torn { IfOk result (λ disk. IsTorn torn (stood_at self.now moment) (reading_of disk)) }
        ensures may { IfOk result (λ disk. MayLeave (stood_at self.now moment) (reading_of disk)) }
        ensures starts { IfOk result (λ disk. StartsWith (reading_of disk) (room_of self.now) [] disk) }
    {
        let blocks = self.tape.left_at(self.alloc, moment, torn)?;
        MemoryDisk::with_blocks(self.alloc, blocks, self.tape.room, Vec::new(self.alloc))
    }

    /// How many writes and syncs were begun, those that failed too. It stands still at 2^64 - 1.
    pub fn moments(&self) -> u64
        ensures { result ≡ moments_of self.now }
    {
        self.tape.clock
    }

    /// How many calls were begun, those that failed too. It stands still at 2^64 - 1.
    pub fn calls(&self) -> u64
        ensures { result ≡ calls_of self.now }
    {
        self.calls
    }
}

fn zero_blocks(alloc: Global, count: u32) -> Result<Vec<[u8; 1024]>, AllocError>
    ensures { IfOk result (λ blocks. blocks.items ≡ replicate count (replicate BLOCK_BYTES 0)) }
{
    let mut blocks = Vec::with_capacity(alloc, count as usize)?;
    for _made in 0..count {
        blocks.push([0; 1024])?;
    }
    Ok(blocks)
}

// Counts a call, and tells whether its number is one of those that fail.
fn count_call(calls: &mut u64, fails: &[u64]) -> bool
    ensures count { Ticks calls.old calls.new }
    ensures fails { IsTrue result ↔ Contains fails.now (calls.old + 1) }
{
    let failing = match calls.checked_add(1) {
        Some(number) => fails.contains(&number),
        None => false,
    };
    count_up(calls);
    failing
}

// Counts a fault.
fn fail(faults: &mut u64) -> Result<(), DiskFault>
    ensures count { Ticks faults.old faults.new }
    ensures err { IsErr result }
{
    count_up(faults);
    Err(DiskFault)
}

impl Disk for MemoryDisk {
    ghost use Rattle.edge_disk.specs.MemoryDisk.{Counts, GoesOn, IsFull, IsNextFailing, faults_of, left_since_of, may_leave_of, memory_disks, moments_of, reading_of, stands, stands_after_failing};

    ghost tells = { Unit {0} };

    ghost block_count = { λ d. length (reading_of d) };

    ghost reading = { reading_of };

    ghost may_leave = { may_leave_of };

    ghost left_since = { left_since_of };

    ghost clock = { moments_of };

    ghost faults = { faults_of };

    ghost countable = { λ d. d.tape.countable };

    ghost reads_now = { λ d told. d.tape.readable };

    ghost counts_now = { λ d t c told le may. MightHaveLeft-now d.tape.first.items d.tape.calls.items d.tape.clock d.tape.counted t c le may };

    ghost only_now = { λ d c told left. MayLeave-since_now d.tape.first.items d.tape.calls.items d.tape.clock d.tape.counted c left };

    ghost counts_later = { λ d s t c told le left. MightHaveLeft-earlier d.tape.first.items d.tape.calls.items d.tape.clock s t c le left };

    ghost whole = { λ d t c told left. IsImage-from_kept d.tape.first.items d.tape.blocks.items d.tape.calls.items d.tape.clock t c d.tape.shows left };

    fn blocks(&self) -> u32 {
        self.tape.blocks.len() as u32
    }

    fn read(&mut self, at: u32, out: &mut [u8; 1024]) -> Result<(), DiskFault>
        requires { at < length (reading_of self.old) }
        ensures count { length (reading_of self.new) ≡ length (reading_of self.old) }
        ensures clock { moments_of self.new ≡ moments_of self.old }
        ensures cause { HasCause (faults_of self.old) (faults_of self.new) result }
        ensures block { OnOk result (out.new ≡ block_at (reading_of self.old) at) }
        ensures reading { reading_of self.new ≡ reading_of self.old }
        ensures stop { LeavesNoMore may_leave_of self.old self.new }
        ensures time { TimePasses memory_disks self.old self.new }

        ensures fails { IsErr result ↔ IsNextFailing self.old }
        ensures counts { Counts result self.old self.new }
        ensures goes_on { GoesOn (stands self.old) self.old self.new }
    {
        if count_call(&mut self.calls, &self.fails) {
            return fail(&mut self.faults);
        }
        *out = self.tape.blocks[at as usize];
        Ok(())
    }

    fn write(&mut self, at: u32, from: &[u8; 1024]) -> Result<(), DiskFault>
        requires { at < length (reading_of self.old) }
        ensures count { length (reading_of self.new) ≡ length (reading_of self.old) }
        ensures clock { Ticks (moments_of self.old) (moments_of self.new) }
        ensures cause { HasCause (faults_of self.old) (faults_of self.new) result }
        ensures block { OnOk result (reading_of self.new ≡ slice_set (reading_of self.old) at from.now) }
        ensures reading { SameOutside (λ n. n ≡ at) (reading_of self.old) (reading_of self.new) }
        ensures stop { Tears may_leave_of at self.old self.new }
        ensures time { TimePasses memory_disks self.old self.new }

        ensures fails { IsErr result ↔ (IsNextFailing self.old ⊎ IsFull self.old) }
        ensures counts { Counts result self.old self.new }
        ensures goes_on { OnOk result (GoesOn (after (stands self.old) (Call.Write at from.now)) self.old self.new) }
        ensures goes_on_err { OnErr result (GoesOn (stands_after_failing (Call.FailedWrite at) self.old) self.old self.new) }
    {
        if count_call(&mut self.calls, &self.fails) {
            let _ = self.tape.begin(Call::FailedWrite { at });
            return fail(&mut self.faults);
        }
        if !self.tape.begin(Call::Write { at, block: *from }) {
            return fail(&mut self.faults);
        }
        Ok(())
    }

    fn sync(&mut self) -> Result<(), DiskFault>
        ensures count { length (reading_of self.new) ≡ length (reading_of self.old) }
        ensures clock { Ticks (moments_of self.old) (moments_of self.new) }
        ensures cause { HasCause (faults_of self.old) (faults_of self.new) result }
        ensures stable { OnOk result (Only (reading_of self.old) (may_leave_of self.new)) }
        ensures unstable { OnErr result (LeavesNoMore may_leave_of self.new self.old) }
        ensures reading { reading_of self.new ≡ reading_of self.old }
        ensures stop { LeavesNoMore may_leave_of self.old self.new }
        ensures time { TimePasses memory_disks self.old self.new }

        ensures fails { IsErr result ↔ (IsNextFailing self.old ⊎ IsFull self.old) }
        ensures counts { Counts result self.old self.new }
        ensures goes_on { OnOk result (GoesOn (after (stands self.old) Call.Sync) self.old self.new) }
        ensures goes_on_err { OnErr result (GoesOn (stands self.old) self.old self.new) }
    {
        if count_call(&mut self.calls, &self.fails) {
            let _ = self.tape.begin(Call::FailedSync);
            return fail(&mut self.faults);
        }
        if !self.tape.begin(Call::Sync) {
            return fail(&mut self.faults);
        }
        Ok(())
    }
}
