// The blocks of a disk in memory, with the writes and syncs that led to them.
ghost use Rattle.std.specs.Prelude.{◌≡◌, ◌≤◌, ◌<◌, ◌^◌, ◌↔◌, [], length, take, fold, IfOk, IsTrue, vec_capacity};
ghost use Rattle.edge_disk.specs.Image.{IsImage};
ghost use Rattle.edge_disk.specs.Kept.{EndsWithSync, AreSound, AreSound-prop, IsSound, IsTorn, MayLeave, filled, shown, standing};

use crate::calls::{Call, Torn, count_up};
use std::alloc::{AllocError, Global};

#[derive(Drop)]
pub(crate) struct Tape {
    // The blocks at the start, and as they read now.
    pub first: Vec<[u8; 1024]>,
    pub blocks: Vec<[u8; 1024]>,
    // The writes and syncs that were begun while there was room.
    pub calls: Vec<Call>,
    pub room: u32,
    // How many writes and syncs were begun.
    pub clock: u64,
    ghost countable: { length blocks.items < 2 ^ 32 },
    ghost shows: { blocks.items ≡ (standing first.items calls.items).reading },
    ghost readable: { MayLeave (standing first.items calls.items) blocks.items },
    ghost whole: { IsImage (length first.items) first.items },
    ghost sound: { AreSound (length first.items) calls.items } by { AreSound-prop (length first.items) calls.items },
    ghost roomy: { room ≤ vec_capacity calls },
    ghost counted: { length calls.items ≤ clock },
    ghost all_kept: { length calls.items < room → clock ≡ length calls.items },
}

impl Tape {
    ghost use Rattle.edge_disk.specs.Tape.{Begins};

    pub fn new(alloc: Global, blocks: Vec<[u8; 1024]>, room: u32) -> Result<Tape, AllocError>
        requires few { length blocks.items < 2 ^ 32 }
        requires whole { IsImage (length blocks.items) blocks.items }
        ensures first { IfOk result (λ tape. tape.first.items ≡ blocks.items) }
        ensures blocks { IfOk result (λ tape. tape.blocks.items ≡ blocks.items) }
        ensures calls { IfOk result (λ tape. tape.calls.items ≡ []) }
        ensures room { IfOk result (λ tape. tape.room ≡ room) }
        ensures clock { IfOk result (λ tape. tape.clock ≡ 0) }
    {
        Ok(Tape {
            first: Vec::from_slice(alloc, &blocks)?,
            blocks,
            calls: Vec::with_capacity(alloc, room as usize)?,
            room,
            clock: 0,
        })
    }

    // Begins a call. It is kept and shows in the blocks, where there is room.
    pub fn begin(&mut self, call: Call) -> bool
        requires { IsSound (length self.old.blocks.items) call }
        ensures begins { Begins call self.old self.new }
        ensures kept { IsTrue result ↔ (length self.old.calls.items < self.old.room) }
    {
        count_up(&mut self.clock);
        if self.calls.len() >= self.room as usize {
            return false;
        }
        show(&mut self.blocks, &call);
        self.calls.push(call).unwrap();
        true
    }

    // What a stop at that moment left.
    pub fn left_at(
        &self,
        alloc: Global,
        moment: u64,
        torn: Torn,
    ) -> Result<Vec<[u8; 1024]>, AllocError>
        ensures torn { IfOk result (λ blocks. IsTorn torn (standing self.now.first.items (take moment self.now.calls.items)) blocks.items) }
        ensures whole { IfOk result (λ blocks. IsImage (length self.now.first.items) blocks.items) }
    {
        let count = self.calls.len().min(moment as usize);
        torn_blocks(alloc, &self.first, &self.calls[..count], torn)
    }
}

// The blocks as a stop after these calls left them.
fn torn_blocks(
    alloc: Global,
    first: &[[u8; 1024]],
    calls: &[Call],
    torn: Torn,
) -> Result<Vec<[u8; 1024]>, AllocError>
    requires whole { IsImage (length first.now) first.now }
    requires sound { AreSound (length first.now) calls.now }
    ensures torn { IfOk result (λ blocks. IsTorn torn (standing first.now calls.now) blocks.items) }
    ensures whole { IfOk result (λ blocks. IsImage (length first.now) blocks.items) }
{
    let (synced, since) = calls.split_at(end_of_last_sync(calls));
    let mut image = Vec::from_slice(alloc, first)?;
    show_all(&mut image, synced);
    match torn {
        Torn::Old => {}
        Torn::New => show_all(&mut image, since),
        Torn::Fill(byte) => fill_all(&mut image, since, byte),
    }
    Ok(image)
}

// Carries out a call on the blocks.
fn show(blocks: &mut Vec<[u8; 1024]>, call: &Call)
    requires { IsSound (length blocks.old.items) call.now }
    ensures { blocks.new.items ≡ shown blocks.old.items call.now }
{
    if let Call::Write { at, block } = call {
        blocks[*at as usize] = *block;
    }
}

fn show_all(blocks: &mut Vec<[u8; 1024]>, calls: &[Call])
    requires { AreSound (length blocks.old.items) calls.now }
    ensures { blocks.new.items ≡ fold shown blocks.old.items calls.now }
{
    for call in calls {
        show(blocks, call);
    }
}

// Fills the block that a call wrote.
fn fill(blocks: &mut Vec<[u8; 1024]>, call: &Call, byte: u8)
    requires { IsSound (length blocks.old.items) call.now }
    ensures { blocks.new.items ≡ filled byte blocks.old.items call.now }
{
    match call {
        Call::Write { at, .. } | Call::FailedWrite { at } => {
            blocks[*at as usize] = [byte; 1024];
        }
        Call::Sync | Call::FailedSync => {}
    }
}

fn fill_all(blocks: &mut Vec<[u8; 1024]>, calls: &[Call], byte: u8)
    requires { AreSound (length blocks.old.items) calls.now }
    ensures filled { blocks.new.items ≡ fold (filled byte) blocks.old.items calls.now }
    ensures whole { IsImage (length blocks.old.items) blocks.old.items → IsImage (length blocks.old.items) blocks.new.items }
{
    for call in calls {
        fill(blocks, call, byte);
    }
}

// How many of the calls end with the last sync that succeeded.
fn end_of_last_sync(calls: &[Call]) -> usize
    ensures { EndsWithSync calls.now result }
{
    let mut end = 0;
    for (i, call) in calls.iter().enumerate() {
        if let Call::Sync = call {
            end = i + 1;
        }
    }
    end
}
