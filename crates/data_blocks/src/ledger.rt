ghost use Rattle.std.specs.Prelude.{◌≡◌, ◌+◌, ◌-◌, ◌<◌, ◌≤◌, ◌||◌, ◌∷◌, true, false, length, replicate, IfOk, IfErr, OnOk, slice_index, slice_set};
ghost use Rattle.data_blocks.specs.Ledger.{is_held, is_named, unused_blocks};

use crate::{NoBlocks, Pool, Uses};
use std::alloc::{AllocError as Memory, Global};
use std::marker::Model;

/// The blocks of a range of a disk: those that are held, as by page tables, and those that are named, as by kept records.
/// A block that is neither is free.
#[derive(Drop)]
pub struct Ledger {
    // the free blocks
    pool: Pool,
    held: Vec<bool>,
    uses: Uses,
    // whether each block counts as named
    all_named: bool,
}

impl Model for Ledger {
    ghost use Rattle.data_blocks.specs.Ledger.{IsKept, Ledger as Blocks, ledger_of};

    ghost Value = { Blocks };

    ghost view = { λ l. ledger_of l.pool l.held.items l.uses l.all_named };

    ghost invariant = { λ l. IsKept l.pool l.held.items l.uses l.all_named };
}

impl Ledger {
    /// The blocks from `first` up to `end`, `end` left out, and all free. It takes some five bytes for each number below
    /// `end`.
    pub fn new(alloc: Global, first: u32, end: u32) -> Result<Ledger, Memory>
        ensures { IfOk result (λ l. l ≡ record { first = first; end = end; held = replicate end false; names = replicate end 0; all_named = false }) }
    {
        Ok(Ledger {
            pool: Pool::new(alloc, first, end)?,
            held: vec![in alloc; false; end as usize]?,
            uses: Uses::new(alloc, end)?,
            all_named: false,
        })
    }

    /// The same range: none is held, and all count as named. It takes as much memory.
    pub fn all_named(alloc: Global, first: u32, end: u32) -> Result<Ledger, Memory>
        ensures { IfOk result (λ l. l ≡ record { first = first; end = end; held = replicate end false; names = replicate end 0; all_named = true }) }
    {
        Ok(Ledger {
            pool: Pool::none_free(alloc, first, end)?,
            held: vec![in alloc; false; end as usize]?,
            uses: Uses::new(alloc, end)?,
            all_named: true,
        })
    }

    /// How many blocks are free.
    pub fn free(&self) -> u32
        ensures { result ≡ length (unused_blocks self.now) }
    {
        self.pool.free()
    }

    /// Whether the block is named, or counts so.
    pub fn is_named(&self, block: u32) -> bool
        ensures { result ≡ is_named self.now block }
    {
        self.all_named || self.uses.is_named(block)
    }

    /// Takes the lowest free block: it is held from now on. Where none is free it answers that one is needed and none is
    /// there, and changes nothing.
    pub fn take_block(&mut self) -> Result<u32, NoBlocks>
        ensures value { IfOk result (λ n. self.new ≡ record self.old { held = slice_set self.old.held n true }) }
        ensures range { IfOk result (λ n. (self.old.first ≤ n) × (n < self.old.end)) }
        ensures lowest { IfOk result (λ n. unused_blocks self.old ≡ n ∷ unused_blocks self.new) }
        ensures unused { IfOk result (λ n. (is_held self.old n || is_named self.old n) ≡ false) }
        ensures fewer { OnOk result (length (unused_blocks self.new) + 1 ≡ length (unused_blocks self.old)) }
        ensures none { IfErr result (λ e. (length (unused_blocks self.old) ≡ 0) × (e ≡ record { need = 1; free = 0 }) × (self.new ≡ self.old)) }
    {
        let block = self.pool.take_block()?;
        self.held[block as usize] = true;
        Ok(block)
    }

    /// Holds this block of the range, which isn't free any more.
    pub fn hold(&mut self, block: u32)
        requires { (self.old.first ≤ block) × (block < self.old.end) }
        ensures { self.new ≡ record self.old { held = slice_set self.old.held block true } }
    {
        let at = block as usize;
        self.held[at] = true;
        if self.pool.is_free(block) {
            self.pool.take_this(block);
        }
    }

    /// Ends that each block counts as named: a block of the range that is neither held nor named is free from now on. It looks
    /// once at each block.
    pub fn end_all_named(&mut self)
        requires { self.old.all_named ≡ true }
        ensures { self.new ≡ record self.old { all_named = false } }
    {
        for block in (self.pool.first..self.pool.end).rev() {
            if !self.held[block as usize] && !self.uses.is_named(block) {
                self.pool.give_back(block);
            }
        }
        self.all_named = false;
    }

    /// Gives back a block of the range that is held. It is free from now on, unless it is named.
    pub fn give_back(&mut self, block: u32)
        requires range { (self.old.first ≤ block) × (block < self.old.end) }
        requires held { is_held self.old block ≡ true }
        ensures { self.new ≡ record self.old { held = slice_set self.old.held block false } }
    {
        self.held[block as usize] = false;
        if !self.all_named && !self.uses.is_named(block) {
            self.pool.give_back(block);
        }
    }

    /// The block of the range is named once more, and isn't free any more.
    pub fn name(&mut self, block: u32)
        requires range { (self.old.first ≤ block) × (block < self.old.end) }
        requires few { slice_index self.old.names block < u32.MAX }
        ensures { self.new ≡ record self.old { names = slice_set self.old.names block (slice_index self.old.names block + 1) } }
    {
        let free = self.pool.is_free(block);
        self.uses.name(block);
        if free {
            self.pool.take_this(block);
        }
    }

    /// The block of the range, which is named, is named once less. Where that was the last time it is free, unless it is
    /// held.
    pub fn unname(&mut self, block: u32)
        requires range { (self.old.first ≤ block) × (block < self.old.end) }
        requires named { 0 < slice_index self.old.names block }
        ensures { self.new ≡ record self.old { names = slice_set self.old.names block (slice_index self.old.names block - 1) } }
    {
        self.uses.unname(block);
        if !self.held[block as usize] && !self.all_named && !self.uses.is_named(block) {
            self.pool.give_back(block);
        }
    }
}
