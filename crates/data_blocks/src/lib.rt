//! The free blocks of a disk, and the table of the blocks that a container's pages are kept in.
//!
//! The pool keeps one bit for each block, 64 to a word, and remembers the first word that may have a free
//! block. So a block is mostly found in the first word that is looked at, and at worst after one look at each
//! word. Beside the pool a count for each block says how often it is named, as by records that are kept.
#![tactic(auto)]

ghost use Rattle.std.specs.Prelude.{◌≡◌, ◌+◌, ◌<◌, ◌↔◌, [], ◌∷◌, length, slice_index, slice_set, replicate, IsTrue, IfOk, IfErr, OnErr};
ghost use Rattle.data_blocks.specs.Pool.{Pool as Blocks, full_pool, empty_pool, IsFree, IsInRange, with_block, without_block, IsOrdered, Takes, Gives};
ghost use Rattle.data_blocks.specs.ShadowTable.{block_of};

mod bits;
mod ledger;
mod uses;

use bits::{clear_bit, has_bit, lowest_bit, set_bit};
pub use edge_disk::NoBlocks;
pub use ledger::Ledger;
use std::alloc::{AllocError as Memory, Global};
use std::marker::Model;
pub use uses::Uses;

/// The blocks of a range of a disk, each free or in use.
#[derive(Drop)]
pub struct Pool {
    first: u32,
    end: u32,
    // how many blocks are free
    free: u32,
    // a bit for each block, set where it is free
    words: Vec<u64>,
    // no block is free in the words before this one
    hint: usize,
}

impl Model for Pool {
    ghost use Rattle.data_blocks.specs.Pool.{Pool as Blocks};
    ghost use Rattle.data_blocks.specs.Bits.{pool_of, IsSound};

    ghost Value = { Blocks };

    ghost view = { λ p. pool_of p.words.items p.first p.end };

    ghost invariant = { λ p. IsSound p.words.items p.first p.end p.free p.hint };
}

impl Pool {
    /// All blocks from `first` up to `end`, `end` left out, and all free. It takes an eighth of a byte for each
    /// number below `end`.
    pub fn new(alloc: Global, first: u32, end: u32) -> Result<Pool, Memory>
        ensures { IfOk result (λ p. p ≡ full_pool first end) }
    {
        let mut words = vec![in alloc; 0u64; (end / 64 + 1) as usize]?;
        for block in first..end {
            set_bit(&mut words, block);
        }
        Ok(Pool {
            first,
            end,
            free: end.saturating_sub(first),
            words,
            hint: (first / 64) as usize,
        })
    }

    /// The same range, of which no block is free. It takes as much memory.
    pub fn none_free(alloc: Global, first: u32, end: u32) -> Result<Pool, Memory>
        ensures { IfOk result (λ p. p ≡ empty_pool first end) }
    {
        Ok(Pool {
            first,
            end,
            free: 0,
            words: vec![in alloc; 0u64; (end / 64 + 1) as usize]?,
            hint: 0,
        })
    }

    /// How many blocks are free.
    pub fn free(&self) -> u32
        ensures count { result ≡ length self.now.blocks }
        ensures ordered { IsOrdered self.now }
    {
        self.free
    }

    /// Whether the block is one of the range, free or in use.
    pub fn is_in_range(&self, block: u32) -> bool
        ensures { IsTrue result ↔ IsInRange self.now block }
    {
        self.first <= block && block < self.end
    }

    /// Whether a block of the range is free. A block outside the range isn't.
    pub fn is_free(&self, block: u32) -> bool
        ensures { IsTrue result ↔ IsFree self.now block }
    {
        block < self.end && has_bit(&self.words, block)
    }

    /// Takes the lowest free block. Where none is free it answers that one is needed and none is there.
    pub fn take_block(&mut self) -> Result<u32, NoBlocks>
        ensures lowest { IfOk result (λ block. self.old.blocks ≡ block ∷ self.new.blocks) }
        ensures none { OnErr result (self.old.blocks ≡ []) }
        ensures count { IfErr result (λ e. e ≡ record { need = 1; free = 0 }) }
        ensures same { OnErr result (self.new ≡ self.old) }
        ensures takes { IfOk result (λ block. Takes block self.old self.new) }
        ensures first { self.new.first ≡ self.old.first }
        ensures end { self.new.end ≡ self.old.end }
    {
        let Some(lowest) = lowest_bit(&self.words, self.hint) else {
            return Err(NoBlocks { need: 1, free: 0 });
        };
        clear_bit(&mut self.words, lowest);
        self.free -= 1;
        self.hint = (lowest / 64) as usize;
        Ok(lowest)
    }

    /// Takes this block, which is free.
    pub fn take_this(&mut self, block: u32)
        requires { IsFree self.old block }
        ensures value { self.new ≡ record self.old { blocks = without_block block self.old.blocks } }
        ensures takes { Takes block self.old self.new }
    {
        clear_bit(&mut self.words, block);
        self.free -= 1;
    }

    /// Makes a block of the range free again.
    pub fn give_back(&mut self, block: u32)
        requires range { IsInRange self.old block }
        requires taken { ¬ IsFree self.old block }
        ensures value { self.new ≡ record self.old { blocks = with_block block self.old.blocks } }
        ensures gives { Gives block self.old self.new }
    {
        set_bit(&mut self.words, block);
        self.free += 1;
        self.hint = self.hint.min((block / 64) as usize);
    }
}

/// The block that each page of a container is kept in, 0 for none.
#[derive(Clone, Copy, Debug, PartialEq, Eq)]
pub struct ShadowTable(pub [u32; 256]);

impl ShadowTable {
    /// No page has a block.
    pub fn new() -> Self
        ensures { result.0 ≡ replicate 256 0 }
    {
        ShadowTable([0; 256])
    }

    /// The block of the page, if it has one.
    pub fn block(&self, page: u8) -> Option<u32>
        ensures { result ≡ block_of (slice_index self.now.0 page) }
    {
        match self.0[page as usize] {
            0 => None,
            block => Some(block),
        }
    }

    /// Gives the page this block.
    pub fn set(&mut self, page: u8, block: u32)
        requires { 0 < block }
        ensures { self.new.0 ≡ slice_set self.old.0 page block }
    {
        self.0[page as usize] = block;
    }

    /// Leaves the page without a block.
    pub fn clear(&mut self, page: u8)
        ensures { self.new.0 ≡ slice_set self.old.0 page 0 }
    {
        self.0[page as usize] = 0;
    }
}
