ghost use Rattle.std.specs.Prelude.{◌≡◌, ℕ, ◌+◌, ◌-◌, ◌<◌, ◌↔◌, List, length, slice_index, slice_set, replicate, IsTrue, IfOk};

use std::alloc::{AllocError as Memory, Global};
use std::marker::Model;

/// How often each block below an end is named. A block may be named more than once, as by two records.
#[derive(Drop)]
pub struct Uses {
    counts: Vec<u32>,
}

impl Model for Uses {
    ghost Value = { List ℕ };

    ghost view = { λ u. u.counts.items };
}

impl Uses {
    /// No block below `end` is named. It takes four bytes for each.
    pub fn new(alloc: Global, end: u32) -> Result<Uses, Memory>
        ensures { IfOk result (λ u. u ≡ replicate end 0) }
    {
        Ok(Uses {
            counts: vec![in alloc; 0u32; end as usize]?,
        })
    }

    /// The block is named once more.
    pub fn name(&mut self, block: u32)
        requires range { block < length self.old }
        requires few { slice_index self.old block < u32.MAX }
        ensures { self.new ≡ slice_set self.old block (slice_index self.old block + 1) }
    {
        self.counts[block as usize] += 1;
    }

    /// The block, which is named, is named once less.
    pub fn unname(&mut self, block: u32)
        requires range { block < length self.old }
        requires named { 0 < slice_index self.old block }
        ensures { self.new ≡ slice_set self.old block (slice_index self.old block - 1) }
    {
        self.counts[block as usize] -= 1;
    }

    /// Whether the block is named. A block from the end on isn't.
    pub fn is_named(&self, block: u32) -> bool
        ensures { IsTrue result ↔ (0 < slice_index self.now block) }
    {
        (block as usize) < self.counts.len() && self.counts[block as usize] > 0
    }
}
