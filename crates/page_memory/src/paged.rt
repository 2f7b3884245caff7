ghost use Rattle.std.specs.Prelude.{◌≡◌, ℕ, ◌/◌, ◌%◌, ◌<◌, ◌≤◌, Bool, List, IfOk, replicate, slice_index};
ghost use Rattle.page_store.specs.model_kernel.State.{Supply};
ghost use Rattle.data_frames.specs.FrameTable.{empty_table};
ghost use Rattle.page_memory.specs.Words.{AreCleanTrue, AreHeldBlocks, IsSoundTable, stored_word, words_of};

use data_blocks::ShadowTable;
use data_frames::Frames;
use std::alloc::{AllocError as Memory, Global};

/// The memory of one container.
#[derive(Drop)]
pub struct PagedMemory {
    pub(crate) tag: u64,
    pub(crate) pages: u16,
    pub(crate) frames: Frames,
    // the block of each page, 0 for none
    pub(crate) table: [u32; 256],
}

impl PagedMemory {
    /// A memory of no pages with so many frames, from 1 to 256. All memory is taken here, about 1 KiB a frame.
    pub fn new(alloc: Global, frames: u16) -> Result<PagedMemory, Memory>
        requires some { 0 < frames }
        requires few { frames ≤ 256 }
        ensures { IfOk result (λ m. m ≡ record { tag = 0; pages = 0; frames = empty_table frames; table = replicate 256 0 }) }
    {
        Ok(PagedMemory {
            tag: 0,
            pages: 0,
            frames: Frames::new(alloc, frames)?,
            table: [0; 256],
        })
    }

    /// Makes it the memory of one container of so many pages, from 1 to 256, whose blocks are in the table. No page is
    /// resident then: each has its block's words, or the supplier's where it has none.
    pub fn begin(&mut self, tag: u64, pages: u16, table: &ShadowTable)
        requires some { 0 < pages }
        requires few { pages ≤ 256 }
        requires none_past { (page : ℕ) → pages ≤ page → slice_index table.now.0 page ≡ 0 }
        ensures is { self.new ≡ record { tag = tag; pages = pages; frames = empty_table self.old.frames.frames; table = table.now.0 } }
        ensures table { (held : ℕ → Bool) → AreHeldBlocks held table.now.0 → IsSoundTable held self.new }
        ensures clean { (s : Supply) → (words : ℕ → List ℕ) → AreCleanTrue s words self.new }
        ensures words { (s : Supply) → (words : ℕ → List ℕ) → (address : ℕ) → words_of s words self.new address ≡ stored_word s tag words (slice_index table.now.0 (address / 128)) (address / 128) (address % 128) }
    {
        self.tag = tag;
        self.pages = pages;
        self.frames.clear();
        self.table = table.0;
    }

    /// The block of each page, 0 for none.
    pub fn table(&self) -> &[u32; 256]
        ensures { result.now ≡ self.now.table }
    {
        &self.table
    }
}
