ghost use Rattle.std.specs.Prelude.{◌≡◌, ◌<◌, ◌↔◌, ◌+◌, ◌^◌, ℕ, not, true, false, length, count_by, IfOk, IfSome, IfNone, IsTrue, Contains, ◌==◌};
ghost use Rattle.edge_disk.specs.Disk.{Ticks};
ghost use Rattle.page_store.specs.Memory.{AreWhole, place_at, is_free, is_held, words_at, whole_at};

use crate::page::Page;
use crate::{PageFault, PageStore};
use edge_disk::NoBlocks;
use std::alloc::{AllocError as Memory, Global};

/// A page store in memory, whose reads and writes fail at given numbers.
///
/// Its blocks are numbered from 1. A call whose number is in `fails` fails, counted from 1 over reads and writes.
/// After it each read and write answers `Shut`. No kept record names a block.
#[derive(Drop)]
pub struct MemoryPages {
    pages: Vec<Page>,
    fails: Vec<u64>,
    // how many reads and writes were tried
    calls: u64,
    faults: u64,
    written: u64,
    read_calls: u64,
    ghost whole: { AreWhole pages.items },
    ghost few: { length pages.items < 2 ^ 32 },
}

// Counts one more. A count stands still at the end of its type.
fn count_up(count: &mut u64)
    ensures { Ticks count.old count.new }
{
    *count = count.saturating_add(1);
}

// Counts a call, and tells whether its number is one of those that fail.
fn count_call(calls: &mut u64, fails: &[u64]) -> bool
    ensures count { Ticks calls.old calls.new }
    ensures fails { IsTrue result ↔ Contains fails.now (calls.old + 1) }
{
    let failing = match calls.checked_add(1) {
        Some(number) => fails.contains(&number),
        None => false,
    };
    count_up(calls);
    failing
}

// So many free blocks, all of zeros.
fn free_pages(alloc: Global, blocks: u32) -> Result<Vec<Page>, Memory>
    ensures len { IfOk result (λ pages. length pages.items ≡ blocks) }
    ensures whole { IfOk result (λ pages. AreWhole pages.items) }
    ensures none_held { IfOk result (λ pages. (place : ℕ) → (place_at pages.items place).held ≡ false) }
{
    let mut pages = Vec::with_capacity(alloc, blocks as usize)?;
    for _made in 0..blocks {
        pages.push(Page {
            held: false,
            words: [0; 128],
        })?;
    }
    Ok(pages)
}

// The first place whose block isn't held.
fn first_free(pages: &[Page]) -> Option<usize>
    ensures found { IfSome result (λ place. (place < length pages.now) × ((place_at pages.now place).held ≡ false)) }
    ensures none { IfNone result ((place : ℕ) → place < length pages.now → (place_at pages.now place).held ≡ true) }
{
    for (place, page) in pages.iter().enumerate() {
        if !page.held {
            return Some(place);
        }
    }
    None
}

impl MemoryPages {
    ghost use Rattle.page_store.specs.MemoryPages.{StartsWith};

    /// So many free blocks, and the numbers of the calls that fail. It takes all memory here: about 1 KiB a block.
    pub fn new(alloc: Global, blocks: u32, fails: Vec<u64>) -> Result<MemoryPages, Memory>
        ensures { IfOk result (StartsWith blocks fails.items) }
    {
        Ok(MemoryPages {
            pages: free_pages(alloc, blocks)?,
            fails,
            calls: 0,
            faults: 0,
            written: 0,
            read_calls: 0,
        })
    }

    /// How many blocks are free. It looks at each.
    pub fn free_blocks(&self) -> u32
        ensures { result ≡ count_by is_free self.now.pages.items }
    {
        self.pages.iter().filter(|page| !page.held).count() as u32
    }

    /// Whether the block is held.
    pub fn is_held(&self, block: u32) -> bool
        ensures { result ≡ is_held self.now.pages.items block }
    {
        if block == 0 {
            return false;
        }
        match self.pages.get(block as usize - 1) {
            Some(page) => page.held,
            None => false,
        }
    }
}

impl PageStore for MemoryPages {
    ghost tells = { Unit {0} };

    ghost held = { λ m. is_held m.pages.items };

    ghost kept_names = { λ _ _. false };

    ghost words = { λ m. words_at m.pages.items };

    ghost free = { λ m. count_by is_free m.pages.items };

    ghost is_shut = { λ m. not (m.faults == 0) };

    ghost faults = { λ m. m.faults };

    ghost written = { λ m. m.written };

    ghost read_calls = { λ m. m.read_calls };

    ghost Pages = { λ _ _. Unit {0} };

    fn read_page(&mut self, block: u32, out: &mut [u64; 128]) -> Result<(), PageFault> {
        count_up(&mut self.read_calls);
        if self.faults > 0 {
            return Err(PageFault::Shut);
        }
        if count_call(&mut self.calls, &self.fails) {
            self.faults = 1;
            return Err(PageFault::ReadFault);
        }
        *out = self.pages[block as usize - 1].words;
        Ok(())
    }

    fn write_page(&mut self, block: u32, page: &[u64; 128]) -> Result<(), PageFault> {
        if self.faults > 0 {
            return Err(PageFault::Shut);
        }
        count_up(&mut self.written);
        if count_call(&mut self.calls, &self.fails) {
            self.faults = 1;
            return Err(PageFault::WriteFault);
        }
        self.pages[block as usize - 1].words = *page;
        Ok(())
    }

    fn take_block(&mut self) -> Result<u32, NoBlocks> {
        let Some(place) = first_free(&self.pages) else {
            return Err(NoBlocks { need: 1, free: 0 });
        };
        self.pages[place].held = true;
        Ok(place as u32 + 1)
    }

    fn give_back(&mut self, block: u32) {
        self.pages[block as usize - 1].held = false;
    }

    fn kept(&self, _block: u32) -> bool {
        false
    }

    ghost whole = { λ b n _ held. whole_at b.pages.items n b.whole held };

    ghost stays = { λ _. tt };

    ghost goes_on = { λ _ _ _ _ _. tt };
}
