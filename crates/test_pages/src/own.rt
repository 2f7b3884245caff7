ghost use Rattle.std.specs.Prelude.{◌≡◌, ◌*◌, ◌/◌, ◌%◌, ◌<◌, ◌≤◌, ℕ, IfOk, OnErr, OnOk};
ghost use Rattle.base_types.specs.declared.instructions.Condition.TheVariants.{Running as RunningNow};
ghost use Rattle.page_store.specs.model_kernel.Words.{put};
ghost use Rattle.edge_managers.specs.Managers.{counted_word};
ghost use Rattle.act_alone.specs.model_acts.Views.{IsReadyLocus};
ghost use Rattle.act_alone.specs.Loci.{locus_of};
ghost use Rattle.test_pages.specs.declared.own.TheConstants.{PAGES, TAG};
ghost use Rattle.test_pages.specs.Own.{own_words, IsOwn};

use act_alone::{Head, Locus};
use act_look::look;
use base_types::{Answer, Instr, PAGE_WORDS};
use data_blocks::ShadowTable;
use edge_managers::{CountedWords, EveryVersions, Gate};
use page_memory::PagedMemory;
use page_store::{MemoryPages, PageFault};
use std::alloc::{AllocError as Memory, Global};

/// The tag for the supplier's words.
pub const TAG: u64 = 1000;

/// The pages of the container.
pub const PAGES: u16 = 5;

/// The memory of a container of five pages, over a page store in memory of its own.
#[derive(Drop)]
pub struct OwnPages {
    memory: PagedMemory,
    store: MemoryPages,
    ghost own: { IsOwn TAG PAGES store memory },
}

impl OwnPages {
    /// A memory of the supplier's words with so many frames, over a store with so many blocks whose calls with these
    /// numbers fail.
    pub fn new(alloc: Global, frames: u16, blocks: u32, fails: Vec<u64>) -> Result<OwnPages, Memory>
        requires some { 0 < frames }
        requires few { frames ≤ 256 }
        ensures { IfOk result (λ own. (address : ℕ) → own_words own.store own.memory address ≡ counted_word TAG (address / PAGE_WORDS) (address % PAGE_WORDS)) }
    {
        let mut memory = PagedMemory::new(alloc, frames)?;
        let store = MemoryPages::new(alloc, blocks, fails)?;
        memory.begin(TAG, PAGES, &ShadowTable::new());
        Ok(OwnPages { memory, store })
    }

    /// Reads the word at an address.
    pub fn load(&mut self, address: u64) -> Result<u64, PageFault>
        requires { address < PAGES * PAGE_WORDS }
        ensures word { IfOk result (λ word. word ≡ own_words self.old.store self.old.memory address) }
        ensures same { own_words self.new.store self.new.memory ≡ own_words self.old.store self.old.memory }
    {
        let gate = Gate::new(CountedWords, EveryVersions);
        self.memory.load(&mut self.store, &gate, address)
    }

    /// Writes the word at an address.
    pub fn store(&mut self, address: u64, word: u64) -> Result<(), PageFault>
        requires { address < PAGES * PAGE_WORDS }
        ensures written { OnOk result (own_words self.new.store self.new.memory ≡ put (own_words self.old.store self.old.memory) address word) }
        ensures failed { OnErr result (own_words self.new.store self.new.memory ≡ own_words self.old.store self.old.memory) }
    {
        let gate = Gate::new(CountedWords, EveryVersions);
        self.memory.store(&mut self.store, &gate, address, word)
    }

    /// Writes all changed pages to their blocks. None where the blocks don't suffice.
    pub fn flush(&mut self) -> Option<Result<(), PageFault>>
        ensures { own_words self.new.store self.new.memory ≡ own_words self.old.store self.old.memory }
    {
        if self.memory.need(&self.store) > self.store.free_blocks() {
            return None;
        }
        Some(self.memory.flush(&mut self.store))
    }

    /// The look of a load or a store that the locus wants, at the container with this head. None where it wants another
    /// act, or where the head is not of this memory.
    pub fn look(&mut self, locus: &mut Locus, head: &Head) -> Option<Result<Answer, PageFault>>
        requires running { locus.old.condition ≡ RunningNow }
        requires ready { IsReadyLocus (locus_of locus.old) }
        ensures ready { IsReadyLocus (locus_of locus.new) }
    {
        if head.tag != TAG || head.pages != PAGES {
            return None;
        }
        let act = locus.wants();
        act.other?;
        if act.refused.is_some() {
            return None;
        }
        match act.instr {
            Instr::Load(..) | Instr::Store(..) => {
                let gate = Gate::new(CountedWords, EveryVersions);
                Some(look(
                    locus,
                    head,
                    &mut self.memory,
                    act.instr,
                    &mut self.store,
                    &gate,
                ))
            }
            _ => None,
        }
    }

    /// A store and a load behind it, at the same address.
    pub fn store_and_load(&mut self, address: u64, word: u64) -> Result<u64, PageFault>
        requires { address < PAGES * PAGE_WORDS }
        ensures { IfOk result (λ loaded. loaded ≡ word) }
    {
        self.store(address, word)?;
        self.load(address)
    }
}
