ghost use Rattle.std.specs.Prelude.{◌≡◌, ◌≢◌, ◌≤◌, ◌+◌, ◌||◌, ℕ, Bool, true, false, List, length, if◌then◌else◌, OnOk, IfOk, IfErr, IsTrue};
ghost use Rattle.model_kernel.specs.Words.{put};
ghost use Rattle.edge_disk.specs.Disk.{Ticks};

use crate::PageFault;
use edge_disk::NoBlocks;

/// A store of pages of 128 words in blocks.
pub trait PageStore {
    ghost use Rattle.page_store.specs.Pages.{HasPageCause, IsReadFault, IsWriteFault, SameBlocks, SameCounts, SameWords};

    // whether it tells what its blocks hold
    ghost tells: { Type 0 };

    // whether a block is held
    ghost held: { Self → ℕ → Bool };

    // whether a kept record names a block
    ghost kept_names: { Self → ℕ → Bool };

    // the words of a block that is held or that a kept record names
    ghost words: { Self → ℕ → List ℕ };

    // how many blocks are free
    ghost free: { Self → ℕ };

    // whether a read or a write failed before
    ghost is_shut: { Self → Bool };

    // how often a read or a write failed; this count and the next two stand still at 2^64 - 1
    ghost faults: { Self → ℕ };

    // how many page writes were begun
    ghost written: { Self → ℕ };

    // how often `read_page` was called
    ghost read_calls: { Self → ℕ };

    // From the one to the other nothing but calls of this trait were made. What a store promises of all that lies
    // between, as of stops of the machine, follows from it.
    ghost Pages: { Self → Self → Type 0 };

    /// Reads the page in a block that is held or that a kept record names.
    ///
    /// It answers `ReadFault` where the read failed, and `Shut` where an earlier call failed; `out` is then
    /// anything.
    fn read_page(&mut self, block: u32, out: &mut [u64; 128]) -> Result<(), PageFault>
        requires named { IsTrue (held self.old block || kept_names self.old block) }
        ensures words { tells → OnOk result (out.new ≡ words self.old block) }
        ensures same_words { tells → SameWords held kept_names words (λ n. ⊥) self.old self.new }
        ensures same_blocks { SameBlocks held free self.old self.new }
        ensures kept { kept_names self.new ≡ kept_names self.old }
        ensures cause { HasPageCause (faults self.old) (faults self.new) (is_shut self.old) (is_shut self.new) result }
        ensures fault { IfErr result IsReadFault }
        ensures reads { Ticks (read_calls self.old) (read_calls self.new) }
        ensures writes { written self.new ≡ written self.old }
        ensures between { Pages self.old self.new };

    /// Writes a page to a block that is held and that no kept record names.
    ///
    /// It answers `WriteFault` where the write failed, and `Shut` where an earlier call failed; after a fault the
    /// block has any words.
    fn write_page(&mut self, block: u32, page: &[u64; 128]) -> Result<(), PageFault>
        requires held { held self.old block ≡ true }
        requires not_kept { kept_names self.old block ≡ false }
        ensures words { tells → OnOk result (words self.new block ≡ page.now) }
        ensures same_words { tells → SameWords held kept_names words (λ n. n ≡ block) self.old self.new }
        ensures same_blocks { SameBlocks held free self.old self.new }
        ensures kept { kept_names self.new ≡ kept_names self.old }
        ensures cause { HasPageCause (faults self.old) (faults self.new) (is_shut self.old) (is_shut self.new) result }
        ensures fault { IfErr result IsWriteFault }
        ensures reads { read_calls self.new ≡ read_calls self.old }
        ensures writes { written self.old ≤ written self.new }
        ensures one_write { written self.new ≤ written self.old + 1 }
        ensures between { Pages self.old self.new };

    /// Takes a block that isn't held and that no kept record names. Its number isn't 0.
    ///
    /// Where no block is free it answers that one is needed and none is free, and changes nothing.
    fn take_block(&mut self) -> Result<u32, NoBlocks>
        ensures fresh { IfOk result (λ n. (held self.old n ≡ false) × (kept_names self.old n ≡ false) × (n ≢ 0)) }
        ensures held { IfOk result (λ n. held self.new ≡ put (held self.old) n true) }
        ensures free { OnOk result (free self.new + 1 ≡ free self.old) }
        ensures none { IfErr result (λ e. (free self.old ≡ 0) × (e ≡ record { need = 1; free = 0 }) × (self.new ≡ self.old)) }
        ensures same_words { tells → SameWords held kept_names words (λ n. ⊥) self.old self.new }
        ensures kept { kept_names self.new ≡ kept_names self.old }
        ensures counts { SameCounts is_shut faults written read_calls self.old self.new }
        ensures between { Pages self.old self.new };

    /// Gives a block back that is held: no page table names it any more. It is free from then on, unless a kept
    /// record names it, and then it keeps its words.
    fn give_back(&mut self, block: u32)
        requires { held self.old block ≡ true }
        ensures held { held self.new ≡ put (held self.old) block false }
        ensures free { free self.new ≡ (if kept_names self.old block then free self.old else free self.old + 1) }
        ensures same_words { tells → SameWords held kept_names words (λ n. (n ≡ block) × (kept_names self.old block ≡ false)) self.old self.new }
        ensures kept { kept_names self.new ≡ kept_names self.old }
        ensures counts { SameCounts is_shut faults written read_calls self.old self.new }
        ensures between { Pages self.old self.new };

    /// Whether a kept record names the block.
    fn kept(&self, block: u32) -> bool
        ensures { result ≡ kept_names self.now block };

    // a block that is held or that a kept record names has 128 words
    ghost whole: { (b : Self) (n : ℕ) → tells → IsTrue (held b n || kept_names b n) → length (words b n) ≡ 128 };

    ghost stays: { (b : Self) → Pages b b };

    ghost goes_on: { (a b c : Self) → Pages a b → Pages b c → Pages a c };
}
