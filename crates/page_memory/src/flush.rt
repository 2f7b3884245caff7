ghost use Rattle.std.specs.Prelude.{◌≡◌, ◌≤◌, ◌+◌, ℕ, false, IfErr, OnOk, is_some};
ghost use Rattle.page_store.specs.model_kernel.State.{Supply};
ghost use Rattle.page_store.specs.Pages.{IsWriteFault};
ghost use Rattle.data_frames.specs.FrameTable.{changed_at, page_at};
ghost use Rattle.page_memory.specs.Words.{AreCleanTrue, IsSoundTable, need_of, needs_block};
ghost use Rattle.page_memory.specs.Calls.{FlushCounts, IsCausedIn, KeepsIn, KeepsPages, Stands};

use crate::paged::PagedMemory;
use page_store::{PageFault, PageStore};

/// How many pages the table has room for.
const TABLE_PAGES: u16 = 256;

impl PagedMemory {
    // Whether a page is changed and needs a new block.
    fn needs<B: PageStore>(&self, store: &B, page: u8) -> bool
        ensures { result ≡ needs_block (B.kept_names store.now) self.now page }
    {
        let block = self.table[page as usize];
        self.frames.is_changed(page) && (block == 0 || store.kept(block))
    }

    /// How many changed resident pages need a new block: they have none, or a kept record names it. It looks at each of
    /// the 256 pages.
    #[tactic(auto, using(crate::proofs::Saved::need_more, crate::proofs::Saved::need_none))]
    pub fn need<B: PageStore>(&self, store: &B) -> u32
        ensures { result ≡ need_of (B.kept_names store.now) self.now }
    {
        let mut need = 0;
        for page in 0..TABLE_PAGES {
            if self.needs(store, page as u8) {
                need += 1;
            }
        }
        need
    }

    /// Writes every changed resident page to its own block, or to a new one where it needs one, and takes its changed
    /// mark. Every resident page stays resident. As many blocks have to be free as `need` counts.
    ///
    /// It answers `WriteFault` where a write failed, and `Shut` where a call of the store failed before and a page is
    /// changed; the pages that were written by then aren't changed any more. It looks at each of the 256 pages, and makes
    /// a write for each that is changed.
    pub fn flush<B: PageStore>(&mut self, store: &mut B) -> Result<(), PageFault>
        requires table { IsSoundTable (B.held store.old) self.old }
        requires room { need_of (B.kept_names store.old) self.old ≤ B.free store.old }
        ensures stands { B.tells → (s : Supply) → AreCleanTrue s (B.words store.old) self.old → Stands s (B.words store.old) (B.words store.new) self.old self.new }
        ensures free { OnOk result (B.free store.old ≤ B.free store.new + need_of (B.kept_names store.old) self.old) }
        ensures unchanged { OnOk result ((page : ℕ) → changed_at self.new.frames page ≡ false) }
        ensures residents { (page : ℕ) → is_some (page_at self.new.frames page) ≡ is_some (page_at self.old.frames page) }
        ensures table { IsSoundTable (B.held store.new) self.new }
        ensures others { KeepsIn B.PageStore self.old self.new store.old store.new }
        ensures pages { KeepsPages (B.kept_names store.old) self.old self.new }
        ensures fault { IfErr result IsWriteFault }
        ensures cause { IfErr result (IsCausedIn B.PageStore store.old store.new) }
        ensures counts { FlushCounts B.PageStore self.old result store.old store.new }
        ensures same_shut { OnOk result (B.is_shut store.new ≡ B.is_shut store.old) }
        ensures between { B.Pages store.old store.new }
    {
        for page in 0..TABLE_PAGES {
            self.save(store, page as u8)?;
        }
        Ok(())
    }
}
