ghost use Rattle.std.specs.Prelude.{◌≡◌, ◌≢◌, ◌≤◌, ◌+◌, ◌↔◌, true, false, IfOk, IfErr, OnOk, OnErr, IsErrOf, IsOk};
ghost use Rattle.page_store.specs.model_kernel.State.{Supply};
ghost use Rattle.data_blocks.specs.edge_disk.declared.disk.NoBlocks.{NoBlocks};
ghost use Rattle.data_frames.specs.FrameTable.{changed_at};
ghost use Rattle.page_memory.specs.Words.{AreCleanTrue, IsSoundTable, need_at, needs_block};
ghost use Rattle.page_memory.specs.Calls.{IsCausedIn, IsNoRead, IsWrittenIn, KeepsIn, KeepsPages, Later, Moves, Saves, Stands, WordsStayBut};

use crate::paged::PagedMemory;
use page_store::{PageFault, PageStore};

// Writes a page to a new block, and gives the old one back, if there is one. Where the write fails the new one is given
// back.
pub(crate) fn write_anew<B: PageStore>(
    store: &mut B,
    block: u32,
    words: &[u64; 128],
) -> Result<u32, PageFault>
    requires held { block ≢ 0 → B.held store.old block ≡ true }
    ensures moves { IfOk result (λ n. Moves (B.held store.old) (B.kept_names store.old) (B.held store.new) block n) }
    ensures failed { OnErr result (B.held store.new ≡ B.held store.old) }
    ensures words { B.tells → IfOk result (λ n. B.words store.new n ≡ words.now) }
    ensures same_words { B.tells → WordsStayBut B.PageStore block store.old store.new }
    ensures kept { B.kept_names store.new ≡ B.kept_names store.old }
    ensures free { OnOk result (B.free store.old ≤ B.free store.new + 1) }
    ensures fault { IfErr result IsNoRead }
    ensures some_free { OnOk result (B.free store.old ≢ 0) }
    ensures wanting { (n : NoBlocks) → IsErrOf result (PageFault.NoBlocks n) → store.new ≡ store.old }
    ensures needs { B.free store.old ≡ 0 → IsErrOf result (PageFault.NoBlocks (record { need = 1; free = 0 })) }
    ensures cause { IfErr result (IsCausedIn B.PageStore store.old store.new) }
    ensures later { Later B.PageStore store.old store.new }
    ensures same_shut { OnOk result (B.is_shut store.new ≡ B.is_shut store.old) }
    ensures shut { B.is_shut store.old ≡ true → B.free store.old ≢ 0 → IsErrOf result PageFault.Shut }
    ensures one_write { B.written store.new ≤ B.written store.old + 1 }
    ensures reads { B.read_calls store.new ≡ B.read_calls store.old }
    ensures between { B.Pages store.old store.new }
{
    let fresh = match store.take_block() {
        Ok(fresh) => fresh,
        Err(wanting) => return Err(PageFault::NoBlocks(wanting)),
    };
    if let Err(fault) = store.write_page(fresh, words) {
        store.give_back(fresh);
        return Err(fault);
    }
    if block == 0 {
        return Ok(fresh);
    }
    store.give_back(block);
    Ok(fresh)
}

impl PagedMemory {
    // Writes a changed page to its own block, or to a new one where it has none or a kept record names it, and takes its
    // changed mark. A page that isn't changed stays as it is.
    pub(crate) fn save<B: PageStore>(&mut self, store: &mut B, page: u8) -> Result<(), PageFault>
        requires table { IsSoundTable (B.held store.old) self.old }
        ensures stands { B.tells → (s : Supply) → AreCleanTrue s (B.words store.old) self.old → Stands s (B.words store.old) (B.words store.new) self.old self.new }
        ensures table { IsSoundTable (B.held store.new) self.new }
        ensures others { KeepsIn B.PageStore self.old self.new store.old store.new }
        ensures saves { OnOk result (Saves page self.old self.new) }
        ensures failed { OnErr result (self.new ≡ self.old) }
        ensures pages { KeepsPages (B.kept_names store.old) self.old self.new }
        ensures free { OnOk result (B.free store.old ≤ B.free store.new + need_at (B.kept_names store.old) self.old page) }
        ensures exact { IsErrOf result (PageFault.NoBlocks (record { need = 1; free = 0 })) ↔ ((needs_block (B.kept_names store.old) self.old page ≡ true) × (B.free store.old ≡ 0)) }
        ensures wanting { (n : NoBlocks) → IsErrOf result (PageFault.NoBlocks n) → store.new ≡ store.old }
        ensures still { changed_at self.old.frames page ≡ false → IsOk result × (self.new ≡ self.old) × (store.new ≡ store.old) }
        ensures shut { IsErrOf result PageFault.Shut ↔ ((B.is_shut store.old ≡ true) × IsWrittenIn B.PageStore store.old self.old page) }
        ensures fault { IfErr result IsNoRead }
        ensures cause { IfErr result (IsCausedIn B.PageStore store.old store.new) }
        ensures later { Later B.PageStore store.old store.new }
        ensures same_shut { OnOk result (B.is_shut store.new ≡ B.is_shut store.old) }
        ensures one_write { B.written store.new ≤ B.written store.old + 1 }
        ensures reads { B.read_calls store.new ≡ B.read_calls store.old }
        ensures between { B.Pages store.old store.new }
    {
        if !self.frames.is_changed(page) {
            return Ok(());
        }
        let (words, _changed) = self.frames.copy_out(page);
        let block = self.table[page as usize];
        if block != 0 && !store.kept(block) {
            store.write_page(block, &words)?;
            self.frames.clean(page);
            return Ok(());
        }
        let fresh = write_anew(store, block, &words)?;
        self.table[page as usize] = fresh;
        self.frames.clean(page);
        Ok(())
    }
}
