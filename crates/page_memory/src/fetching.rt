ghost use Rattle.std.specs.Prelude.{◌≡◌, ◌≢◌, ◌↔◌, ◌≤◌, ◌<◌, ◌+◌, ℕ, true, IfOk, IfErr, OnOk, OnErr, IsErrOf, IsOk, None, slice_index};
ghost use Rattle.page_store.specs.model_kernel.State.{Supply};
ghost use Rattle.data_blocks.specs.edge_disk.Disk.{Ticks};
ghost use Rattle.page_store.specs.Pages.{IsReadFault, SameBlocks};
ghost use Rattle.data_frames.specs.FrameTable.{HasEmptyFrame, IsResident, page_at};
ghost use Rattle.page_memory.specs.Words.{AreCleanTrue, IsSoundTable, block_at, stored_word};
ghost use Rattle.page_memory.specs.Calls.{AllStay, ChoosesIn, Evicts, IsCausedIn, IsNoRead, IsRead, KeepsIn, KeepsPages, Later, PagesOnce, Reads, Stands, WordsStay};

use crate::paged::PagedMemory;
use data_blocks::NoBlocks;
use edge_managers::{Gate, Policy, Supplier};
use page_store::{PageFault, PageStore};

impl PagedMemory {
    // Where no frame is empty, takes the clock's victim out of its frame, once it was saved.
    pub(crate) fn evict<B: PageStore>(&mut self, store: &mut B) -> Result<(), PageFault>
        requires table { IsSoundTable (B.held store.old) self.old }
        ensures stands { B.tells → (s : Supply) → AreCleanTrue s (B.words store.old) self.old → Stands s (B.words store.old) (B.words store.new) self.old self.new }
        ensures table { IsSoundTable (B.held store.new) self.new }
        ensures others { KeepsIn B.PageStore self.old self.new store.old store.new }
        ensures pages { KeepsPages (B.kept_names store.old) self.old self.new }
        ensures room { OnOk result (HasEmptyFrame self.new.frames) }
        ensures not_needed { HasEmptyFrame self.old.frames → IsOk result }
        ensures same { HasEmptyFrame self.old.frames → self.new ≡ self.old }
        ensures chooses { (HasEmptyFrame self.old.frames → ⊥) → ChoosesIn B.PageStore store.old ⊥ self.old self.new result }
        ensures wanting { (n : NoBlocks) → IsErrOf result (PageFault.NoBlocks n) → store.new ≡ store.old }
        ensures stay { OnErr result (AllStay self.old self.new) }
        ensures gone { OnOk result ((HasEmptyFrame self.old.frames → ⊥) → AllStay self.old self.new → ⊥) }
        ensures absent { (p : ℕ) → page_at self.old.frames p ≡ None → page_at self.new.frames p ≡ None }
        ensures absent_blocks { (p : ℕ) → page_at self.old.frames p ≡ None → block_at self.new p ≡ block_at self.old p }
        ensures fault { IfErr result IsNoRead }
        ensures cause { IfErr result (IsCausedIn B.PageStore store.old store.new) }
        ensures later { Later B.PageStore store.old store.new }
        ensures same_shut { OnOk result (B.is_shut store.new ≡ B.is_shut store.old) }
        ensures one_write { B.written store.new ≤ B.written store.old + 1 }
        ensures reads { B.read_calls store.new ≡ B.read_calls store.old }
        ensures between { B.Pages store.old store.new }
    {
        let Some(page) = self.frames.victim() else {
            return Ok(());
        };
        self.save(store, page)?;
        self.frames.remove(page);
        Ok(())
    }

    // The words of a page that isn't resident: its block's, or the supplier's where it has none.
    pub(crate) fn fetch<B: PageStore, S: Supplier, P: Policy>(
        &self,
        store: &mut B,
        gate: &Gate<S, P>,
        page: u8,
    ) -> Result<[u64; 128], PageFault>
        requires keeps { S.keeps gate.now.supply }
        requires table { IsSoundTable (B.held store.old) self.now }
        ensures words { B.tells → IfOk result (λ w. (k : ℕ) → k < 128 → slice_index w k ≡ stored_word (S.word gate.now.supply) self.now.tag (B.words store.old) (block_at self.now page) page k) }
        ensures same_words { B.tells → WordsStay B.PageStore (λ n. ⊥) store.old store.new }
        ensures same_blocks { SameBlocks B.held B.free store.old store.new }
        ensures kept { B.kept_names store.new ≡ B.kept_names store.old }
        ensures fault { IfErr result IsReadFault }
        ensures shut { IsErrOf result PageFault.Shut ↔ ((B.is_shut store.old ≡ true) × (block_at self.now page ≢ 0)) }
        ensures cause { IfErr result (IsCausedIn B.PageStore store.old store.new) }
        ensures later { Later B.PageStore store.old store.new }
        ensures same_shut { OnOk result (B.is_shut store.new ≡ B.is_shut store.old) }
        ensures writes { B.written store.new ≡ B.written store.old }
        ensures once { block_at self.now page ≢ 0 → Ticks (B.read_calls store.old) (B.read_calls store.new) }
        ensures never { block_at self.now page ≡ 0 → B.read_calls store.new ≡ B.read_calls store.old }
        ensures between { B.Pages store.old store.new }
    {
        let mut words = [0; 128];
        let block = self.table[page as usize];
        if block == 0 {
            gate.page(self.tag, page as u32, &mut words);
            return Ok(words);
        }
        store.read_page(block, &mut words)?;
        Ok(words)
    }

    // Makes a page resident, for which a page may have to leave.
    pub(crate) fn bring<B: PageStore, S: Supplier, P: Policy>(
        &mut self,
        store: &mut B,
        gate: &Gate<S, P>,
        page: u8,
    ) -> Result<(), PageFault>
        requires keeps { S.keeps gate.now.supply }
        requires inside { page < self.old.pages }
        requires table { IsSoundTable (B.held store.old) self.old }
        ensures stands { B.tells → AreCleanTrue (S.word gate.now.supply) (B.words store.old) self.old → Stands (S.word gate.now.supply) (B.words store.old) (B.words store.new) self.old self.new }
        ensures table { IsSoundTable (B.held store.new) self.new }
        ensures others { KeepsIn B.PageStore self.old self.new store.old store.new }
        ensures pages { KeepsPages (B.kept_names store.old) self.old self.new }
        ensures resident { OnOk result (IsResident self.new.frames page) }
        ensures had { IsResident self.old.frames page → IsOk result × (store.new ≡ store.old) }
        ensures stay { (Evicts self.old page → ⊥) → AllStay self.old self.new }
        ensures chooses { Evicts self.old page → ChoosesIn B.PageStore store.old (IsRead self.old self.new page) self.old self.new result }
        ensures shut { (Evicts self.old page → ⊥) → IsErrOf result PageFault.Shut ↔ ((B.is_shut store.old ≡ true) × IsRead self.old self.new page) }
        ensures no_blocks { (n : NoBlocks) → IsErrOf result (PageFault.NoBlocks n) → Evicts self.old page }
        ensures reads { Reads (B.read_calls store.old) (B.read_calls store.new) self.old self.new page }
        ensures later { Later B.PageStore store.old store.new }
        ensures calls { PagesOnce B.PageStore store.old store.new result }
    {
        if self.frames.find(page).is_some() {
            return Ok(());
        }
        self.evict(store)?;
        let words = self.fetch(store, gate, page)?;
        self.frames.place(page, &words);
        Ok(())
    }
}
