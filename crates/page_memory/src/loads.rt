ghost use Rattle.std.specs.Prelude.{◌≡◌, ◌<◌, ◌*◌, ◌/◌, true, IfOk, OnOk, OnErr};
ghost use Rattle.page_store.specs.model_kernel.Words.{put};
ghost use Rattle.data_frames.specs.FrameTable.{IsResident};
ghost use Rattle.page_memory.specs.Words.{AreCleanTrue, IsSoundTable, words_of};
ghost use Rattle.page_memory.specs.Calls.{Counts, KeepsBlocks, KeepsIn, KeepsPages, MakesRoomIn, MarksOne, PagesOnce, Stands};

use crate::paged::PagedMemory;
use edge_managers::{Gate, Policy, Supplier};
use page_store::{PageFault, PageStore};

impl PagedMemory {
    /// Reads the word at an address below 128 times the pages.
    ///
    /// Where the page isn't resident, it is read from its block, or filled by the supplier where it has none; and where
    /// no frame is empty then, the clock's victim leaves its frame first. If that one is changed, it is written to its
    /// own block, or to a new one where it has none or a kept record names it. The answer is `NoBlocks` where one is
    /// needed and none is free, `WriteFault` or `ReadFault` where the call of the store failed, and `Shut` where it came
    /// to such a call and one failed before. No word changes, and after a fault the same loads and stores are possible.
    ///
    /// A load of a resident page takes a number of steps that depends on nothing. Else it looks at each frame twice at
    /// most, copies a page twice at most, and makes one write and one read of the store at most.
    pub fn load<B: PageStore, S: Supplier, P: Policy>(
        &mut self,
        store: &mut B,
        gate: &Gate<S, P>,
        address: u64,
    ) -> Result<u64, PageFault>
        requires keeps { S.keeps gate.now.supply }
        requires inside { address < 128 * self.old.pages }
        requires table { IsSoundTable (B.held store.old) self.old }
        requires clean { B.tells → AreCleanTrue (S.word gate.now.supply) (B.words store.old) self.old }
        ensures word { B.tells → IfOk result (λ v. v ≡ words_of (S.word gate.now.supply) (B.words store.old) self.old address) }
        ensures stands { B.tells → Stands (S.word gate.now.supply) (B.words store.old) (B.words store.new) self.old self.new }
        ensures table { IsSoundTable (B.held store.new) self.new }
        ensures others { KeepsIn B.PageStore self.old self.new store.old store.new }
        ensures pages { KeepsPages (B.kept_names store.old) self.old self.new }
        ensures resident { OnOk result (IsResident self.new.frames (address / 128)) }
        ensures room { MakesRoomIn B.PageStore store.old self.old self.new (address / 128) result }
        ensures counts { Counts B.PageStore self.old self.new (address / 128) store.old store.new }
        ensures calls { PagesOnce B.PageStore store.old store.new result }
    {
        let page = (address / 128) as u8;
        let place = (address % 128) as u8;
        self.bring(store, gate, page)?;
        Ok(self.frames.word(page, place))
    }

    /// Writes the word at an address below 128 times the pages, and marks its page as changed.
    ///
    /// What it does before, what it answers and what it costs is as for `load`. After a fault no word has changed.
    pub fn store<B: PageStore, S: Supplier, P: Policy>(
        &mut self,
        store: &mut B,
        gate: &Gate<S, P>,
        address: u64,
        word: u64,
    ) -> Result<(), PageFault>
        requires keeps { S.keeps gate.now.supply }
        requires inside { address < 128 * self.old.pages }
        requires table { IsSoundTable (B.held store.old) self.old }
        requires clean { B.tells → AreCleanTrue (S.word gate.now.supply) (B.words store.old) self.old }
        ensures written { B.tells → OnOk result (words_of (S.word gate.now.supply) (B.words store.new) self.new ≡ put (words_of (S.word gate.now.supply) (B.words store.old) self.old) address word) }
        ensures failed { B.tells → OnErr result (words_of (S.word gate.now.supply) (B.words store.new) self.new ≡ words_of (S.word gate.now.supply) (B.words store.old) self.old) }
        ensures clean { B.tells → AreCleanTrue (S.word gate.now.supply) (B.words store.new) self.new }
        ensures table { IsSoundTable (B.held store.new) self.new }
        ensures others { KeepsIn B.PageStore self.old self.new store.old store.new }
        ensures blocks { KeepsBlocks (B.kept_names store.old) self.old self.new }
        ensures marks { MarksOne true self.old self.new (address / 128) result }
        ensures room { MakesRoomIn B.PageStore store.old self.old self.new (address / 128) result }
        ensures counts { Counts B.PageStore self.old self.new (address / 128) store.old store.new }
        ensures calls { PagesOnce B.PageStore store.old store.new result }
    {
        let page = (address / 128) as u8;
        let place = (address % 128) as u8;
        self.bring(store, gate, page)?;
        self.frames.set(page, place, word);
        Ok(())
    }
}
