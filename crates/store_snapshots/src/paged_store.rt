// A store as a keeper of pages.
ghost use Rattle.std.specs.Prelude.{true, false, refl};

use crate::paging::read_words;
use crate::store::Store;
use edge_disk::{Disk, NoBlocks};
use page_store::{PageFault, PageStore};
use store_facts::block_with;

/// Pages in the blocks of the image. A block that is held, or that a kept record names, holds the words that the disk reads; where
/// there is no block on the disk they are zeros.
///
/// A page write is counted with all writes and syncs of the store, as `begun` tells them.
impl<D: Disk> PageStore for Store<D> {
    ghost use Rattle.edge_disk.specs.Image.{block_at};
    ghost use Rattle.data_blocks.specs.Ledger.{is_held};
    ghost use Rattle.store_snapshots.specs.Paging.{GoesByPages, GoesByPages-join, GoesByPages-stay};
    ghost use Rattle.store_facts.specs.State.{books};
    ghost use Rattle.store_facts.specs.store_books.Books.{free_in, kept_names as kept_names_in, words_of_bytes};

    ghost tells = { D.tells };

    ghost held = { λ st. is_held st.blocks };

    ghost kept_names = { λ st. kept_names_in (books st) };

    ghost words = { λ st n. words_of_bytes (block_at (D.reading st.disk) n) };

    ghost free = { λ st. free_in (books st) };

    ghost is_shut = { λ st. st.shut };

    ghost faults = { λ st. D.faults st.disk };

    ghost written = { λ st. (books st).begun };

    ghost read_calls = { λ st. st.read_calls };

    ghost Pages = { GoesByPages D.Disk };

    fn read_page(&mut self, block: u32, out: &mut [u64; 128]) -> Result<(), PageFault> {
        self.read_calls = self.read_calls.saturating_add(1);
        if self.shut {
            return Err(PageFault::Shut);
        }
        self.shut = true;
        if read_words(&mut self.disk, block, out).is_err() {
            return Err(PageFault::ReadFault);
        }
        self.shut = false;
        Ok(())
    }

    fn write_page(&mut self, block: u32, page: &[u64; 128]) -> Result<(), PageFault> {
        if self.shut {
            return Err(PageFault::Shut);
        }
        self.shut = true;
        let written = self.areas.write(&mut self.disk, block, &block_with(page));
        if written.is_err() {
            return Err(PageFault::WriteFault);
        }
        self.shut = false;
        Ok(())
    }

    fn take_block(&mut self) -> Result<u32, NoBlocks> {
        self.blocks.take_block()
    }

    fn give_back(&mut self, block: u32) {
        self.blocks.give_back(block);
    }

    fn kept(&self, block: u32) -> bool {
        self.blocks.is_named(block)
    }

    ghost whole = { λ b n told named. refl };

    ghost stays = { λ b. GoesByPages-stay D.Disk.own b (λ c told left. D.only_now b.disk c told left) };

    ghost goes_on = { GoesByPages-join D.Disk.own };
}
