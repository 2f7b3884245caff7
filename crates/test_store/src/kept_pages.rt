// The blocks of pages that a store holds once it keeps the chosen records of an image.
ghost use Rattle.std.specs.Prelude.{◌≡◌, ◌<◌, ◌^◌, ◌||◌, ℕ, All, AllPairs, true, false, length, slice_index, OnOk};
ghost use Rattle.std.specs.List.{AllByRecursion, list_any};
ghost use Rattle.model_cut_laws.specs.model_kernel.Words.{put};
ghost use Rattle.image_format.specs.image_meaning.Stores.{IsHeld};
ghost use Rattle.log_reading.specs.log_facts.Logs.{AreInRange, IsOlder};
ghost use Rattle.data_blocks.specs.Ledger.{is_held};
ghost use Rattle.store_snapshots.specs.store_facts.Choosing.{are_chosen, books_kept, kept_rows, with_tables};
ghost use Rattle.store_snapshots.specs.store_facts.Holds.{names_page};
ghost use Rattle.store_snapshots.specs.store_facts.Naming.{IsPlaced};
ghost use Rattle.store_snapshots.specs.store_facts.Opening.{HasStableLog};
ghost use Rattle.store_snapshots.specs.store_facts.State.{books};
ghost use Rattle.store_snapshots.specs.store_books.Books.{kept_of, recs_in};

use data_blocks::ShadowTable;
use edge_disk::Disk;
use page_store::PageStore;
use store_snapshots::{Store, StoreFault};

/// Keeps the chosen records of an image that was opened, and gives back a block that one of their tables names.
pub fn keep_but_one<D: Disk>(
    store: &mut Store<D>,
    tables: &[ShadowTable],
    block: u32,
) -> Result<(), StoreFault>
    requires tables { length tables.now ≡ 64 }
    requires unread { (n : ℕ) → slice_index store.old.blocks.names n ≡ 0 }
    requires epoch { (books store.old).place.epoch < 2 ^ 63 }
    requires older { AllPairs IsOlder (recs_in (books store.old)) }
    requires range { AreInRange (books store.old).count (recs_in (books store.old)) }
    requires placed { All (IsPlaced store.old.blocks.first store.old.blocks.end) (with_tables tables.now (are_chosen store.old)) }
    requires log { D.tells → HasStableLog D.Disk (books store.old) store.old.disk }
    requires spelt { D.tells → AllByRecursion (IsHeld (D.reading store.old.disk)) (kept_of (D.reading store.old.disk) (books_kept tables.now store.old)) }
    requires named { list_any (names_page block) (kept_rows tables.now store.old) ≡ true }
    ensures { OnOk result ((n : ℕ) → is_held store.new.blocks n ≡ put (λ m. is_held store.old.blocks m || list_any (names_page m) (kept_rows tables.now store.old)) block false n) }
{
    store.keep_chosen(tables)?;
    store.give_back(block);
    Ok(())
}
