// The chosen records of an image that was opened.
ghost use Rattle.std.specs.Prelude.{◌≡◌, ◌≤◌, ◌<◌, ◌+◌, ◌^◌, ◌++◌, ◌&&◌, ◌==◌, ℕ, All, AllPairs, true, false, length, slice_index, take, OnOk};
ghost use Rattle.std.specs.List.{AllByRecursion};
ghost use Rattle.edge_disk.specs.Disks.{IsStable};
ghost use Rattle.edge_tally.specs.Counts.{Begins, shown};
ghost use Rattle.edge_disk.specs.Counts.{Rose};
ghost use Rattle.edge_disk.specs.Moments.{LeavesOnly};
ghost use Rattle.base_types.specs.Edges.{upto};
ghost use Rattle.store_facts.specs.image_facts.Layout.{last_number};
ghost use Rattle.store_facts.specs.image_meaning.Parts.{chosen_by};
ghost use Rattle.store_facts.specs.image_meaning.Stores.{IsHeld};
ghost use Rattle.store_facts.specs.log_facts.Logs.{AreInRange, IsOlder};
ghost use Rattle.store_facts.specs.Choosing.{HasKept, IsKeeping, are_chosen, books_kept, chosen_list, listed, table_of, with_tables};
ghost use Rattle.store_snapshots.specs.Choosing.{KeepAnswers};
ghost use Rattle.store_facts.specs.Keeping.{AreListed, HasRecounted};
ghost use Rattle.store_facts.specs.Naming.{IsPlaced};
ghost use Rattle.store_facts.specs.Opening.{HasStableLog};
ghost use Rattle.store_facts.specs.State.{books};
ghost use Rattle.store_facts.specs.store_books.Books.{AreTrue, kept_of, recs_in};

use crate::StoreFault;
use crate::page_holding::hold_pages;
use crate::settling::list_record;
use crate::shelf::{Shelf, no_record};
use crate::store::Store;
use base_types::{Cut, Rec};
use data_blocks::{Ledger, ShadowTable};
use edge_disk::Disk;

// Whether a record is that of the entity at the choice.
fn is_at(rec: &Rec, cut: &Cut, entity: u8) -> bool
    requires { entity < 64 }
    ensures { result ≡ ((rec.now.entity == entity) && (rec.now.version == slice_index cut.now.0 entity)) }
{
    rec.entity.number() == entity && rec.version == cut.0[entity as usize]
}

// The chosen record of an entity.
fn chosen_one(recs: &[Rec], cut: &Cut, entity: u8) -> Option<Rec>
    requires { entity < 64 }
    ensures { result ≡ chosen_by (slice_index cut.now.0) recs.now entity }
{
    for rec in recs {
        if is_at(rec, cut, entity) {
            return Some(*rec);
        }
    }
    None
}

// Puts a record behind the others, where there is one, and answers how many there are then.
fn put_chosen(chosen: &mut [Rec; 64], used: usize, rec: Option<Rec>) -> usize
    requires { used < 64 }
    ensures few { result ≤ used + 1 }
    ensures put { take result chosen.new ≡ take used chosen.old ++ listed rec }
{
    match rec {
        Some(rec) => {
            chosen[used] = rec;
            used + 1
        }
        None => used,
    }
}

// The chosen records, ascending by entity, and how many they are. It goes over the records once for each entity.
pub(crate) fn chosen_recs(recs: &[Rec], cut: &Cut) -> ([Rec; 64], usize)
    ensures few { result.1 ≤ 64 }
    ensures chosen { take result.1 result.0 ≡ chosen_list (slice_index cut.now.0) recs.now (upto 64) }
{
    let mut chosen = [no_record(); 64];
    let mut used = 0;
    for x in 0..64 {
        used = put_chosen(&mut chosen, used, chosen_one(recs, cut, x));
    }
    (chosen, used)
}

// The table of a record's entity.
fn table_for(tables: &[ShadowTable], rec: &Rec) -> ShadowTable
    requires { length tables.now ≡ 64 }
    ensures { result.0 ≡ table_of tables.now rec.now.entity }
{
    tables[rec.entity.number() as usize]
}

// Puts the records on a shelf with their tables in place of what is there, and names their blocks.
pub(crate) fn list_all(kept: &mut Shelf, ledger: &mut Ledger, recs: &[Rec], tables: &[ShadowTable])
    requires few { length recs.now ≤ 64 }
    requires tables { length tables.now ≡ 64 }
    requires sized { length ledger.old.names ≡ ledger.old.end }
    requires unnamed { (n : ℕ) → slice_index ledger.old.names n ≡ 0 }
    requires placed { All (IsPlaced ledger.old.first ledger.old.end) (with_tables tables.now recs.now) }
    ensures kept { kept.new ≡ with_tables tables.now recs.now }
    ensures listed { AreListed ledger.new kept.new }
    ensures ledger { HasRecounted ledger.old ledger.new }
{
    kept.clear();
    for rec in recs {
        list_record(kept, ledger, rec, &table_for(tables, rec));
    }
}

// Blocks are counted from now on: none counts as named that no record names. Block 0 is named by none.
fn count_names(ledger: &mut Ledger)
    requires { slice_index ledger.old.names 0 ≡ 0 }
    ensures { ledger.new ≡ record ledger.old { all_named = false } }
{
    if ledger.is_named(0) {
        ledger.end_all_named();
    }
}

impl<D: Disk> Store<D> {
    /// Keeps of the records of an image that was opened the chosen ones alone, ascending by entity, with the tables of their pages'
    /// blocks, one for each entity: the log is turned to them. These tables are working page tables from now on: their blocks are
    /// held until they are given back. Free are the blocks that are neither held nor named by a chosen record. It takes no memory,
    /// and goes over the records once for each entity.
    ///
    /// `Shut` comes exactly after an earlier failure of this value, and then nothing is changed. `WriteFault` comes only where the
    /// disk's count of faults rose, and shuts the store. No other fault comes. That is 137 writes and syncs at most.
    pub fn keep_chosen(&mut self, tables: &[ShadowTable]) -> Result<(), StoreFault>
        requires tables { length tables.now ≡ 64 }
        requires unread { (n : ℕ) → slice_index self.old.blocks.names n ≡ 0 }
        requires epoch { (books self.old).place.epoch < 2 ^ 63 }
        requires older { AllPairs IsOlder (recs_in (books self.old)) }
        requires range { AreInRange (books self.old).count (recs_in (books self.old)) }
        requires placed { All (IsPlaced self.old.blocks.first self.old.blocks.end) (with_tables tables.now (are_chosen self.old)) }
        requires log { D.tells → HasStableLog D.Disk (books self.old) self.old.disk }
        // what the reader of the blobs has seen: behind each blob its last block is zeros
        requires spelt { D.tells → AllByRecursion (IsHeld (D.reading self.old.disk)) (kept_of (D.reading self.old.disk) (books_kept tables.now self.old)) }

        ensures kept { OnOk result (HasKept tables.now self.old self.new) }
        ensures true_books { D.tells → OnOk result (AreTrue D.Disk (books self.new) self.new.disk) }
        ensures stable { D.tells → OnOk result (IsStable D.Disk self.new.disk) }
        // A stop at any moment leaves the log as it was found, or the chosen records, and nothing else in the pool.
        ensures any_moment { D.tells → (books self.old).shut ≡ false → (books self.old).place.epoch < last_number
            → LeavesOnly D.Disk self.old.disk self.new.disk (IsKeeping (D.reading self.old.disk) (books self.old) (are_chosen self.old)) }
        ensures answers { KeepAnswers self.old.shut self.new.shut (Rose (D.faults self.old.disk) (D.faults self.new.disk)) result }
        ensures untouched { self.old.shut ≡ true → self.new ≡ self.old }
        ensures begins { Begins 137 (shown D.Disk self.old.disk (books self.old).begun) (shown D.Disk self.new.disk (books self.new).begun) }
    {
        if self.shut {
            return Err(StoreFault::Shut);
        }
        let (recs, used) = chosen_recs(self.log.recs(), &self.cut);
        self.shut = true;
        if self.areas.turn(&mut self.disk, &recs[..used]).is_err() {
            return Err(StoreFault::WriteFault);
        }
        count_names(&mut self.blocks);
        list_all(&mut self.kept, &mut self.blocks, &recs[..used], tables);
        hold_pages(&mut self.blocks, &self.kept);
        self.log.copy_from(&self.kept);
        self.shut = false;
        Ok(())
    }
}
