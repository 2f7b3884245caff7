// Records with the blocks of their pages, in room that is taken once.
ghost use Rattle.std.specs.Prelude.{◌≡◌, ◌<◌, ◌≤◌, ◌++◌, ◌∷◌, [], length, filter, slice_index, slice_index_or, IfOk};
ghost use Rattle.store_facts.specs.image_facts.Layout.{slot_count};
ghost use Rattle.store_facts.specs.Shelves.{AreTallied, is_from, nothing_logged, records_of};
ghost use Rattle.store_facts.specs.store_books.Books.{logged_recs};

use base_types::{Cut, Entity, Rec};
use data_blocks::ShadowTable;
use std::alloc::{AllocError as Memory, Global};
use std::marker::Model;
use store_facts::SLOT_COUNT;

// Up to 640 records in order, each with the block of each page that its blob names. Memory is taken when it is made, and never
// again.
#[derive(Drop)]
pub(crate) struct Shelf {
    recs: Vec<Rec>,
    tables: Vec<ShadowTable>,
    used: usize,
    // how many of them each entity has
    counts: [u16; 64],
}

impl Model for Shelf {
    ghost use Rattle.std.specs.Prelude.{◌≡◌, ◌≤◌, List, length, take};
    ghost use Rattle.store_facts.specs.image_facts.Layout.{slot_count};
    ghost use Rattle.store_facts.specs.Shelves.{AreTallied, logged_with};
    ghost use Rattle.store_facts.specs.store_books.Books.{Logged};

    ghost Value = { List Logged };

    ghost view = { λ s. take s.used (logged_with s.recs.items s.tables.items) };

    ghost invariant = { λ s. (length s.recs.items ≡ slot_count) × (length s.tables.items ≡ slot_count) × (s.used ≤ slot_count)
        × AreTallied s.counts (take s.used s.recs.items) };
}

// What stands on a shelf where nothing was put yet.
pub(crate) fn no_record() -> Rec {
    Rec {
        entity: Entity::ATLAS,
        version: 0,
        stamp: [0; 64],
        length: 0,
        blocks: [0; 8],
    }
}

// How many of the records each entity has.
fn tally(recs: &[Rec]) -> [u16; 64]
    requires { length recs.now ≤ slot_count }
    ensures { AreTallied result recs.now }
{
    let mut counts = [0; 64];
    for rec in recs {
        counts[rec.entity.number() as usize] += 1;
    }
    counts
}

impl Shelf {
    // An empty shelf. It takes about a megabyte.
    pub(crate) fn new(alloc: Global) -> Result<Shelf, Memory>
        ensures { IfOk result (λ s. s ≡ []) }
    {
        Ok(Shelf {
            recs: vec![in alloc; no_record(); SLOT_COUNT as usize]?,
            tables: vec![in alloc; ShadowTable::new(); SLOT_COUNT as usize]?,
            used: 0,
            counts: [0; 64],
        })
    }

    // How many records there are.
    pub(crate) fn len(&self) -> usize
        ensures len { result ≡ length self.now }
        ensures few { result ≤ slot_count }
    {
        self.used
    }

    // How many records an entity has.
    pub(crate) fn count(&self, entity: Entity) -> u16
        ensures { result ≡ records_of entity self.now }
    {
        self.counts[entity.number() as usize]
    }

    // The records.
    pub(crate) fn recs(&self) -> &[Rec]
        ensures { result.now ≡ logged_recs self.now }
    {
        &self.recs[..self.used]
    }

    // The record at a place.
    pub(crate) fn rec(&self, place: usize) -> Rec
        requires { place < length self.now }
        ensures { result ≡ (slice_index_or self.now place nothing_logged).rec }
    {
        self.recs[place]
    }

    // The blocks of its pages.
    pub(crate) fn table(&self, place: usize) -> ShadowTable
        requires { place < length self.now }
        ensures { result.0 ≡ (slice_index_or self.now place nothing_logged).table }
    {
        self.tables[place]
    }

    // Puts a record behind the others.
    pub(crate) fn push(&mut self, rec: &Rec, table: &ShadowTable)
        requires { length self.old < slot_count }
        ensures { self.new ≡ self.old ++ record { rec = rec.now; table = table.now.0 } ∷ [] }
    {
        self.recs[self.used] = *rec;
        self.tables[self.used] = *table;
        self.used += 1;
        self.counts[rec.entity.number() as usize] += 1;
    }

    // Takes off all records.
    pub(crate) fn clear(&mut self)
        ensures { self.new ≡ [] }
    {
        self.used = 0;
        self.counts = [0; 64];
    }

    // Holds what the other shelf holds.
    pub(crate) fn copy_from(&mut self, other: &Shelf)
        ensures { self.new ≡ other.now }
    {
        for i in 0..other.used {
            self.recs[i] = other.recs[i];
            self.tables[i] = other.tables[i];
        }
        self.used = other.used;
        self.counts = other.counts;
    }

    // Keeps the records at or above a choice.
    pub(crate) fn keep_from(&mut self, cut: &Cut)
        ensures { self.new ≡ filter (is_from (slice_index cut.now.0)) self.old }
    {
        let mut kept = 0;
        for i in 0..self.used {
            let rec = self.recs[i];
            if cut.0[rec.entity.number() as usize] <= rec.version {
                self.recs[kept] = rec;
                self.tables[kept] = self.tables[i];
                kept += 1;
            }
        }
        self.used = kept;
        self.counts = tally(&self.recs[..kept]);
    }
}
