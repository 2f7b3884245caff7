// The records of an image, over its disk.
ghost use Rattle.std.specs.Prelude.{◌≡◌, ℕ, slice_index};
ghost use Rattle.store_facts.specs.Shelves.{records_of};
ghost use Rattle.store_facts.specs.store_books.Books.{cut_in, free_in, kept_in, recs_in};

use crate::shelf::Shelf;
use base_types::{Cut, Entity, Rec};
use data_blocks::Ledger;
use edge_disk::Disk;
use std::marker::Model;
use store_facts::Areas;

/// The records of an image, over its disk. In memory it has the records of the log, with the block of each page that their
/// blobs name, once more those that are kept, the greatest closed choice of them, and for each block whether it is held and how
/// often kept records name it.
#[derive(Drop)]
pub struct Store<D: Disk> {
    pub(crate) disk: D,
    pub(crate) areas: Areas,
    pub(crate) log: Shelf,
    pub(crate) kept: Shelf,
    pub(crate) cut: Cut,
    pub(crate) blocks: Ledger,
    pub(crate) small: bool,
    pub(crate) shut: bool,
    pub(crate) read_calls: u64,
}

impl<D: Disk> Model for Store<D> {
    ghost use Rattle.store_facts.specs.State.{IsWhole, State, state_of};

    ghost Value = { State D };

    ghost view = { λ s. state_of s.disk s.areas s.log s.kept s.cut s.blocks s.small s.shut s.read_calls };

    ghost invariant = { λ s. IsWhole D.block_count (state_of s.disk s.areas s.log s.kept s.cut s.blocks s.small s.shut s.read_calls) };
}

impl<D: Disk> Store<D> {
    ghost use Rattle.store_facts.specs.State.{HoldsPoolBlocks, State, books};

    /// The law: each block that is held, of any store, is one of the pool. It does nothing.
    pub fn held_law(&self)
        ensures { HoldsPoolBlocks (books self.now) }
    {
        let _ = &self.blocks;
    }

    /// How many blocks are free: those that no kept record and no working page table names.
    pub fn free(&self) -> u32
        ensures { result ≡ free_in (books self.now) }
    {
        self.blocks.free()
    }

    /// The records of the log, in order.
    pub fn recs(&self) -> &[Rec]
        ensures { result.now ≡ recs_in (books self.now) }
    {
        self.log.recs()
    }

    /// Per entity the version of the record that the greatest closed choice over the log takes, and 0 where it takes none.
    pub fn cut(&self) -> Cut
        ensures { (x : ℕ) → slice_index result.0 x ≡ cut_in (books self.now) x }
    {
        self.cut
    }

    /// How many writes and syncs this value has begun, failed ones included. It stands still at 2^64 - 1.
    pub fn begun(&self) -> u64
        ensures { result ≡ (books self.now).begun }
    {
        self.areas.begun()
    }

    /// Whether an earlier call failed at the disk.
    pub fn is_shut(&self) -> bool
        ensures { result ≡ (books self.now).shut }
    {
        self.shut
    }

    /// How many kept records are of the entity. It looks at none of them.
    pub fn kept_count(&self, entity: Entity) -> u16
        ensures { result ≡ records_of entity (kept_in (books self.now)) }
    {
        self.kept.count(entity)
    }

    /// The disk, as the store left it.
    pub fn into_disk(self) -> D
        ensures { result ≡ self.disk }
    {
        self.disk
    }
}
