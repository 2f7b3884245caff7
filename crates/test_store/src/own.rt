// A store over an image that had no record.
ghost use Rattle.std.specs.Prelude.{◌≡◌, ◌<◌, [], true, All, IfOk, count_by, nat_le, slice_index};
ghost use Rattle.store_snapshots.specs.store_books.Books.{recs_in};
ghost use Rattle.store_snapshots.specs.store_facts.State.{books};
ghost use Rattle.test_store.specs.Fit.{IsFit};

use base_bytes::Blob;
use base_types::{Cut, Entity, Rec};
use data_blocks::ShadowTable;
use edge_disk::Disk;
use std::alloc::Global;
use std::marker::Model;
use store_snapshots::{OpenFault, Store, StoreFault};

/// Why a record was not committed.
#[derive(Clone, Copy, Debug, PartialEq, Eq)]
pub enum Unmade {
    /// It is not in form, not newer than its entity's newest record, or 640 records are kept.
    Unfit,
    /// The store failed.
    Failed(StoreFault),
}

/// A store over an image that had no record when it was opened, with records without pages. What a commit asks of the store holds
/// before and after every call.
#[derive(Drop)]
pub struct OwnStore<D: Disk> {
    store: Store<D>,
    // how many commits were tried
    commits: u32,
}

impl<D: Disk> Model for OwnStore<D> {
    ghost use Rattle.store_snapshots.specs.store_facts.State.{State};
    ghost use Rattle.test_store.specs.Own.{IsOwn};

    ghost Value = { State D };

    ghost view = { λ own. own.store };

    ghost invariant = { λ own. IsOwn D.Disk own.store own.commits };
}

// Whether each record of the entity has a lesser version.
fn is_newer(recs: &[Rec], entity: Entity, version: u64) -> bool
    ensures { result ≡ true → All (λ r. r.entity ≡ entity → r.version < version) recs.now }
{
    for rec in recs {
        if rec.entity.number() == entity.number() && version <= rec.version {
            return false;
        }
    }
    true
}

// How many records are at or above the choice.
fn count_kept(recs: &[Rec], cut: &Cut) -> usize
    ensures { result ≡ count_by (λ r. nat_le (slice_index cut.now.0 r.entity) r.version) recs.now }
{
    let mut kept = 0;
    for rec in recs {
        if cut.0[rec.entity.number() as usize] <= rec.version {
            kept += 1;
        }
    }
    kept
}

// Whether a record may be committed.
fn is_fit<D: Disk>(
    store: &Store<D>,
    entity: Entity,
    version: u64,
    stamp: &[u64; 64],
    blob: &Blob,
) -> bool
    ensures { result ≡ true → IsFit (books store.now) entity version stamp.now blob.now }
{
    if blob.len() == 0 || version == 0 || stamp[entity.number() as usize] != version {
        return false;
    }
    let cut = store.cut();
    let kept = count_kept(store.recs(), &cut);
    if !is_newer(store.recs(), entity, version) {
        return false;
    }
    kept < 640
}

impl<D: Disk> OwnStore<D> {
    /// Opens an image. The disk comes back where it has a record, or isn't opened.
    pub fn open(alloc: Global, disk: D) -> Result<OwnStore<D>, D>
        ensures { IfOk result (λ own. recs_in (books own) ≡ []) }
    {
        let store = match Store::open(alloc, disk) {
            Ok(store) => store,
            Err(OpenFault { why: _, disk }) => return Err(disk),
        };
        if !store.recs().is_empty() {
            return Err(store.into_disk());
        }
        Ok(OwnStore { store, commits: 0 })
    }

    /// The store.
    pub fn store(&self) -> &Store<D>
        ensures { result.now ≡ self.now }
    {
        &self.store
    }

    /// The disk, as the store left it.
    pub fn into_disk(self) -> D
        ensures { result ≡ self.disk }
    {
        let OwnStore { store, commits: _ } = self;
        store.into_disk()
    }

    /// Commits a record without pages.
    pub fn commit(
        &mut self,
        entity: Entity,
        version: u64,
        stamp: &[u64; 64],
        blob: &Blob,
    ) -> Result<(), Unmade> {
        if self.store.is_shut() {
            return Err(Unmade::Failed(StoreFault::Shut));
        }
        if !is_fit(&self.store, entity, version, stamp, blob) || self.commits == u32::MAX {
            return Err(Unmade::Unfit);
        }
        self.commits += 1;
        match self
            .store
            .commit(entity, version, stamp, blob, &ShadowTable::new())
        {
            Ok(()) => Ok(()),
            Err(fault) => Err(Unmade::Failed(fault)),
        }
    }
}
