// A snapshot of a cell by its wish.
ghost use Rattle.std.specs.Prelude.{◌≡◌, ℕ, List, true, false, Ok, Some, None, OnOk, OnErr};
ghost use Rattle.edge_disk.specs.Disks.{IsStable};
ghost use Rattle.edge_disk.specs.Moments.{LeavesOnly};
ghost use Rattle.base_types.specs.declared.histories.Event.TheVariants.{Snap};
ghost use Rattle.page_store.specs.model_kernel.Histories.{mark};
ghost use Rattle.page_store.specs.model_kernel.State.{Supply};
ghost use Rattle.kernel_records.specs.Committing.{CellFaults, CommitCounts, HasCommitted, HasNotCommitted, MayCommit, StoresKeptOrCell};
ghost use Rattle.kernel_records.specs.Snapping.{is_snapped};
ghost use Rattle.store_snapshots.specs.store_facts.Putting.{are_small};
ghost use Rattle.store_snapshots.specs.store_facts.State.{books};
ghost use Rattle.kernel_block_laws.specs.store_books.Books.{AreSmall, AreTrue};
ghost use Rattle.cell_wish_laws.specs.Founded.{IsFoundedCell};

use crate::commits::commit_cell;
use base_bytes::Blob;
use base_types::{Answer, Entity, Entry, Event, Touched};
use edge_disk::Disk;
use edge_managers::{Gate, Policy, Supplier};
use kernel_record_facts::Cell;
use store_snapshots::{Store, StoreFault};

/// An entity with so many kept records has no further snapshot made.
pub const FULL: u16 = 4;

/// The entry of an event that touches nothing.
pub fn mark_entry(event: Event, actor: Entity, version: u64) -> Entry
    ensures { result ≡ mark event actor version }
{
    Entry {
        event,
        actor,
        touched: Touched::none(),
        version,
        answer: Answer::Quiet,
    }
}

/// Commits a record of the entity where one is wished and fewer than 4 kept records are its own, and gives the entry of that snapshot.
/// Else nothing is changed. What was in `blob` is lost.
///
/// Faults and costs are those of `commit_cell`.
pub fn snap_cell<D: Disk, S: Supplier, P: Policy>(
    cell: &mut Cell,
    store: &mut Store<D>,
    blob: &mut Blob,
    gate: &Gate<S, P>,
) -> Result<Option<Entry>, StoreFault>
    requires keeps { P.keeps gate.now.policy }
    requires founded { IsFoundedCell cell.old }
    requires may { (s : Supply) → (words : ℕ → List ℕ) → is_snapped (P.wish gate.now.policy) s words cell.old (books store.old) ≡ true → MayCommit (books store.old) cell.old }
    requires true_books { D.tells → AreTrue D.Disk (books store.old) store.old.disk }

    ensures none { (s : Supply) → (words : ℕ → List ℕ) → is_snapped (P.wish gate.now.policy) s words cell.old (books store.old) ≡ false
        → (result ≡ Ok None) × (cell.new ≡ cell.old) × (store.new ≡ store.old) }
    ensures made { (s : Supply) → (words : ℕ → List ℕ) → is_snapped (P.wish gate.now.policy) s words cell.old (books store.old) ≡ true
        → OnOk result ((result ≡ Ok (Some (mark Snap cell.old.clock.entity cell.old.clock.version))) × HasCommitted D.Disk cell.old cell.new store.old store.new) }
    ensures unmade { OnErr result (HasNotCommitted D.Disk cell.old cell.new store.old store.new) }
    ensures true_books { D.tells → OnOk result (AreTrue D.Disk (books store.new) store.new.disk) }
    ensures stable { D.tells → (s : Supply) → (words : ℕ → List ℕ) → is_snapped (P.wish gate.now.policy) s words cell.old (books store.old) ≡ true
        → OnOk result (IsStable D.Disk store.new.disk) }
    ensures any_moment { D.tells → (s : Supply) → (words : ℕ → List ℕ) → is_snapped (P.wish gate.now.policy) s words cell.old (books store.old) ≡ true
        → (books store.old).shut ≡ false → AreSmall (books store.old) → are_small cell.old.clock.version cell.old.clock.stamp.0 ≡ true
        → LeavesOnly D.Disk store.old.disk store.new.disk (StoresKeptOrCell D.Disk cell.old cell.new store.old) }
    ensures faults { (s : Supply) → (words : ℕ → List ℕ)
        → CellFaults D.faults (is_snapped (P.wish gate.now.policy) s words cell.old (books store.old) ≡ true) result cell.old cell.new store.old store.new }
    ensures counts { CommitCounts D.Disk store.old store.new }
{
    let entity = cell.clock.entity;
    let version = cell.clock.version;
    if !cell.is_wished(gate) || store.kept_count(entity) >= FULL {
        return Ok(None);
    }
    commit_cell(cell, store, blob)?;
    Ok(Some(mark_entry(Event::Snap, entity, version)))
}
