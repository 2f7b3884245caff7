// Snapshots of a cell, one behind the other.
ghost use Rattle.std.specs.Prelude.{◌≡◌, ℕ, List, true, false, IfSome, None};
ghost use Rattle.cell_clocks.specs.model_kernel.State.{Supply};
ghost use Rattle.kernel_records.specs.Committing.{MayCommit};
ghost use Rattle.kernel_records.specs.Snapping.{is_snapped};
ghost use Rattle.test_kernel.specs.Fit.{IsFit};
ghost use Rattle.store_snapshots.specs.store_facts.State.{books};
ghost use Rattle.kernel_records.specs.store_books.Books.{AreTrue};
ghost use Rattle.kernel_records.specs.cell_wish_laws.Founded.{IsFoundedCell};

use act_alone::Locus;
use base_bytes::Blob;
use base_types::{Entity, Entry};
use cell_clocks::Clock;
use cell_states::{Cell, Part, Wish};
use data_stamps::Stamp;
use edge_disk::Disk;
use edge_managers::{CountedWords, EveryVersions, Gate, Policy, Supplier};
use kernel_records::snap_cell;
use std::alloc::Global;
use store_snapshots::Store;

/// What two tries of a snapshot made.
#[derive(Clone, Copy, Debug, PartialEq, Eq)]
pub struct Snaps {
    pub first: Option<Entry>,
    pub second: Option<Entry>,
}

/// Tries a snapshot of a cell twice, and tells what was made, or nothing where the store failed. The second is never made.
pub fn snap_both<D: Disk, S: Supplier, P: Policy>(
    cell: &mut Cell,
    store: &mut Store<D>,
    blob: &mut Blob,
    gate: &Gate<S, P>,
) -> Option<Snaps>
    requires keeps { P.keeps gate.now.policy }
    requires founded { IsFoundedCell cell.old }
    requires may { (s : Supply) → (words : ℕ → List ℕ) → is_snapped (P.wish gate.now.policy) s words cell.old (books store.old) ≡ true → MayCommit (books store.old) cell.old }
    requires true_books { D.tells → AreTrue D.Disk (books store.old) store.old.disk }
    ensures { IfSome result (λ snaps. snaps.second ≡ None) }
{
    let first = match snap_cell(cell, store, blob, gate) {
        Ok(first) => first,
        Err(_) => return None,
    };
    match snap_cell(cell, store, blob, gate) {
        Ok(second) => Some(Snaps { first, second }),
        Err(_) => None,
    }
}

/// The first locus at version 3, hosted by the first container: a step wrote it since its record at version 1.
fn stepped_locus(every: u32) -> Cell
    ensures { IsFit result }
{
    let entity = Entity::of(41);
    let mut stamp = [0; 64];
    stamp[1] = 3;
    stamp[41] = 3;
    Cell {
        clock: Clock {
            entity,
            version: 3,
            stamp: Stamp(stamp),
        },
        part: Part::Locus(Some(Locus::new(Entity::of(1), 2, every, &[]))),
        wish: Wish {
            by_step: true,
            asked: false,
            newest: 1,
        },
        left: 1,
    }
}

/// Tries a snapshot of a locus with this `every` twice, in an image that has no record. It wishes one from so many versions on, and is at
/// 2 since its newest.
pub fn snap_new<D: Disk + Drop>(alloc: Global, disk: D, every: u32) -> Option<Snaps> {
    let mut store = match Store::open(alloc, disk) {
        Ok(store) => store,
        Err(_) => return None,
    };
    if !store.recs().is_empty() {
        return None;
    }
    let mut blob = match Blob::new(alloc) {
        Ok(blob) => blob,
        Err(_) => return None,
    };
    let mut cell = stepped_locus(every);
    let gate = Gate::new(CountedWords, EveryVersions);
    snap_both(&mut cell, &mut store, &mut blob, &gate)
}
