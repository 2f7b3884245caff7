// A record of a store, read as a shipment.
ghost use Rattle.std.specs.Prelude.{◌≡◌, ◌↔◌, IfOk, IfSome, IsErrOf, None, Ok, Some, false, true};
ghost use Rattle.base_types.specs.declared.records.Rec.{Rec as ARec};
ghost use Rattle.node_newest.specs.Newest.{IsOfRecord};
ghost use Rattle.node_newest.specs.Reading.{IsReadOf};
ghost use Rattle.node_pages.specs.Reading.{AnswersReads, last_rec};
ghost use Rattle.node_shipments.specs.Parts.{IsSoundShipment};
ghost use Rattle.store_snapshots.specs.store_facts.State.{books};
ghost use Rattle.store_snapshots.specs.store_books.Books.{recs_in};

use base_bytes::Blob;
use base_types::{Entity, Rec};
use edge_disk::Disk;
use node_pages::{ShipFault, last_rec, read_blocks};
use node_shipments::{Shipped, read_shipment};
use std::alloc::Global;
use store_snapshots::Store;

// Reads a record as a shipment.
fn read_record<D: Disk>(
    store: &mut Store<D>,
    blob: &mut Blob,
    alloc: Global,
    rec: &Rec,
) -> Result<Shipped, ShipFault>
    requires working { (books store.old).shut ≡ false }
    ensures same { IfOk result (λ s. (s.entity ≡ rec.now.entity) × (s.version ≡ rec.now.version) × (s.stamp ≡ rec.now.stamp)) }
    ensures sound { IfOk result IsSoundShipment }
    ensures read { D.tells → IfOk result (IsReadOf (D.reading store.old.disk) rec.now) }
    ensures answers { AnswersReads D.Disk store.old store.new result }
{
    let pages = match read_blocks(store, blob, alloc, rec) {
        Ok(pages) => pages,
        Err(fault) => return Err(fault),
    };
    match read_shipment(rec.entity, rec.version, &rec.stamp, blob.as_slice(), pages) {
        Some(shipped) => {
            shipped.sound_law();
            Ok(shipped)
        }
        None => Err(ShipFault::Memory),
    }
}

// Reads the last record of an entity, if there is one.
pub(crate) fn read_last<D: Disk>(
    store: &mut Store<D>,
    blob: &mut Blob,
    alloc: Global,
    entity: Entity,
) -> Result<Option<Shipped>, ShipFault>
    ensures shut { (books store.old).shut ≡ true ↔ IsErrOf result ShipFault.Shut }
    ensures untouched { IsErrOf result ShipFault.Shut → store.new ≡ store.old }
    ensures none { (books store.old).shut ≡ false → last_rec (recs_in (books store.old)) entity ≡ None → result ≡ Ok None }
    ensures found { IfOk result (IsOfRecord (last_rec (recs_in (books store.old)) entity)) }
    ensures sound { IfOk result (λ o. IfSome o IsSoundShipment) }
    ensures read { D.tells → (r : ARec) → last_rec (recs_in (books store.old)) entity ≡ Some r → IfOk result (λ o. IfSome o (IsReadOf (D.reading store.old.disk) r)) }
    ensures answers { (books store.old).shut ≡ false → AnswersReads D.Disk store.old store.new result }
{
    if store.is_shut() {
        return Err(ShipFault::Shut);
    }
    let rec = match last_rec(store.recs(), entity) {
        Some(rec) => rec,
        None => return Ok(None),
    };
    match read_record(store, blob, alloc, &rec) {
        Ok(shipped) => Ok(Some(shipped)),
        Err(fault) => Err(fault),
    }
}
