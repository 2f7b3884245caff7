// The newest record of an entity of a running kernel.
ghost use Rattle.std.specs.Prelude.{◌≡◌, ◌↔◌, IfOk, IsErrOf, None, Ok, false, true};
ghost use Rattle.edge_disk.specs.Counts.{Rose};
ghost use Rattle.node_lending.specs.kernel_core_facts.Kernels.{Lives};
ghost use Rattle.node_lending.specs.kernel_run_facts.Watching.{IsAsLent};
ghost use Rattle.node_newest.specs.Newest.{IsOfRecord, ShipsNewest, stop_behind};
ghost use Rattle.node_pages.specs.Reading.{GoesByReads, last_rec};
ghost use Rattle.node_shipments.specs.kernel_invariant.Beginnings.{Beginning as ABeginning};
ghost use Rattle.store_snapshots.specs.store_facts.State.{books};
ghost use Rattle.store_snapshots.specs.store_books.Books.{recs_in};

use crate::recording::read_last;
use base_types::Entity;
use core::mem::replace_with;
use edge_disk::Disk;
use model_run_rules::commit_record_law;
use node_lending::{Apart, Kernel, Stopped, lending_law};
use node_pages::ShipFault;
use node_shipments::Shipped;
use std::alloc::Global;

// Why the kernel has stopped behind reads that came to this.
fn stop_behind(came: &Result<Option<Shipped>, ShipFault>, stop: Option<Stopped>) -> Option<Stopped>
    ensures { result ≡ stop_behind came.now stop }
{
    match came {
        Err(ShipFault::ReadFault) => Some(Stopped::ReadFault),
        Ok(_) | Err(ShipFault::Shut) | Err(ShipFault::Memory) => stop,
    }
}

// A kernel that is taken, read and given back.
fn read_newest<D: Disk>(
    kernel: Kernel<D>,
    asked: (Global, Entity),
) -> (Kernel<D>, Result<Option<Shipped>, ShipFault>)
    ensures shut { (books kernel.parts.store).shut ≡ true ↔ IsErrOf result.1 ShipFault.Shut }
    ensures untouched { IsErrOf result.1 ShipFault.Shut → result.0 ≡ kernel }
    ensures none { (books kernel.parts.store).shut ≡ false → last_rec (recs_in (books kernel.parts.store)) asked.1 ≡ None → result.1 ≡ Ok None }
    ensures found { IfOk result.1 (IsOfRecord (last_rec (recs_in (books kernel.parts.store)) asked.1)) }
    ensures told { D.tells → (b : ABeginning) → Lives D.Disk b kernel → kernel.stop ≡ None → IfOk result.1 (ShipsNewest b kernel.parts.noted.entries asked.1) }
    ensures read_fault { IsErrOf result.1 ShipFault.ReadFault → Rose (D.faults kernel.parts.store.disk) (D.faults result.0.parts.store.disk) }
    ensures stop { result.0.stop ≡ stop_behind result.1 kernel.stop }
    ensures notes { result.0.parts.noted ≡ kernel.parts.noted }
    ensures cells { result.0.parts.cells ≡ kernel.parts.cells }
    ensures reads { GoesByReads D.Disk kernel.parts.store result.0.parts.store }
    ensures lent { kernel.stop ≡ None → IsAsLent D.Disk kernel result.0 }
{
    lending_law::<D>();
    commit_record_law();
    let (alloc, entity) = asked;
    // An entity's number is below 64.
    let _ = entity.number();
    let Apart {
        cells,
        mut store,
        notes,
        mut blob,
        stopped,
    } = kernel.apart();
    let came = read_last(&mut store, &mut blob, alloc, entity);
    let stopped = stop_behind(&came, stopped);
    let parts = Apart {
        cells,
        store,
        notes,
        blob,
        stopped,
    };
    (Kernel::together(parts), came)
}

/// Reads the newest record of an entity, and makes a shipment of what it tells: what the entity was there, with the words of each page that has a
/// block. It answers none exactly where the log has no record of the entity. It reads a block for each page, and 8 at most for the blob; it begins
/// no write and no sync, and notes nothing. It takes the memory of the pages.
///
/// `Shut` comes exactly where the store has failed before; then nothing is changed. `ReadFault` comes only where the disk's count of faults rose, and
/// stops the kernel, whatever it had stopped for before. `Memory` is also the answer where a disk that doesn't tell its bytes gives some that spell
/// nothing. A kernel that goes on is given back as a watcher has to give it back, whatever the answer.
pub fn newest<D: Disk>(
    kernel: &mut Kernel<D>,
    alloc: Global,
    entity: Entity,
) -> Result<Option<Shipped>, ShipFault>
    ensures shut { (books kernel.old.parts.store).shut ≡ true ↔ IsErrOf result ShipFault.Shut }
    ensures untouched { IsErrOf result ShipFault.Shut → kernel.new ≡ kernel.old }
    ensures none { (books kernel.old.parts.store).shut ≡ false → last_rec (recs_in (books kernel.old.parts.store)) entity ≡ None → result ≡ Ok None }
    ensures found { IfOk result (IsOfRecord (last_rec (recs_in (books kernel.old.parts.store)) entity)) }
    ensures told { D.tells → (b : ABeginning) → Lives D.Disk b kernel.old → kernel.old.stop ≡ None → IfOk result (ShipsNewest b kernel.old.parts.noted.entries entity) }
    ensures read_fault { IsErrOf result ShipFault.ReadFault → Rose (D.faults kernel.old.parts.store.disk) (D.faults kernel.new.parts.store.disk) }
    ensures stop { kernel.new.stop ≡ stop_behind result kernel.old.stop }
    ensures notes { kernel.new.parts.noted ≡ kernel.old.parts.noted }
    ensures cells { kernel.new.parts.cells ≡ kernel.old.parts.cells }
    ensures reads { GoesByReads D.Disk kernel.old.parts.store kernel.new.parts.store }
    ensures lent { kernel.old.stop ≡ None → IsAsLent D.Disk kernel.old kernel.new }
{
    replace_with(kernel, (alloc, entity), read_newest)
}
