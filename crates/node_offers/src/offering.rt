// New commits, offered.
ghost use Rattle.std.specs.Prelude.{◌≡◌, ◌^◌, ◌<◌, ◌≤◌, ℕ, List, IfOk, IfSome, IsErrOf, OnErr, OnOk, None, length, option_to_list, slice_index};
ghost use Rattle.edge_disk.specs.Counts.{Rose};
ghost use Rattle.node_newest.specs.kernel_core.kernel_book_laws.Matching.{newest_of};
ghost use Rattle.node_newest.specs.kernel_core.kernel_core_facts.Kernels.{Lives};
ghost use Rattle.node_newest.specs.kernel_run_facts.Watching.{IsAsLent};
ghost use Rattle.model_new_commits.specs.Found.{AreFound};
ghost use Rattle.model_new_commits.specs.model_run_rules.model_kernel.Choices.{Commit as ACommit};
ghost use Rattle.node_newest.specs.Newest.{stop_behind as stop_by};
ghost use Rattle.node_offers.specs.Offering.{OffersMore, OffersNew, OffersNewest, if_newer, with_offers};
ghost use Rattle.node_world.specs.Worlds.{offered};
ghost use Rattle.node_newest.specs.node_shipments.kernel_invariant.Beginnings.{Beginning as ABeginning, completed};

use base_types::Entity;
use edge_disk::Disk;
use kernel_watchers::shown_commits_law;
use node_newest::{Cell, Kernel, ShipFault, Shipped, newest};
use node_world::Sender;
use std::alloc::{AllocError, Global};

// The version of the newest record of the entity with this number, as its cell has it; 0 for none.
fn newest_version(cells: &[Cell], number: u8) -> u64
    ensures { result ≡ newest_of cells.now number }
{
    match cells.get(number as usize) {
        Some(cell) => cell.wish.newest,
        None => 0,
    }
}

// Offers a shipment, if there is one.
fn offer_found(found: Option<Shipped>, sender: &mut Sender<Shipped>) -> Result<(), AllocError>
    ensures sound { IfSome found (λ s. 1 ≤ s.version) }
    ensures ok { OnOk result (sender.new ≡ with_offers sender.old (option_to_list found)) }
    ensures err { OnErr result (sender.new ≡ sender.old) }
    ensures few { offered sender.old < 2 ^ 64 → offered sender.new < 2 ^ 64 }
{
    match found {
        Some(shipped) => {
            shipped.sound_law();
            sender.offer(shipped)?;
            Ok(())
        }
        None => Ok(()),
    }
}

// Offers the newest commit of an entity, if it has one.
fn offer_newest<D: Disk>(
    kernel: &mut Kernel<D>,
    alloc: Global,
    entity: Entity,
    sender: &mut Sender<Shipped>,
) -> Result<(), ShipFault>
    requires going { kernel.old.stop ≡ None }
    ensures lent { IsAsLent D.Disk kernel.old kernel.new }
    ensures stop { kernel.new.stop ≡ stop_by result None }
    ensures read_fault { IsErrOf result ShipFault.ReadFault → Rose (D.faults kernel.old.parts.store.disk) (D.faults kernel.new.parts.store.disk) }
    ensures more { OffersMore sender.old sender.new }
    ensures err { OnErr result (sender.new ≡ sender.old) }
    ensures few { offered sender.old < 2 ^ 64 → offered sender.new < 2 ^ 64 }
    ensures told { D.tells → (b : ABeginning) → Lives D.Disk b kernel.old
        → OnOk result (OffersNewest b kernel.old.parts.noted.entries (if_newer b kernel.old.parts.noted.entries 0 entity) sender.old sender.new) }
{
    match newest(kernel, alloc, entity) {
        Ok(found) => match offer_found(found, sender) {
            Ok(()) => Ok(()),
            Err(_) => Err(ShipFault::Memory),
        },
        Err(fault) => Err(fault),
    }
}

// Offers the newest commit of an entity, where that is later than is known, and tells which version is known from then on.
fn offer_one<D: Disk>(
    kernel: &mut Kernel<D>,
    alloc: Global,
    number: u8,
    known: u64,
    sender: &mut Sender<Shipped>,
) -> Result<u64, ShipFault>
    requires low { number < 64 }
    requires going { kernel.old.stop ≡ None }
    ensures lent { IsAsLent D.Disk kernel.old kernel.new }
    ensures stop { kernel.new.stop ≡ stop_by result None }
    ensures read_fault { IsErrOf result ShipFault.ReadFault → Rose (D.faults kernel.old.parts.store.disk) (D.faults kernel.new.parts.store.disk) }
    ensures more { OffersMore sender.old sender.new }
    ensures err { OnErr result (sender.new ≡ sender.old) }
    ensures few { offered sender.old < 2 ^ 64 → offered sender.new < 2 ^ 64 }
    ensures known { IfOk result (λ version. version ≡ newest_of kernel.old.parts.cells number) }
    ensures told { D.tells → (b : ABeginning) → Lives D.Disk b kernel.old
        → OnOk result (OffersNewest b kernel.old.parts.noted.entries (if_newer b kernel.old.parts.noted.entries known number) sender.old sender.new) }
{
    shown_commits_law::<D>();
    let version = newest_version(kernel.cells(), number);
    if known < version {
        offer_newest(kernel, alloc, Entity::of(number), sender)?;
    }
    Ok(version)
}

/// Offers the newest commit of each entity, ascending, of which that is later than is known, and knows it from then on.
///
/// Whoever knows the newest commits behind a front of a run offers so exactly the commits that came since, in their order, where these ascend by
/// entity, one of each (`new_commits_law`): those with which a run begins, those of its births, and those of each look. `ReadFault` comes only where the
/// disk's count of faults rose, and stops the kernel; `Shut` only where its store had failed before. Behind a fault a front of the commits was offered.
///
/// It begins no write and no sync, notes nothing and changes no cell. It reads the blocks of each such record (`newest`), and takes the memory of the
/// shipments.
pub fn offer_new<D: Disk>(
    kernel: &mut Kernel<D>,
    alloc: Global,
    known: &mut [u64; 64],
    sender: &mut Sender<Shipped>,
) -> Result<(), ShipFault>
    requires going { kernel.old.stop ≡ None }
    ensures lent { IsAsLent D.Disk kernel.old kernel.new }
    ensures stop { kernel.new.stop ≡ stop_by result None }
    ensures read_fault { IsErrOf result ShipFault.ReadFault → Rose (D.faults kernel.old.parts.store.disk) (D.faults kernel.new.parts.store.disk) }
    ensures more { OffersMore sender.old sender.new }
    ensures few { offered sender.old < 2 ^ 64 → offered sender.new < 2 ^ 64 }
    ensures offers { D.tells → (b : ABeginning) (before : List ACommit) → Lives D.Disk b kernel.old
        → AreFound (slice_index known.old) before (completed b kernel.old.parts.noted.entries)
        → OffersNew b kernel.old.parts.noted.entries (length before) known.new sender.old sender.new result }
{
    shown_commits_law::<D>();
    for number in 0..64u8 {
        match offer_one(kernel, alloc, number, known[number as usize], sender) {
            Ok(version) => known[number as usize] = version,
            Err(fault) => return Err(fault),
        }
    }
    Ok(())
}
