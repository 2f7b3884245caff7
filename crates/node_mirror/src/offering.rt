// New commits, offered behind those that were.
ghost use Rattle.std.specs.Prelude.{◌≡◌, ◌^◌, ◌<◌, List, None, length, slice_index};
ghost use Rattle.base_types.specs.declared.histories.Entry.{Entry as AnEntry};
ghost use Rattle.node_looks.specs.kernel_core.kernel_core_facts.Kernels.{Lives};
ghost use Rattle.kernel_run_facts.specs.Watching.{IsAsLent, Shows};
ghost use Rattle.model_new_commits.specs.Found.{AreFound};
ghost use Rattle.model_new_commits.specs.model_run_rules.model_kernel.Choices.{Commit as ACommit};
ghost use Rattle.node_mirror.specs.Shipping.{ShipsNew};
ghost use Rattle.node_offers.specs.node_newest.Newest.{stop_behind as stop_by};
ghost use Rattle.node_offers.specs.Offering.{KnowsNewest, OffersMore};
ghost use Rattle.node_rounds.specs.Going.{AllShip};
ghost use Rattle.node_rounds.specs.node_standby.node_shipments.kernel_invariant.Beginnings.{Beginning as ABeginning, completed};
ghost use Rattle.node_world.specs.Worlds.{offered};

use edge_disk::Disk;
use node_looks::{Kernel, shown_commits_law};
use node_offers::{ShipFault, offer_new};
use node_rounds::Shipped;
use node_world::Sender;
use std::alloc::Global;

/// Offers the commits behind the first so many, all of which are offered, where they are found by what is known.
pub(crate) fn offer<D: Disk>(
    kernel: &mut Kernel<D>,
    alloc: Global,
    known: &mut [u64; 64],
    sender: &mut Sender<Shipped>,
) -> Result<(), ShipFault>
    requires going { kernel.old.stop ≡ None }
    ensures lent { IsAsLent D.Disk kernel.old kernel.new }
    ensures stop { kernel.new.stop ≡ stop_by result None }
    ensures more { OffersMore sender.old sender.new }
    ensures few { offered sender.old < 2 ^ 64 → offered sender.new < 2 ^ 64 }
    ensures ships { D.tells → (b : ABeginning) (before : List ACommit) → Lives D.Disk b kernel.old
        → AreFound (slice_index known.old) before (completed b kernel.old.parts.noted.entries)
        → AllShip b kernel.old.parts.noted.entries sender.old → offered sender.old ≡ length before
        → ShipsNew b kernel.old.parts.noted.entries known.new sender.new result }
{
    offer_new(kernel, alloc, known, sender)
}

/// Offers the commits of one piece more of a run, behind which those before are offered.
pub(crate) fn offer_shown<D: Disk>(
    kernel: &mut Kernel<D>,
    alloc: Global,
    known: &mut [u64; 64],
    sender: &mut Sender<Shipped>,
) -> Result<(), ShipFault>
    requires going { kernel.old.stop ≡ None }
    ensures lent { IsAsLent D.Disk kernel.old kernel.new }
    ensures stop { kernel.new.stop ≡ stop_by result None }
    ensures more { OffersMore sender.old sender.new }
    ensures few { offered sender.old < 2 ^ 64 → offered sender.new < 2 ^ 64 }
    ensures ships { D.tells → (b : ABeginning) (es : List AnEntry) → Shows D.Disk b es kernel.old
        → KnowsNewest b es known.old → AllShip b es sender.old → offered sender.old ≡ length (completed b es)
        → ShipsNew b kernel.old.parts.noted.entries known.new sender.new result }
{
    shown_commits_law::<D>();
    offer(kernel, alloc, known, sender)
}
