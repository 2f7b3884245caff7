// A client that loses the first node.
ghost use Rattle.std.specs.Prelude.{[], ◌∷◌, ◌≡◌, ◌≤◌, ◌++◌, List, length};
ghost use Rattle.edge_disk.specs.Image.{Image};
ghost use Rattle.edge_disk.specs.Moments.{LeavesOnly};
ghost use Rattle.base_types.specs.declared.histories.Entry.{Entry as AnEntry};
ghost use Rattle.base_types.specs.declared.histories.Event.TheVariants.{Stable};
ghost use Rattle.node_exchange.specs.Wires.{AreInStep};
ghost use Rattle.node_standby.specs.node_shipments.Runs.{AreShipments};
ghost use Rattle.node_standby.specs.Following.{Follows};
ghost use Rattle.node_standby.specs.Outliving.{Outlives};
ghost use Rattle.node_standby.specs.node_shipments.kernel_invariant.Beginnings.{Beginning as ABeginning, completed};

use crate::exchanging::{Happening, exchange};
use crate::lines::Lines;
use edge_disk::Disk;
use node_standby::{Shipped, Standby, image_law, takeover_law};

/// Plays events between two nodes, as far as memory suffices, and then loses the first one with its disk. It answers how many shipments were
/// acknowledged to it by then, no fewer than before, and the second disk.
///
/// What the first one knew to be acknowledged is not lost: where that holds the commits of a Stable, each image that a stop leaves of the
/// second disk from then on means a state in which all that came before that Stable has happened (`survives`). Where it held them before the events,
/// so does each image at each moment of them (`throughout`).
pub fn take_over<D: Disk, E: Drop>(
    first: E,
    lines: Lines,
    made: &[Shipped],
    events: &[Happening],
    standby: Standby<D>,
) -> (u64, D)
    requires step { AreInStep lines standby.count (length made.now) }
    ensures acked { lines.sender.acked ≤ result.0 }
    ensures survives { D.tells → (b : ABeginning) (es fs gs : List AnEntry) (e : AnEntry) (c : Image) → Follows b es D.Disk standby
        → AreShipments b es made.now → es ≡ (fs ++ e ∷ []) ++ gs → e.event ≡ Stable
        → length (completed b (fs ++ e ∷ [])) ≤ result.0 → D.may_leave result.1 c → Outlives b es fs c }
    ensures throughout { D.tells → (b : ABeginning) (es fs gs : List AnEntry) (e : AnEntry) → Follows b es D.Disk standby
        → AreShipments b es made.now → es ≡ (fs ++ e ∷ []) ++ gs → e.event ≡ Stable
        → length (completed b (fs ++ e ∷ [])) ≤ lines.sender.acked → LeavesOnly D.Disk standby.store.disk result.1 (Outlives b es fs) }
{
    let mut lines = lines;
    let mut standby = standby;
    let _ = exchange(&mut lines, made, events, &mut standby);
    let acked = lines.acked();
    drop(first);
    image_law::<D>();
    takeover_law();
    (acked, standby.into_disk())
}
