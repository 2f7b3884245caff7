// What is done behind each look.
ghost use Rattle.std.specs.Prelude.{◌≡◌, ℕ, List, IfErr, None, OnOk, length};
ghost use Rattle.base_types.specs.declared.histories.Entry.{Entry as AnEntry};
ghost use Rattle.drawn_words.specs.Words.{Words};
ghost use Rattle.kernel_run_facts.specs.Watching.{IsAsLent, Shows};
ghost use Rattle.node_mirror.specs.Mirrors.{Mirrors};
ghost use Rattle.node_mirror.specs.Stops.{StopsLine, stop_behind, stop_of};
ghost use Rattle.node_rounds.specs.Going.{AreInStep};
ghost use Rattle.node_rounds.specs.node_standby.Following.{Follows};
ghost use Rattle.node_rounds.specs.node_standby.Standing.{KeepsCount};
ghost use Rattle.node_rounds.specs.node_standby.node_shipments.kernel_invariant.Beginnings.{Beginning as ABeginning};

use crate::lines::Line;
use crate::offering::offer_shown;
use crate::stops::MirrorStop;
use edge_disk::Disk;
use node_looks::{Kernel, step_count_at};
use node_offers::ShipFault;
use std::alloc::Global;

// Why commits were not offered. The kernel goes on, so its store is not shut.
fn stop_of(fault: ShipFault) -> MirrorStop
    ensures { result ≡ stop_of fault }
{
    match fault {
        ShipFault::ReadFault => MirrorStop::Reading,
        ShipFault::Memory | ShipFault::Shut => MirrorStop::Memory,
    }
}

/// Offers the new commits of a kernel, and makes a round where a step stands behind the entries that were noted when it was asked last.
pub(crate) fn follow<D: Disk, E: Disk>(
    kernel: &mut Kernel<D>,
    alloc: Global,
    known: &mut [u64; 64],
    noted: usize,
    line: &mut Line<E>,
) -> Result<(), MirrorStop>
    requires going { kernel.old.stop ≡ None }
    requires step { AreInStep line.old.sender line.old.standby }
    ensures lent { IsAsLent D.Disk kernel.old kernel.new }
    ensures stop { kernel.new.stop ≡ stop_behind result }
    ensures step { AreInStep line.new.sender line.new.standby }
    ensures loss { line.new.loss ≡ line.old.loss }
    ensures stops { IfErr result (StopsLine E.Disk line.old.standby line.new.standby) }
    ensures counts { KeepsCount E.Disk line.old.standby line.new.standby }
    ensures mirrors { D.tells → (words : Words) (b : ABeginning) (es : List AnEntry) → Mirrors words b es known.old noted line.old → Shows D.Disk b es kernel.old
        → OnOk result (Mirrors words b kernel.new.parts.noted.entries known.new (length kernel.new.parts.noted.entries) line.new) }
    ensures follows { D.tells → (words : Words) (b : ABeginning) (es : List AnEntry) → Mirrors words b es known.old noted line.old → Shows D.Disk b es kernel.old
        → Follows b es E.Disk line.old.standby → Follows b kernel.new.parts.noted.entries E.Disk line.new.standby }
{
    if let Err(fault) = offer_shown(kernel, alloc, known, &mut line.sender) {
        return Err(stop_of(fault));
    }
    let due = 0 < step_count_at(kernel.history(), noted);
    match line.go(due) {
        Ok(()) => Ok(()),
        Err(why) => Err(MirrorStop::Round(why)),
    }
}
