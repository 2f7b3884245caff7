// What is kept on the disk of a run on one thread. The function does nothing: its contract
// is a law.
ghost use Rattle.command_source.specs.command_outcomes.Seen.{seen_disk};
ghost use Rattle.command_source.specs.command_outcomes.declared.statuses.Status.{Status};
ghost use Rattle.open_kernel.specs.kernel_invariant.Beginnings.{Beginning};
ghost use Rattle.open_kernel.specs.kernel_invariant.Live.{IsRunning, KernelView};
ghost use Rattle.command_promises.specs.Keeping.{GoesOnFrom, IsKept};

use edge_disk::Disk;

/// A kernel that is running, or has stopped, has kept its run: each mark is at most the clock, a stop at any moment leaves a cut that holds
/// all that was acknowledged by then, and one from now on the cut of all records. What was left before the run's first moment is what
/// could be left before the call, if the disk went on so.
pub fn kept_law<D: Disk>()
    ensures { (b : Beginning) (k : KernelView) (status : Status) (old new : D) → D.tells
        → IsRunning b D.Disk k new
        → GoesOnFrom D.Disk b.first old new
        → IsKept b (seen_disk D.Disk old new)
        (record { status = status; history = k.history; marks = k.marks }) }
{}
