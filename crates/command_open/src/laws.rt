// What is known of a failed sync, of a disk that was watched: a law, without code.
ghost use Rattle.command_outcomes.specs.Seen.{seen_disk};
ghost use Rattle.command_promises.specs.Openings.{FailsAtSync, HasFailedSync};
ghost use Rattle.edge_watched.specs.Watching.{HasGoneOn, start_of};

use edge_disk::Disk;

/// Where the opening's sync failed and the disk has just gone on from its start, a stop might have left nothing new at any moment.
pub fn failed_sync_law<D: Disk>()
    ensures { D.tells → (old new : D) → HasGoneOn D.Disk
        (start_of D.Disk old) new
        → HasFailedSync (seen_disk D.Disk old new)
        → FailsAtSync (seen_disk D.Disk old new) }
{}
