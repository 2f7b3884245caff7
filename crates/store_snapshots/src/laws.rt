// A law of stores. The function does nothing: its contract is the law.
ghost use Rattle.store_facts.specs.Committed.{SameKeptLaw};

use edge_disk::Disk;

/// Where nothing was committed, as between the calls of a `PageStore`, the same records are kept.
pub fn same_kept_law<D: Disk>()
    ensures { SameKeptLaw D.Disk }
{}
