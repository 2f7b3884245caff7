// What a commit of a cell tells, and how many records are kept. The functions do nothing: the contract of each is the law.
ghost use Rattle.kernel_records.specs.Keeping.{FewKeptLaw, KeptMoreLaw, NewestLaw, SettledStoreLaw};
ghost use Rattle.kernel_records.specs.Told.{LeftCellLaw, ToldCommitLaw};

use edge_disk::Disk;

/// After a commit of a cell, also one that failed, each state that had the cell has it still, with clean pages, whose blocks are held.
pub fn left_cell_law<D: Disk>()
    ensures { LeftCellLaw D.Disk }
{}

/// After a commit that was made the new record tells besides what the entity is there.
pub fn told_commit_law<D: Disk>()
    ensures { ToldCommitLaw D.Disk }
{}

/// A record more in memory is one kept record more at most, of its entity.
pub fn kept_more_law()
    ensures { KeptMoreLaw }
{}

/// The newest records stay as a record comes, or it takes the place of its entity's.
pub fn newest_law()
    ensures { NewestLaw }
{}

/// Where newest records rest on newest ones alone, each entity has one kept record at most.
pub fn settled_store_law()
    ensures { SettledStoreLaw }
{}

/// Where no entity has more kept records than some number, all kept records are 64 times as many at most.
pub fn few_kept_law()
    ensures { FewKeptLaw }
{}
