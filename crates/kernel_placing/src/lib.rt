//! Whose the blocks of a store are while a table's pages are put into its free ones. The function does nothing: its contract is the law.
#![tactic(auto)]

ghost use Rattle.kernel_placing.specs.Placing.{PlacedOwnersLaw};

use edge_disk::Disk;

/// Where the blocks of a store have one owner each, and blocks that were free are taken for an entity that had none, they have one owner
/// each behind that.
pub fn placed_owners_law<D: Disk>()
    ensures { PlacedOwnersLaw D.Disk }
{}
