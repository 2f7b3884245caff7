//! A running kernel from whose store only was read, by whoever has it lent. The function does nothing: its contract is a law.
#![tactic(auto)]

ghost use Rattle.node_lending.specs.Lending.{KeptLaw, LentLaw};

use edge_disk::Disk;
use kernel_laws::going_law;

/// A kernel that goes on, and from whose store only was read, is given back as a watcher of a run has to give it back: live in each run in which it was, and
/// stopped for a read alone that failed (`lent`). Whatever it had stopped for, its parts are lawful then (`kept`).
pub fn lending_law<D: Disk>()
    ensures lent { LentLaw D.Disk }
    ensures kept { KeptLaw D.Disk }
{
    going_law::<D>();
}

pub use kernel_core::{Apart, Cell, Kernel, Stopped};
pub use node_pages::{ShipFault, last_rec, read_blocks};
