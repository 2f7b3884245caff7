// A kernel taken apart and put together.
ghost use Rattle.std.specs.Prelude.{◌≡◌};
ghost use Rattle.kernel_core_facts.specs.Kernels.{IsKept};
ghost use Rattle.kernel_core.specs.Parts.{held_of};

use crate::kernels::Kernel;
use base_bytes::Blob;
use edge_disk::Disk;
use kernel_core_facts::{Cell, Core, Notes, Stopped, Store};

/// The parts of a kernel, for whoever keeps them apart, as under a lock each. No part is made new when they are put together.
#[derive(Drop)]
pub struct Apart<D: Disk> {
    /// The 64 cells, each at its entity's number.
    pub cells: Vec<Cell>,
    pub store: Store<D>,
    /// The history with its marks, in the room that is left for it.
    pub notes: Notes,
    /// Room for one blob, where nothing is kept.
    pub blob: Blob,
    /// Why the kernel has stopped, if it has.
    pub stopped: Option<Stopped>,
}

impl<D: Disk> Kernel<D> {
    /// The parts of the kernel. They are lawful: a kernel may be put together of them. It takes no memory.
    pub fn apart(self) -> Apart<D>
        ensures parts { held_of result.store result.cells.items result.notes result.stopped ≡ self }
        ensures lawful { IsKept D.Disk (held_of result.store result.cells.items result.notes result.stopped) }
    {
        let Kernel { core, stopped } = self;
        let Core {
            store,
            cells,
            blob,
            notes,
        } = core;
        Apart {
            cells,
            store,
            notes,
            blob,
            stopped,
        }
    }

    /// The kernel of these parts, which are lawful as each kernel's are: the cells are in order, and where it has not stopped it is
    /// steady. It takes no memory.
    pub fn together(parts: Apart<D>) -> Kernel<D>
        requires lawful { IsKept D.Disk (held_of parts.store parts.cells.items parts.notes parts.stopped) }
        ensures { result ≡ held_of parts.store parts.cells.items parts.notes parts.stopped }
    {
        let Apart {
            cells,
            store,
            notes,
            blob,
            stopped,
        } = parts;
        let core = Core {
            store,
            cells,
            blob,
            notes,
        };
        Kernel { stopped, core }
    }
}
