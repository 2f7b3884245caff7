// Why a kernel goes on no more.
use edge_disk::NoBlocks;

/// Why a kernel has stopped: what the call that stopped it met.
#[derive(Clone, Copy, Debug, PartialEq, Eq)]
pub enum Stopped {
    /// Fewer blocks are free than the records or the page need that had to be made; nothing was written for them.
    NoBlocks(NoBlocks),
    /// A page could not be read.
    ReadFault,
    /// A write or a sync failed.
    WriteFault,
}
