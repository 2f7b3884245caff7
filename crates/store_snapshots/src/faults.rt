// Why a call of a store failed.
use edge_disk::NoBlocks;

/// Why a record was not committed, or a blob not read.
#[derive(Clone, Copy, Debug, PartialEq, Eq)]
pub enum StoreFault {
    /// Fewer blocks are free than the blob needs.
    NoBlocks(NoBlocks),
    /// A read of the disk failed.
    ReadFault,
    /// A write or a sync of the disk failed.
    WriteFault,
    /// An earlier call failed at the disk.
    Shut,
}
