use edge_disk::NoBlocks;

/// Why a page was not read or written.
#[derive(Clone, Copy, Debug, PartialEq, Eq)]
pub enum PageFault {
    /// A block is needed, and none is free.
    NoBlocks(NoBlocks),
    /// The page's block could not be read.
    ReadFault,
    /// The page's block could not be written.
    WriteFault,
    /// An earlier call failed.
    Shut,
}
