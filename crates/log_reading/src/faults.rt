// Why a log could not be read.
ghost use Rattle.std.specs.Prelude.{◌≡◌};

use edge_disk::DiskFault;
use image_blocks::Bad;
use std::alloc::AllocFailed;

/// Why a log could not be read.
#[derive(Clone, Copy, Debug, PartialEq, Eq, Drop)]
pub enum ReadingFault {
    /// The disk holds no image with a log: its first bad place.
    Foreign(Bad),
    /// A read failed.
    ReadFault,
    /// Memory ran out.
    Memory,
}

impl From<DiskFault> for ReadingFault {
    ghost use Rattle.log_reading.specs.declared.faults.ReadingFault.TheVariants.{ReadFault};

    ghost from_gives = { λ _ e. e ≡ ReadFault };

    fn from(_fault: DiskFault) -> ReadingFault {
        ReadingFault::ReadFault
    }
}

impl<T: Drop> From<AllocFailed<T>> for ReadingFault {
    ghost use Rattle.log_reading.specs.declared.faults.ReadingFault.TheVariants.{Memory};

    ghost from_gives = { λ _ e. e ≡ Memory };

    fn from(_error: AllocFailed<T>) -> ReadingFault {
        ReadingFault::Memory
    }
}
