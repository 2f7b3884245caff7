//! Why pages could not be read.
ghost use Rattle.std.specs.Prelude.{◌≡◌};

use edge_disk::DiskFault;
use std::alloc::{AllocError, AllocFailed};

// Why pages could not be read.
#[derive(Clone, Copy, Debug, PartialEq, Eq, Drop)]
pub(crate) enum PagesFault {
    // A read failed.
    ReadFault,
    // Memory ran out.
    Memory,
}

impl From<DiskFault> for PagesFault {
    ghost use Rattle.image_reading.specs.declared.faults.PagesFault.TheVariants.{ReadFault};

    ghost from_gives = { λ _ e. e ≡ ReadFault };

    fn from(_fault: DiskFault) -> PagesFault {
        PagesFault::ReadFault
    }
}

impl From<AllocError> for PagesFault {
    ghost use Rattle.image_reading.specs.declared.faults.PagesFault.TheVariants.{Memory};

    ghost from_gives = { λ _ e. e ≡ Memory };

    fn from(_error: AllocError) -> PagesFault {
        PagesFault::Memory
    }
}

impl<T: Drop> From<AllocFailed<T>> for PagesFault {
    ghost use Rattle.image_reading.specs.declared.faults.PagesFault.TheVariants.{Memory};

    ghost from_gives = { λ _ e. e ≡ Memory };

    fn from(_error: AllocFailed<T>) -> PagesFault {
        PagesFault::Memory
    }
}
