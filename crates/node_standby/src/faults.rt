// Why a standby was not opened.
ghost use Rattle.std.specs.Prelude.{◌≡◌};

use edge_disk::Disk;
use kernel_views::OpenWhy;
use store_facts::Bad;

/// Why an image was not opened for a standby.
#[derive(Clone, Copy, Debug, PartialEq, Eq, Drop)]
pub enum StandbyWhy {
    /// The disk holds no image with a log: its first bad place.
    Foreign(Bad),
    /// The log has records, so many of them.
    NotEmpty { used: u16 },
    /// A read failed.
    ReadFault,
    /// The sync failed.
    WriteFault,
    /// Memory ran out.
    Memory,
}

/// Why an image was not opened for a standby, and its disk.
#[derive(Drop)]
pub struct StandbyFault<D: Disk> {
    pub why: StandbyWhy,
    pub disk: D,
}

impl From<OpenWhy> for StandbyWhy {
    ghost use Rattle.node_standby.specs.Causes.{why_of};

    ghost from_gives = { λ why e. e ≡ why_of why };

    fn from(why: OpenWhy) -> StandbyWhy {
        match why {
            OpenWhy::Foreign(bad) => StandbyWhy::Foreign(bad),
            OpenWhy::ReadFault => StandbyWhy::ReadFault,
            OpenWhy::WriteFault => StandbyWhy::WriteFault,
            OpenWhy::Memory => StandbyWhy::Memory,
        }
    }
}
