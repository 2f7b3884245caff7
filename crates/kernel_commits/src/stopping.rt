// Why a kernel's call isn't answered Ok.
ghost use Rattle.std.specs.Prelude.{◌≡◌};
ghost use Rattle.kernel_commits.specs.Telling.{told, told_again, told_by};

use edge_disk::NoBlocks;
use kernel_commit_facts::Idle;
use kernel_invariant::Stopped;

/// Why a call of a kernel is not answered Ok.
#[derive(Clone, Copy, Debug, PartialEq, Eq)]
pub enum Stop {
    /// The locus can't step. The kernel goes on.
    Idle(Idle),
    /// Fewer blocks are free than this call needed, or the call that stopped the kernel; both numbers are of that call.
    NoBlocks(NoBlocks),
    /// A page could not be read in this call.
    ReadFault,
    /// A write or a sync failed in this call.
    WriteFault,
    /// The disk failed in an earlier call.
    Shut,
}

impl Stop {
    /// What the call that stopped the kernel answers.
    pub fn told(why: Stopped) -> Stop
        ensures { result ≡ told why }
    {
        match why {
            Stopped::NoBlocks(blocks) => Stop::NoBlocks(blocks),
            Stopped::ReadFault => Stop::ReadFault,
            Stopped::WriteFault => Stop::WriteFault,
        }
    }

    /// What each later call answers: the same numbers where blocks were too few, and Shut behind a fault of the disk.
    pub fn told_again(why: Stopped) -> Stop
        ensures { result ≡ told_again why }
    {
        match why {
            Stopped::NoBlocks(numbers) => Stop::NoBlocks(numbers),
            Stopped::ReadFault | Stopped::WriteFault => Stop::Shut,
        }
    }
}

/// What a call answers that came to this.
pub fn told_of<T>(made: Result<T, Stopped>) -> Result<T, Stop>
    ensures { result ≡ told_by made }
{
    match made {
        Ok(value) => Ok(value),
        Err(why) => Err(Stop::told(why)),
    }
}
