// What came of a look, and why one stops the kernel.
ghost use Rattle.std.specs.Prelude.{◌≡◌};
ghost use Rattle.kernel_core_facts.specs.Stepping.{IsOfOpen, stop_by};

use kernel_commits::{Idle, Stopped};
use page_store::PageFault;
use table_births::Made;

/// What came of a step, or of a look at a locus.
#[derive(Clone, Copy, PartialEq, Eq, Debug)]
pub enum Looked {
    /// A step was made.
    Made(Made),
    /// None was: the locus can't step.
    Idle(Idle),
}

/// Why a fault of paging stops the kernel. While it goes on its store works, and is not shut.
pub fn page_stop(fault: PageFault) -> Stopped
    requires { IsOfOpen fault }
    ensures { result ≡ stop_by fault }
{
    match fault {
        PageFault::NoBlocks(blocks) => Stopped::NoBlocks(blocks),
        PageFault::ReadFault => Stopped::ReadFault,
        PageFault::WriteFault => Stopped::WriteFault,
        PageFault::Shut => unreachable!(),
    }
}
