// Who halted a run that is watched.
ghost use Rattle.std.specs.Prelude.{◌≡◌};
ghost use Rattle.kernel_run_facts.specs.Watching.{answer_of};

use kernel_core::Stop;

/// Who halted a run that is watched.
#[derive(Clone, Copy, Debug, PartialEq, Eq)]
pub enum Halt {
    /// The kernel has stopped, in a call of the run or in a read of its watcher.
    Kernel(Stop),
    /// The watcher wanted no more, behind the births or behind a look. The kernel goes on.
    Watcher,
}

/// What the calls of the kernel answered: that the watcher halted the run is no fault of theirs.
pub fn kernel_answer(went: Result<(), Halt>) -> Result<(), Stop>
    ensures { result ≡ answer_of went }
{
    match went {
        Ok(()) => Ok(()),
        Err(Halt::Kernel(stop)) => Err(stop),
        Err(Halt::Watcher) => Ok(()),
    }
}
