// Who watches a run.
ghost use Rattle.std.specs.Prelude.{◌≡◌, ℕ, List, None, IfErr, MatchBool};
ghost use Rattle.base_types.specs.declared.histories.Entry.{Entry as AnEntry};
ghost use Rattle.script_types.specs.model_kernel.Histories.{Policy as APolicy};
ghost use Rattle.kernel_run_facts.specs.kernel_commits.Telling.{Tells, TriesByAnswer};
ghost use Rattle.kernel_run_facts.specs.kernel_invariant.Beginnings.{Beginning};
ghost use Rattle.kernel_run_facts.specs.Running.{IsCauseOf, IsFrontOf, RunsAlong};
ghost use Rattle.kernel_run_facts.specs.Watching.{IsAsLent, IsNext, LooksLeave, Shows, answer_of};

use edge_disk::Disk;
use kernel_run_facts::{Halt, Kernel, Stop};

/// Who looks at the kernel of a run, behind its births with their Stable and behind each look, and may halt the run there.
///
/// What it knows is said of the history of the run so far, where the disk tells its content.
pub trait Watcher<D: Disk> {
    // what it knows behind this history, while it lets the run go on
    ghost watches: { Self → Beginning → List AnEntry → Type 0 };

    // what it knows behind this history, where it has halted the run
    ghost leaves: { Self → Beginning → List AnEntry → Type 0 };

    /// Looks at a kernel that goes on, behind one piece more of its history, and tells whether the run is to go on.
    ///
    /// It may read the disk through the kernel. It notes nothing, changes no cell and begins no write or sync; the kernel stops for a read alone
    /// that failed, and then the run ends, whatever the answer.
    fn after(&mut self, kernel: &mut Kernel<D>) -> bool
        requires going { kernel.old.stop ≡ None }
        ensures lent { IsAsLent D.Disk kernel.old kernel.new }
        ensures knows { D.tells → (b : Beginning) (es : List AnEntry) → watches self.old b es → Shows D.Disk b es kernel.old
            → MatchBool result (watches self.new b kernel.new.parts.noted.entries) (leaves self.new b kernel.new.parts.noted.entries) };
}

/// Nobody watches: the run goes on to its end.
#[derive(Drop)]
pub(crate) struct Unwatched;

impl<D: Disk> Watcher<D> for Unwatched {
    ghost watches = { λ _ _ _. Unit {0} };

    ghost leaves = { λ _ _ _. ⊥ };

    fn after(&mut self, _kernel: &mut Kernel<D>) -> bool {
        true
    }
}

/// Asks the watcher. The run halts where it wants no more, or where a read of it failed.
pub(crate) fn ask<D: Disk, W: Watcher<D>>(
    watcher: &mut W,
    kernel: &mut Kernel<D>,
) -> Result<(), Halt>
    requires going { kernel.old.stop ≡ None }
    ensures lent { IsAsLent D.Disk kernel.old kernel.new }
    ensures ends { Tells (answer_of result) kernel.new.stop }
    ensures caused { (policy : APolicy) → IfErr (answer_of result) (IsCauseOf D.Disk policy kernel.old.parts kernel.new.parts) }
    ensures tries { TriesByAnswer (answer_of result) kernel.old.parts.noted.entries kernel.new.parts.noted.entries }
    ensures knows { D.tells → (b : Beginning) (first looked : List ℕ) (es : List AnEntry) → W.watches watcher.old b es → IsNext b es kernel.old.parts.noted.entries
        → IsFrontOf first looked → RunsAlong D.Disk b looked kernel.old
        → LooksLeave D.Disk (W.watches watcher.new) (W.leaves watcher.new) b first looked result kernel.new }
{
    let goes_on = watcher.after(kernel);
    if let Some(why) = kernel.stopped() {
        return Err(Halt::Kernel(Stop::told(why)));
    }
    if goes_on { Ok(()) } else { Err(Halt::Watcher) }
}
