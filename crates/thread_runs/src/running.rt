// A whole run of a script on threads.
ghost use Rattle.std.specs.Prelude.{◌≡◌, ◌≤◌, [], IfSome, None, true};
ghost use Rattle.kernel_runs.specs.kernel_core_facts.Kernels.{Lives, StaysClean};
ghost use Rattle.kernel_runs.specs.kernel_invariant.Beginnings.{Beginning};
ghost use Rattle.kernel_runs.specs.kernel_laws.Opening.{empty_script, with_script};
ghost use Rattle.kernel_runs.specs.model_births.Fitting.{Fits};
ghost use Rattle.kernel_runs.specs.table_births.Births.{atlas_state_in};
ghost use Rattle.kernel_runs.specs.kernel_run_facts.Alongs.{IsAlong};
ghost use Rattle.kernel_runs.specs.kernel_run_facts.Running.{IsRunBy};
ghost use Rattle.script_types.specs.Rules.{IsScript};
ghost use Rattle.script_types.specs.Scripts.{tables_of};
ghost use Rattle.thread_workers.specs.thread_desk.Desks.{FirstCounts, IsCountedFrom};
ghost use Rattle.thread_runs.specs.Ran.{EndsInSomeOrder, counts_of};

use crate::boards::{Left, work_on_board};
use edge_disk::Disk;
use edge_managers::{Gate, Policy, Supplier};
use kernel_runs::{Kernel, finish};
use script_types::Script;
use std::alloc::Global;
use std::sync::Wait;
use std::thread::Threads;
use thread_workers::{StepGate, births_law};

/// What a run on threads leaves: its kernel, and whether the board or a worker met want of memory. Then the kernel goes on, unless it has stopped, and
/// some loci may not be idle yet.
#[derive(Drop)]
pub struct Ran<D: Disk> {
    pub kernel: Kernel<D>,
    pub lacked: bool,
}

/// Goes on with rounds behind the workers, to their end, unless one of them met want of memory. A kernel that has stopped stays as it is.
fn finished<D: Disk, S: Supplier + Drop, P: Policy + Drop>(left: Left<D, S, P>) -> Ran<D>
    requires keeps { S.keeps left.gate.supply × P.keeps left.gate.policy }
    requires clean { StaysClean D.Disk (S.word left.gate.supply) left.kernel }
    ensures counted { (counts : FirstCounts) → IsCountedFrom D.Disk counts left.kernel → IsCountedFrom D.Disk counts result.kernel }
    ensures run { D.tells → (b : Beginning) → IsRunBy (S.word left.gate.supply) (P.wish left.gate.policy) b
        → Lives D.Disk b left.kernel → IsAlong D.Disk b left.kernel
        → EndsInSomeOrder D.Disk b result.lacked result.kernel }
    ensures lacked { result.lacked ≡ left.lacked }
    ensures lacking { left.lacked ≡ true → result.kernel ≡ left.kernel }
    ensures stopped { IfSome left.kernel.stop (λ why. result.kernel ≡ left.kernel) }
{
    let Left {
        mut kernel,
        gate,
        lacked,
    } = left;
    if lacked {
        return Ran { kernel, lacked };
    }
    // what it answers is why the kernel has stopped, if it has
    let _ = finish(&mut kernel, &gate);
    Ran { kernel, lacked }
}

/// Runs a script by so many workers, each in a thread of its own where one can be made, and else by the caller: the births are made by the kernel, which
/// then lies on a board of locks. Worker w makes rounds over the loci whose number leaves w by the number of workers, one look at each, until in one
/// round none of them could step; a worker ends, too, where it is answered that the kernel has stopped, or meets want of memory. When all have ended
/// the kernel is one again, and goes on with rounds over all loci until none can step, unless a worker or the board met want of memory.
///
/// The history that is left is a serial one, that of some order of looks: the births, these looks, and whole rounds behind them (`run`). It is said of
/// one run, which the caller picks: where the disk tells its content, and the kernel is live in it as long as nobody is to be born. `counted`
/// tells, whatever the disk does, why the kernel has stopped, if it has.
///
/// `steps` is told of each step while its locks are held, and may wait. Where it never waits (`StepGate::may_wait`) the workers take turns of some rounds each,
/// and wait for them instead of contending for the locks of each step. It takes memory for the board and for an item of each look, and where a thread is made
/// what that takes.
pub fn run_on_threads<
    D: Disk + Send,
    S: Supplier + Send + Sync + Drop,
    P: Policy + Send + Sync + Drop,
    R: Threads + Wait + Sync,
    G: StepGate + Sync,
>(
    rt: &R,
    alloc: Global,
    kernel: Kernel<D>,
    script: &Script,
    gate: Gate<S, P>,
    workers: u8,
    steps: &G,
) -> Ran<D>
    ghost b: { Beginning }
    requires keeps { S.keeps gate.supply × P.keeps gate.policy }
    requires managers { (b.supply ≡ S.word gate.supply) × (b.policy ≡ P.wish gate.policy) }
    requires script { b.script ≡ tables_of script.now }
    requires allowed { IsScript (tables_of script.now) }
    requires fits { Fits (atlas_state_in kernel.parts.cells) (tables_of script.now) }
    requires first { kernel.parts.noted.entries ≡ [] }
    requires going { kernel.stop ≡ None }
    requires workers { (1 ≤ workers) × (workers ≤ 16) }
    requires clean { StaysClean D.Disk (S.word gate.supply) kernel }
    ensures counted { IsCountedFrom D.Disk (counts_of D.Disk kernel) result.kernel }
    ensures run { D.tells → Lives D.Disk (with_script b (empty_script b.script.steps)) kernel
        → EndsInSomeOrder D.Disk b result.lacked result.kernel }
{
    births_law::<D>();
    let mut kernel = kernel;
    if let Err(_) = kernel.births(script) {
        return Ran {
            kernel,
            lacked: false,
        };
    }
    finished(work_on_board(rt, alloc, kernel, gate, workers, steps))
}
