//! A kernel that a runtime keeps its objects in: opened, with those born who are to live there, and its loci stepping as the runtime says.
ghost use Rattle.std.specs.Prelude.{◌≡◌, ◌≤◌, ◌++◌, ℕ, List, [], IfOk, IfErr};
ghost use Rattle.command_outcomes.specs.Seen.{seen_disk};
ghost use Rattle.command_open.specs.command_promises.Openings.{HasOpened, Managers};
ghost use Rattle.command_open.specs.command_promises.Ready.{StopsOpening};
ghost use Rattle.kernel_core.specs.kernel_core_facts.Kernels.{StaysClean};
ghost use Rattle.kernel_core.specs.kernel_invariant.Beginnings.{Beginning};
ghost use Rattle.kernel_runs.specs.kernel_run_facts.Running.{IsRunBy};
ghost use Rattle.kernel_clients.specs.Serving.{Serves, ServesToEnd};
ghost use Rattle.script_types.specs.Rules.{IsScript};
ghost use Rattle.script_types.specs.Scripts.{tables_of};
ghost use Rattle.script_types.specs.model_kernel.State.{Supply};

use base_types::Entity;
use command_open::{Kernel, Unopened, open_for};
use edge_disk::Disk;
use edge_managers::{Gate, Policy, Supplier};
use kernel_runs::finish;
use script_types::Script;
use std::alloc::Global;

/// Opens the image on a disk for a script, and makes the births that it lacks, with their Stable. Where that stops, for a fault of the disk or
/// for want of blocks, the kernel tells why (`Kernel::stopped`), and does nothing more.
///
/// Whoever the managers are: the image meant a state, and while its numbers are low the kernel is live in the run of the script from there.
/// It costs what `open_for` does, 138 writes and syncs, and a record of each newborn and of the atlas. Behind it no memory is taken.
pub fn open_objects<D: Disk>(
    alloc: Global,
    script: &Script,
    disk: D,
) -> Result<Kernel<D>, Unopened<D>>
    requires allowed { IsScript (tables_of script.now) }
    requires frames { (1 ≤ script.now.frames) × (script.now.frames ≤ 256) }
    ensures serves { D.tells → (m : Managers) → IfOk result (λ k. HasOpened m (tables_of script.now) (D.reading disk) (D.clock disk) (λ b. Serves D.Disk b [] k)) }
    ensures clean { (s : Supply) → IfOk result (StaysClean D.Disk s) }
    ensures stops { IfErr result (λ stopped. StopsOpening (tables_of script.now)
        (seen_disk D.Disk disk stopped.disk) stopped.fault) }
{
    match open_for(alloc, script, disk) {
        Ok(mut kernel) => {
            // why it stops, if it does, stands in the kernel
            let _ = kernel.births(script);
            Ok(kernel)
        }
        Err(stopped) => Err(stopped),
    }
}

/// One look at each of these loci, one behind the other: a step, with the Stable that it owes, or with a record of each entity that it wrote
/// and for which one is wished. A locus that can't step is passed over, and a kernel that has stopped looks at none.
///
/// Where the kernel goes on, its history has exactly these looks more. It takes no memory; a look begins 99,585 writes and syncs at most.
pub fn let_run<D: Disk, S: Supplier, P: Policy>(
    kernel: &mut Kernel<D>,
    turns: &[Entity],
    gate: &Gate<S, P>,
)
    requires keeps { S.keeps gate.now.supply }
    requires wishes { P.keeps gate.now.policy }
    requires clean { StaysClean D.Disk (S.word gate.now.supply) kernel.old }
    ensures serves { D.tells → (b : Beginning) (looked : List ℕ) → b.supply ≡ S.word gate.now.supply → b.policy ≡ P.wish gate.now.policy
        → Serves D.Disk b looked kernel.old → Serves D.Disk b (looked ++ turns.now) kernel.new }
    ensures clean { StaysClean D.Disk (S.word gate.now.supply) kernel.new }
{
    for i in 0..turns.len() {
        let _ = kernel.step(turns[i], gate);
    }
}

/// One look at each of these loci, as in `let_run`, and then one at each that is born, by number, round after round until none can step.
///
/// Where the kernel goes on, its history has these looks and rounds more, and no locus can step: it was stopped, has halted or is out of steps. Each round but the
/// last makes a step, so there are at most as many as the loci have steps, and one beside. It takes no memory; a look begins 99,585 writes and
/// syncs at most.
pub fn run_to_end<D: Disk, S: Supplier, P: Policy>(
    kernel: &mut Kernel<D>,
    turns: &[Entity],
    gate: &Gate<S, P>,
)
    requires keeps { S.keeps gate.now.supply }
    requires wishes { P.keeps gate.now.policy }
    requires clean { StaysClean D.Disk (S.word gate.now.supply) kernel.old }
    ensures ends { D.tells → (b : Beginning) (looked : List ℕ) → IsRunBy (S.word gate.now.supply) (P.wish gate.now.policy) b
        → Serves D.Disk b looked kernel.old → ServesToEnd D.Disk b (looked ++ turns.now) kernel.new }
    ensures clean { StaysClean D.Disk (S.word gate.now.supply) kernel.new }
{
    let_run(kernel, turns, gate);
    // why it stops, if it does, stands in the kernel
    let _ = finish(kernel, gate);
}
