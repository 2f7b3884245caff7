// A whole run of a script, with a watcher and without.
ghost use Rattle.std.specs.Prelude.{◌≡◌, ◌+◌, ◌*◌, ◌^◌, [], None, Err, IfErr, IfSome, length};
ghost use Rattle.kernel_run_facts.specs.model_births.Fitting.{Fits};
ghost use Rattle.kernel_run_facts.specs.kernel_commit_facts.Pieces.{CountsWithin};
ghost use Rattle.kernel_run_facts.specs.kernel_commits.Telling.{Tells, TriesByAnswer, told_again};
ghost use Rattle.kernel_run_facts.specs.kernel_core_facts.Kernels.{Lives, StaysClean};
ghost use Rattle.kernel_run_facts.specs.kernel_laws.Opening.{empty_script, with_script};
ghost use Rattle.kernel_run_facts.specs.kernel_invariant.Beginnings.{Beginning};
ghost use Rattle.kernel_run_facts.specs.Running.{EndsRun, IsCauseOf, look_most};
ghost use Rattle.kernel_run_facts.specs.Watching.{RunLeaves, answer_of};
ghost use Rattle.script_types.specs.Rules.{IsScript};
ghost use Rattle.script_types.specs.Scripts.{tables_of};
ghost use Rattle.kernel_run_facts.specs.table_births.Births.{atlas_state_in};

use crate::looking::look_for_all;
use crate::rounds::go_round;
use crate::watching::{Unwatched, Watcher, ask};
use edge_disk::Disk;
use edge_managers::{Gate, Policy, Supplier};
use kernel_run_facts::{Halt, Kernel, Stop, kernel_answer};
use script_types::Script;

/// Runs a script as `run` does, and lets a watcher look at the kernel behind the births and behind each look, where it may halt the run: then the
/// history is the births with their Stable and the looks so far. Where the kernel has stopped meanwhile, the run ends with its stop.
///
/// `ReadFault` comes of a read of the watcher, too, and only where the disk's count of faults rose; all else is as for `run`. A kernel that has stopped does
/// nothing, and its watcher isn't asked.
pub fn run_watched<D: Disk, S: Supplier, P: Policy, W: Watcher<D>>(
    kernel: &mut Kernel<D>,
    script: &Script,
    gate: &Gate<S, P>,
    watcher: &mut W,
) -> Result<(), Halt>
    requires keeps { S.keeps gate.now.supply }
    requires wishes { P.keeps gate.now.policy }
    requires clean { StaysClean D.Disk (S.word gate.now.supply) kernel.old }
    requires allowed { IsScript (tables_of script.now) }
    requires fits { Fits (atlas_state_in kernel.old.parts.cells) (tables_of script.now) }
    requires first { kernel.old.parts.noted.entries ≡ [] }
    ensures was_stopped { IfSome kernel.old.stop (λ why. (result ≡ Err (Halt.Kernel (told_again why))) × (kernel.new ≡ kernel.old) × (watcher.new ≡ watcher.old)) }
    ensures ends { kernel.old.stop ≡ None → Tells (answer_of result) kernel.new.stop }
    ensures caused { kernel.old.stop ≡ None → IfErr (answer_of result) (IsCauseOf D.Disk (P.wish gate.now.policy) kernel.old.parts kernel.new.parts) }
    ensures tries { TriesByAnswer (answer_of result) kernel.old.parts.noted.entries kernel.new.parts.noted.entries }
    ensures clean { StaysClean D.Disk (S.word gate.now.supply) kernel.new }
    ensures counts { CountsWithin D.Disk (64 * 1556 + length script.now.order.items * look_most + (2 ^ 22 + 1) * (23 * look_most)) kernel.old.parts.store kernel.new.parts.store }
    ensures run { D.tells → kernel.old.stop ≡ None → (b : Beginning) → b.supply ≡ S.word gate.now.supply → b.policy ≡ P.wish gate.now.policy
        → b.script ≡ tables_of script.now
        → Lives D.Disk (with_script b (empty_script b.script.steps)) kernel.old
        → W.watches watcher.old b []
        → RunLeaves D.Disk (W.watches watcher.new) (W.leaves watcher.new) b result kernel.new }
{
    if let Err(stop) = kernel.births(script) {
        return Err(Halt::Kernel(stop));
    }
    if let Err(halt) = ask(watcher, kernel) {
        return Err(halt);
    }
    if let Err(halt) = look_for_all(kernel, &script.order, gate, watcher) {
        return Err(halt);
    }
    go_round(kernel, gate, watcher)
}

/// Runs a script: its births, the picks of its order, and rounds over the loci until none can step. A kernel that a fault meets stops
/// there.
///
/// `ReadFault` and `WriteFault` come only where the disk's count of faults rose, and `NoBlocks` only where fewer blocks were free than a page of
/// the next step, the next record or all records of the next Stable needed, with both numbers; a Tried is noted only where a write failed. A kernel that has stopped does nothing, and answers `Shut` behind a
/// fault of the disk, and the same `NoBlocks` behind want of blocks.
pub fn run<D: Disk, S: Supplier, P: Policy>(
    kernel: &mut Kernel<D>,
    script: &Script,
    gate: &Gate<S, P>,
) -> Result<(), Stop>
    requires keeps { S.keeps gate.now.supply }
    requires wishes { P.keeps gate.now.policy }
    requires clean { StaysClean D.Disk (S.word gate.now.supply) kernel.old }
    requires allowed { IsScript (tables_of script.now) }
    requires fits { Fits (atlas_state_in kernel.old.parts.cells) (tables_of script.now) }
    requires first { kernel.old.parts.noted.entries ≡ [] }
    ensures was_stopped { IfSome kernel.old.stop (λ why. (result ≡ Err (told_again why)) × (kernel.new ≡ kernel.old)) }
    ensures ends { kernel.old.stop ≡ None → Tells result kernel.new.stop }
    ensures caused { kernel.old.stop ≡ None → IfErr result (IsCauseOf D.Disk (P.wish gate.now.policy) kernel.old.parts kernel.new.parts) }
    ensures tries { TriesByAnswer result kernel.old.parts.noted.entries kernel.new.parts.noted.entries }
    ensures clean { StaysClean D.Disk (S.word gate.now.supply) kernel.new }
    ensures counts { CountsWithin D.Disk (64 * 1556 + length script.now.order.items * look_most + (2 ^ 22 + 1) * (23 * look_most)) kernel.old.parts.store kernel.new.parts.store }
    ensures run { D.tells → kernel.old.stop ≡ None → (b : Beginning) → b.supply ≡ S.word gate.now.supply → b.policy ≡ P.wish gate.now.policy
        → b.script ≡ tables_of script.now
        → Lives D.Disk (with_script b (empty_script b.script.steps)) kernel.old
        → EndsRun D.Disk b kernel.new }
{
    let went = run_watched(kernel, script, gate, &mut Unwatched);
    kernel_answer(went)
}
