// The run of a script by workers, on a kernel that was opened for it.
ghost use Rattle.std.specs.Prelude.{◌≡◌, ◌≤◌, [], None};
ghost use Rattle.edge_disk.specs.Counts.{Rose};
ghost use Rattle.command_open.specs.model_births.Fitting.{Fits};
ghost use Rattle.command_open.specs.kernel_core_facts.Kernels.{StaysClean};
ghost use Rattle.command_open.specs.kernel_invariant.Beginnings.{Beginning};
ghost use Rattle.script_types.specs.Rules.{IsScript};
ghost use Rattle.script_types.specs.Scripts.{tables_of};
ghost use Rattle.command_open.specs.store_facts.State.{books};
ghost use Rattle.command_open.specs.table_births.Births.{atlas_state_in};
ghost use Rattle.command_outcomes.specs.Seen.{gave, seen_sink};
ghost use Rattle.command_outcomes.specs.Statuses.{ending};
ghost use Rattle.command_run.specs.Tellings.{lines_of};
ghost use Rattle.command_open.specs.command_promises.Manners.{on_threads};
ghost use Rattle.command_open.specs.command_promises.Playing.{PlayLeaves};
ghost use Rattle.command_workers.specs.Starting.{StartsOne};

use command_open::{Ended, Kernel};
use command_outcomes::Outcome;
use command_run::{Lines, met_by, put_run};
use edge_disk::Disk;
use edge_managers::{Gate, Policy, Supplier};
use edge_streams::Sink;
use script_types::Script;
use std::alloc::Global;
use std::sync::Wait;
use std::thread::Threads;
use thread_runs::{Ran, StepGate, run_on_threads};

/// Runs a script by so many workers on a kernel that was opened for it, and puts these lines. `b` is the run that is spoken of.
pub(crate) fn run_opened<
    W: Sink,
    D: Disk + Send,
    S: Supplier + Send + Sync + Drop,
    P: Policy + Send + Sync + Drop,
    R: Threads + Wait + Sync,
    G: StepGate + Sync,
>(
    rt: &R,
    alloc: Global,
    kernel: Kernel<D>,
    script: &Script,
    workers: u8,
    steps: &G,
    lines: Lines,
    sink: &mut W,
    gate: Gate<S, P>,
) -> Outcome<D>
    ghost b: { Beginning }
    requires keeps { S.keeps gate.supply × P.keeps gate.policy }
    requires managers { (b.supply ≡ S.word gate.supply) × (b.policy ≡ P.wish gate.policy) }
    requires script { b.script ≡ tables_of script.now }
    requires clean { StaysClean D.Disk (S.word gate.supply) kernel }
    requires allowed { IsScript (tables_of script.now) }
    requires fits { Fits (atlas_state_in kernel.parts.cells) (tables_of script.now) }
    requires nothing { kernel.parts.noted.entries ≡ [] }
    requires going { kernel.stop ≡ None }
    requires workers { (1 ≤ workers) × (workers ≤ 16) }
    ensures leaves { PlayLeaves D.Disk (on_threads (lines_of lines)) (StartsOne D.Disk kernel b)
        (Rose (D.faults kernel.parts.store.disk) (D.faults result.disk)) (books kernel.parts.store).count
        (seen_sink W.held W.faults sink.old sink.new) (gave result) result.disk (ending result.status) }
    ensures later { D.faults kernel.parts.store.disk ≤ D.faults result.disk }
{
    let Ran { kernel, lacked } = run_on_threads(rt, alloc, kernel, script, gate, workers, steps);
    let met = met_by(kernel.stopped(), lacked);
    let status = put_run(sink, lines, kernel.cells(), kernel.history(), met);
    let Ended {
        disk,
        history,
        marks,
        ..
    } = kernel.into_ended();
    Outcome {
        status,
        history,
        marks,
        disk,
    }
}
