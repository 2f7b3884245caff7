// The run of a script by a kernel that was opened for it.
ghost use Rattle.std.specs.Prelude.{◌≡◌, ◌≤◌, [], None};
ghost use Rattle.edge_disk.specs.Counts.{Rose};
ghost use Rattle.command_open.specs.model_births.Fitting.{Fits};
ghost use Rattle.command_open.specs.kernel_core_facts.Kernels.{StaysClean};
ghost use Rattle.script_types.specs.Rules.{IsScript};
ghost use Rattle.script_types.specs.Scripts.{tables_of};
ghost use Rattle.command_open.specs.store_facts.State.{books};
ghost use Rattle.command_open.specs.table_births.Births.{atlas_state_in};
ghost use Rattle.command_outcomes.specs.Seen.{gave, seen_sink};
ghost use Rattle.command_outcomes.specs.Statuses.{ending};
ghost use Rattle.command_run.specs.Tellings.{lines_of};
ghost use Rattle.command_open.specs.command_promises.Manners.{serial};
ghost use Rattle.command_open.specs.command_promises.Playing.{PlayLeaves, StartsRun};

use crate::putting::{Lines, met_by, put_run};
use command_open::{Ended, Kernel, run};
use command_outcomes::Outcome;
use edge_disk::Disk;
use edge_managers::{Gate, Policy, Supplier};
use edge_streams::Sink;
use script_types::Script;

/// Runs a script on a kernel that was opened for it, and puts these lines.
pub(crate) fn run_opened<W: Sink, D: Disk, S: Supplier, P: Policy>(
    mut kernel: Kernel<D>,
    script: &Script,
    lines: Lines,
    sink: &mut W,
    gate: &Gate<S, P>,
) -> Outcome<D>
    requires keeps { S.keeps gate.now.supply }
    requires wishes { P.keeps gate.now.policy }
    requires clean { StaysClean D.Disk (S.word gate.now.supply) kernel }
    requires allowed { IsScript (tables_of script.now) }
    requires fits { Fits (atlas_state_in kernel.parts.cells) (tables_of script.now) }
    requires nothing { kernel.parts.noted.entries ≡ [] }
    requires going { kernel.stop ≡ None }
    ensures leaves { PlayLeaves D.Disk (serial (lines_of lines))
        (StartsRun D.Disk (S.word gate.now.supply) (P.wish gate.now.policy) (tables_of script.now) kernel)
        (Rose (D.faults kernel.parts.store.disk) (D.faults result.disk)) (books kernel.parts.store).count
        (seen_sink W.held W.faults sink.old sink.new) (gave result) result.disk (ending result.status) }
    ensures later { D.faults kernel.parts.store.disk ≤ D.faults result.disk }
{
    // what it answers is why the kernel has stopped, if it has
    let _ = run(&mut kernel, script, gate);
    let met = met_by(kernel.stopped(), false);
    let status = put_run(sink, lines, kernel.cells(), kernel.history(), met);
    let Ended {
        disk,
        history,
        marks,
        ..
    } = kernel.into_ended();
    Outcome {
        status,
        history,
        marks,
        disk,
    }
}
