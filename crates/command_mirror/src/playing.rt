// A run by a kernel that was opened for it, with a standby behind it.
ghost use Rattle.std.specs.Prelude.{◌≡◌, ◌≤◌, [], None, false};
ghost use Rattle.edge_disk.specs.Counts.{Rose};
ghost use Rattle.command_open.specs.command_promises.Playing.{StartsRun};
ghost use Rattle.command_open.specs.kernel_core_facts.Kernels.{StaysClean};
ghost use Rattle.command_open.specs.model_births.Fitting.{Fits};
ghost use Rattle.command_open.specs.store_facts.State.{books};
ghost use Rattle.command_open.specs.table_births.Births.{atlas_state_in};
ghost use Rattle.command_outcomes.specs.Seen.{seen_disk, seen_sink};
ghost use Rattle.command_mirror.specs.Gave.{gave_by};
ghost use Rattle.command_mirror.specs.Halts.{fault_by, halted_by as halted_so, opening_fault};
ghost use Rattle.command_mirror.specs.Playing.{IsFollowed, IsRunCause, IsSecondCause, IsUsedCause, LeavesFollowed, MirrorPlays, WasUnopened};
ghost use Rattle.script_types.specs.Rules.{IsScript};
ghost use Rattle.script_types.specs.Scripts.{tables_of};

use crate::ending::{end_unrun, put_mirrored};
use crate::faults::{MirrorFault, SecondFault};
use crate::statuses::MirrorOutcome;
use command_open::{Ended, Kernel};
use command_outcomes::Fault;
use edge_disk::Disk;
use edge_managers::{Gate, Policy, Supplier};
use edge_streams::Sink;
use kernel_run_facts::Stop;
use node_looks::{commits_made, commits_opened};
use node_mirror::{Losing, MirrorHalt, run_mirrored};
use node_rounds::RoundStop;
use node_standby::{Standby, StandbyFault, StandbyWhy, StoreFault, image_law};
use script_types::Script;
use std::alloc::Global;

// What a mirrored run that was halted tells. A shipment that the standby may not take is answered as want of memory: it comes of a disk that doesn't tell
// its bytes alone.
fn fault_of_halt(halt: MirrorHalt) -> MirrorFault
    ensures { result ≡ fault_by halt }
{
    match halt {
        MirrorHalt::Kernel(Stop::NoBlocks(blocks)) => MirrorFault::First(Fault::NoBlocks(blocks)),
        MirrorHalt::Kernel(_) => MirrorFault::First(Fault::DiskFault),
        MirrorHalt::Memory => MirrorFault::First(Fault::Memory),
        MirrorHalt::Round(RoundStop::Store(StoreFault::NoBlocks(blocks))) => {
            MirrorFault::Second(SecondFault::NoBlocks(blocks))
        }
        MirrorHalt::Round(RoundStop::Store(_)) => MirrorFault::Second(SecondFault::DiskFault),
        MirrorHalt::Round(RoundStop::Refused) => MirrorFault::Second(SecondFault::Memory),
    }
}

// Why it was halted, if it was.
fn halted_by(went: Result<(), MirrorHalt>) -> Option<MirrorFault>
    ensures { result ≡ halted_so went }
{
    match went {
        Ok(()) => None,
        Err(halt) => Some(fault_of_halt(halt)),
    }
}

// Why the standby was not opened.
fn fault_of_opening(why: StandbyWhy) -> MirrorFault
    ensures { result ≡ opening_fault why }
{
    match why {
        StandbyWhy::Foreign(bad) => MirrorFault::Second(SecondFault::Foreign {
            block: bad.block,
            place: bad.place,
        }),
        StandbyWhy::NotEmpty { used } => MirrorFault::NotEmpty { used },
        StandbyWhy::ReadFault | StandbyWhy::WriteFault => {
            MirrorFault::Second(SecondFault::DiskFault)
        }
        StandbyWhy::Memory => MirrorFault::Second(SecondFault::Memory),
    }
}

// The run of both nodes, with what it puts.
fn run_both<W: Sink, D: Disk, E: Disk, S: Supplier, P: Policy>(
    alloc: Global,
    mut kernel: Kernel<D>,
    script: &Script,
    sink: &mut W,
    gate: &Gate<S, P>,
    losing: Losing,
    standby: Standby<E>,
) -> MirrorOutcome<D, E>
    requires keeps { S.keeps gate.now.supply }
    requires wishes { P.keeps gate.now.policy }
    requires clean { StaysClean D.Disk (S.word gate.now.supply) kernel }
    requires allowed { IsScript (tables_of script.now) }
    requires fits { Fits (atlas_state_in kernel.parts.cells) (tables_of script.now) }
    requires nothing { kernel.parts.noted.entries ≡ [] }
    requires going { kernel.stop ≡ None }
    requires fresh { (standby.count ≡ 0) × ((books standby.store).shut ≡ false) }
    ensures leaves { MirrorPlays D.Disk
        (StartsRun D.Disk (S.word gate.now.supply) (P.wish gate.now.policy) (tables_of script.now) kernel)
        (λ b. LeavesFollowed E.Disk standby result.second b (gave_by result) result.kept result.made)
        (IsRunCause (Rose (E.faults standby.store.disk) (E.faults result.second))) (λ many. ⊥) ⊥
        (Rose (D.faults kernel.parts.store.disk) (D.faults result.first)) (books kernel.parts.store).count losing
        (seen_sink W.held W.faults sink.old sink.new) (gave_by result) result.kept result.made result.first result.status }
    ensures later { D.faults kernel.parts.store.disk ≤ D.faults result.first }
    ensures second_later { E.faults standby.store.disk ≤ E.faults result.second }
{
    image_law::<E>();
    let opened = commits_opened(&kernel);
    let mirrored = run_mirrored(alloc, &mut kernel, script, gate, losing, standby);
    let stopped = halted_by(mirrored.went);
    let kept = mirrored.standby.count();
    let made = commits_made(opened, kernel.history());
    let status = put_mirrored(sink, kernel.cells(), kernel.history(), stopped, kept, made);
    let Ended {
        disk,
        history,
        marks,
        ..
    } = kernel.into_ended();
    MirrorOutcome {
        status,
        history,
        marks,
        kept,
        made,
        first: disk,
        second: mirrored.standby.into_disk(),
    }
}

/// Opens the standby, and runs a script on a kernel that was opened for it.
pub(crate) fn mirror_opened<W: Sink, D: Disk, E: Disk, S: Supplier, P: Policy>(
    alloc: Global,
    kernel: Kernel<D>,
    script: &Script,
    sink: &mut W,
    gate: &Gate<S, P>,
    losing: Losing,
    second: E,
) -> MirrorOutcome<D, E>
    requires keeps { S.keeps gate.now.supply }
    requires wishes { P.keeps gate.now.policy }
    requires clean { StaysClean D.Disk (S.word gate.now.supply) kernel }
    requires allowed { IsScript (tables_of script.now) }
    requires fits { Fits (atlas_state_in kernel.parts.cells) (tables_of script.now) }
    requires nothing { (kernel.parts.noted.entries ≡ []) × (kernel.parts.noted.marks ≡ []) }
    requires going { kernel.stop ≡ None }
    ensures leaves { MirrorPlays D.Disk
        (StartsRun D.Disk (S.word gate.now.supply) (P.wish gate.now.policy) (tables_of script.now) kernel)
        (λ b. IsFollowed (seen_disk E.Disk second result.second) b (gave_by result) result.kept result.made)
        (IsSecondCause (seen_disk E.Disk second result.second)) (IsUsedCause (seen_disk E.Disk second result.second))
        (WasUnopened (seen_disk E.Disk second result.second) (gave_by result) result.kept result.made)
        (Rose (D.faults kernel.parts.store.disk) (D.faults result.first)) (books kernel.parts.store).count losing
        (seen_sink W.held W.faults sink.old sink.new) (gave_by result) result.kept result.made result.first result.status }
    ensures later { D.faults kernel.parts.store.disk ≤ D.faults result.first }
{
    match Standby::open(alloc, second) {
        Ok(standby) => run_both(alloc, kernel, script, sink, gate, losing, standby),
        Err(StandbyFault { why, disk }) => {
            let first = kernel.into_ended().disk;
            end_unrun(alloc, sink, fault_of_opening(why), first, disk)
        }
    }
}
