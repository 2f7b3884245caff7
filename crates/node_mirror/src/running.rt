// A mirrored run.
ghost use Rattle.std.specs.Prelude.{◌≡◌, ◌≤◌, ◌+◌, ◌*◌, ◌^◌, ◌<◌, ℕ, List, [], None, Some, Ok, Err, IfErr, OnOk, false, length, slice_index};
ghost use Rattle.base_types.specs.declared.histories.Entry.{Entry as AnEntry};
ghost use Rattle.drawn_words.specs.Words.{words_numbered, words_of};
ghost use Rattle.script_types.specs.Rules.{IsScript};
ghost use Rattle.script_types.specs.Scripts.{tables_of};
ghost use Rattle.kernel_run_facts.specs.kernel_core_facts.Kernels.{Lives, StaysClean};
ghost use Rattle.kernel_run_facts.specs.kernel_laws.Opening.{empty_script, with_script};
ghost use Rattle.kernel_run_facts.specs.model_births.Fitting.{Fits};
ghost use Rattle.kernel_run_facts.specs.table_births.Births.{atlas_state_in};
ghost use Rattle.kernel_run_facts.specs.Running.{look_most};
ghost use Rattle.kernel_run_facts.specs.Watching.{IsAsLent};
ghost use Rattle.node_mirror.specs.Leaving.{BeginsBy, BeginsHere, EndsAs, EndsBy, HasMirrored, LeavesKernel, LeavesStandby, MirrorLeaves};
ghost use Rattle.node_mirror.specs.Mirrors.{IsSince, Mirrors, Watches};
ghost use Rattle.node_mirror.specs.Stops.{halt_by, kernel_part};
ghost use Rattle.node_rounds.specs.Going.{AllShip, AreInStep, StopsRounds};
ghost use Rattle.node_rounds.specs.declared.rounds.RoundStop.{RoundStop as ARoundStop};
ghost use Rattle.node_rounds.specs.node_standby.Following.{Follows};
ghost use Rattle.node_rounds.specs.node_standby.Standing.{KeepsCount};
ghost use Rattle.node_rounds.specs.node_standby.node_shipments.kernel_invariant.Beginnings.{Beginning as ABeginning};
ghost use Rattle.node_rounds.specs.node_standby.store_snapshots.store_facts.State.{books};
ghost use Rattle.node_world.specs.Worlds.{offered};

use crate::lines::{Line, Losing};
use crate::mirroring::{Mirroring, Since};
use crate::offering::offer;
use crate::stops::{MirrorHalt, MirrorStop};
use edge_disk::Disk;
use edge_managers::{Gate, Policy, Supplier};
use kernel_run_facts::{Halt, Stop};
use node_looks::{Kernel, run_watched, shown_commits_law};
use node_offers::ShipFault;
use node_rounds::Standby;
use script_types::Script;
use std::alloc::Global;
use std::marker::{Brand, PhantomData};

/// What a mirrored run leaves beside its kernel.
#[derive(Drop)]
pub struct Mirrored<E: Disk> {
    pub standby: Standby<E>,
    /// How many commits were offered to the standby.
    pub offered: u64,
    pub went: Result<(), MirrorHalt>,
}

// What is left of a line.
fn left<E: Disk>(line: Line<E>, went: Result<(), MirrorHalt>) -> Mirrored<E>
    ensures { result ≡ record { standby = line.standby; offered = offered line.sender; went = went } }
{
    Mirrored {
        offered: line.sender.offered(),
        standby: line.standby,
        went,
    }
}

// Why a run was halted whose kernel goes on: a read that failed has stopped it.
fn halt_of(stop: Option<MirrorStop>) -> MirrorHalt
    ensures ends { EndsAs (Err Halt.Watcher) (Err result) }
    ensures from { (why : ARoundStop) → result ≡ MirrorHalt.Round why → stop ≡ Some (MirrorStop.Round why) }
{
    match stop {
        Some(MirrorStop::Round(why)) => MirrorHalt::Round(why),
        Some(MirrorStop::Reading) | Some(MirrorStop::Memory) | None => MirrorHalt::Memory,
    }
}

// Why a mirrored run was halted, as its watched run was.
fn halt_as(why: Halt, stop: Option<MirrorStop>) -> MirrorHalt
    ensures ends { EndsAs (Err why) (Err result) }
    ensures from { (round : ARoundStop) → result ≡ MirrorHalt.Round round → stop ≡ Some (MirrorStop.Round round) }
{
    match why {
        Halt::Kernel(stop) => MirrorHalt::Kernel(stop),
        Halt::Watcher => halt_of(stop),
    }
}

// Why a run never began. The kernel went on before, so its store is not shut.
fn halt_by(fault: ShipFault) -> MirrorHalt
    ensures { result ≡ halt_by fault }
{
    match fault {
        ShipFault::ReadFault => MirrorHalt::Kernel(Stop::ReadFault),
        ShipFault::Memory | ShipFault::Shut => MirrorHalt::Memory,
    }
}

// What is left behind a run that is over: the last rounds are made.
fn finished<E: Disk>(mut line: Line<E>) -> Mirrored<E>
    requires step { AreInStep line.sender line.standby }
    ensures ends { EndsAs (Ok tt) result.went }
    ensures last { OnOk result.went (EndsBy line result.offered result.standby.count) }
    ensures order { result.standby.count ≤ result.offered }
    ensures lossless { line.loss ≡ 0 → OnOk result.went (result.standby.count ≡ result.offered) }
    ensures counts { KeepsCount E.Disk line.standby result.standby }
    ensures stops { IfErr result.went (λ halt. (why : ARoundStop) → halt ≡ MirrorHalt.Round why → StopsRounds E.Disk line.sender line.standby result.standby why) }
    ensures follows { (b : ABeginning) (es : List AnEntry) → Follows b es E.Disk line.standby → AllShip b es line.sender → Follows b es E.Disk result.standby }
{
    match line.finish() {
        Ok(()) => left(line, Ok(())),
        Err(why) => left(line, Err(MirrorHalt::Round(why))),
    }
}

// What is left behind a run that was watched.
fn end_with<E: Disk, N: Since>(mirroring: Mirroring<E, N>, ran: Result<(), Halt>) -> Mirrored<E>
    ensures ends { EndsAs ran result.went }
    ensures last { OnOk result.went (EndsBy mirroring.line result.offered result.standby.count) }
    ensures order { result.standby.count ≤ result.offered }
    ensures lossless { N.loss ≡ 0 → OnOk result.went (result.standby.count ≡ result.offered) }
    ensures second { LeavesStandby E.Disk N.faults result.standby result.went }
    ensures follows { (b : ABeginning) (es : List AnEntry) → Follows b es E.Disk mirroring.line.standby → OnOk ran (AllShip b es mirroring.line.sender) → Follows b es E.Disk result.standby }
{
    let Mirroring { line, stop, .. } = mirroring;
    match ran {
        Ok(()) => finished(line),
        Err(why) => left(line, Err(halt_as(why, stop))),
    }
}

// Runs a script behind whose looks the standby follows.
fn play<D: Disk, E: Disk, S: Supplier, P: Policy, N: Since>(
    kernel: &mut Kernel<D>,
    script: &Script,
    gate: &Gate<S, P>,
    mut mirroring: Mirroring<E, N>,
) -> Mirrored<E>
    requires keeps { S.keeps gate.now.supply }
    requires wishes { P.keeps gate.now.policy }
    requires clean { StaysClean D.Disk (S.word gate.now.supply) kernel.old }
    requires allowed { IsScript (tables_of script.now) }
    requires fits { Fits (atlas_state_in kernel.old.parts.cells) (tables_of script.now) }
    requires first { kernel.old.parts.noted.entries ≡ [] }
    requires going { kernel.old.stop ≡ None }
    ensures kernel { LeavesKernel D.Disk (S.word gate.now.supply) (P.wish gate.now.policy) (64 * 1556 + length script.now.order.items * look_most + (2 ^ 22 + 1) * (23 * look_most))
        kernel.old kernel.new (kernel_part result.went) }
    ensures order { result.standby.count ≤ result.offered }
    ensures lossless { N.loss ≡ 0 → OnOk result.went (result.standby.count ≡ result.offered) }
    ensures second { LeavesStandby E.Disk N.faults result.standby result.went }
    ensures run { D.tells → (b : ABeginning) → BeginsHere D.Disk (S.word gate.now.supply) (P.wish gate.now.policy) (tables_of script.now) kernel.old b
        → Watches E.Disk N.began N.words b [] mirroring.known mirroring.noted mirroring.line → MirrorLeaves D.Disk b result.went kernel.new }
    ensures course { D.tells → (b : ABeginning) → BeginsHere D.Disk (S.word gate.now.supply) (P.wish gate.now.policy) (tables_of script.now) kernel.old b
        → Watches E.Disk N.began N.words b [] mirroring.known mirroring.noted mirroring.line
        → OnOk result.went (HasMirrored b kernel.new.parts.noted.entries N.loss N.words result.offered result.standby.count) }
    ensures follows { D.tells → (b : ABeginning) → BeginsHere D.Disk (S.word gate.now.supply) (P.wish gate.now.policy) (tables_of script.now) kernel.old b
        → Watches E.Disk N.began N.words b [] mirroring.known mirroring.noted mirroring.line
        → N.began b → Follows b kernel.new.parts.noted.entries E.Disk result.standby }
{
    let ran = run_watched(kernel, script, gate, &mut mirroring);
    end_with(mirroring, ran)
}

// Offers the records of the opened image, of which nothing is known yet.
fn begin<D: Disk, E: Disk>(
    kernel: &mut Kernel<D>,
    alloc: Global,
    known: &mut [u64; 64],
    line: &mut Line<E>,
) -> Result<(), MirrorHalt>
    requires going { kernel.old.stop ≡ None }
    requires none { kernel.old.parts.noted.entries ≡ [] }
    requires known { (x : ℕ) → x < 64 → slice_index known.old x ≡ 0 }
    requires sender { line.old.sender ≡ record { acked = 0; waiting = [] } }
    requires count { line.old.standby.count ≡ 0 }
    ensures lent { IsAsLent D.Disk kernel.old kernel.new }
    ensures went { BeginsBy kernel.new.stop result }
    ensures step { AreInStep line.new.sender line.new.standby }
    ensures same { (line.new.standby ≡ line.old.standby) × (line.new.words ≡ line.old.words) × (line.new.loss ≡ line.old.loss) }
    ensures mirrors { D.tells → (b : ABeginning) → Lives D.Disk (with_script b (empty_script b.script.steps)) kernel.old
        → OnOk result (Mirrors (words_of line.old.words) b [] known.new 0 line.new) }
{
    shown_commits_law::<D>();
    match offer(kernel, alloc, known, &mut line.sender) {
        Ok(()) => Ok(()),
        Err(fault) => Err(halt_by(fault)),
    }
}

// A mirrored run, where a type knows what it began with.
fn run_since<D: Disk, E: Disk, S: Supplier, P: Policy, N: Since>(
    alloc: Global,
    kernel: &mut Kernel<D>,
    script: &Script,
    gate: &Gate<S, P>,
    losing: Losing,
    standby: Standby<E>,
) -> Mirrored<E>
    requires keeps { S.keeps gate.now.supply }
    requires wishes { P.keeps gate.now.policy }
    requires clean { StaysClean D.Disk (S.word gate.now.supply) kernel.old }
    requires allowed { IsScript (tables_of script.now) }
    requires fits { Fits (atlas_state_in kernel.old.parts.cells) (tables_of script.now) }
    requires first { kernel.old.parts.noted.entries ≡ [] }
    requires going { kernel.old.stop ≡ None }
    requires fresh { (standby.count ≡ 0) × ((books standby.store).shut ≡ false) }
    requires since { IsSince E.Disk standby losing N.began N.words N.loss N.faults }
    ensures kernel { LeavesKernel D.Disk (S.word gate.now.supply) (P.wish gate.now.policy) (64 * 1556 + length script.now.order.items * look_most + (2 ^ 22 + 1) * (23 * look_most))
        kernel.old kernel.new (kernel_part result.went) }
    ensures order { result.standby.count ≤ result.offered }
    ensures lossless { losing.loss ≡ 0 → OnOk result.went (result.standby.count ≡ result.offered) }
    ensures second { LeavesStandby E.Disk (E.faults standby.store.disk) result.standby result.went }
    ensures run { D.tells → (b : ABeginning) → BeginsHere D.Disk (S.word gate.now.supply) (P.wish gate.now.policy) (tables_of script.now) kernel.old b
        → MirrorLeaves D.Disk b result.went kernel.new }
    ensures course { D.tells → (b : ABeginning) → BeginsHere D.Disk (S.word gate.now.supply) (P.wish gate.now.policy) (tables_of script.now) kernel.old b
        → OnOk result.went (HasMirrored b kernel.new.parts.noted.entries losing.loss (words_numbered losing.seed 55) result.offered result.standby.count) }
    ensures follows { D.tells → (b : ABeginning) → BeginsHere D.Disk (S.word gate.now.supply) (P.wish gate.now.policy) (tables_of script.now) kernel.old b
        → Follows b [] E.Disk standby → Follows b kernel.new.parts.noted.entries E.Disk result.standby }
{
    let mut known = [0; 64];
    let mut line = Line::new(alloc, losing, standby);
    if let Err(halt) = begin(kernel, alloc, &mut known, &mut line) {
        return left(line, Err(halt));
    }
    let mirroring = Mirroring::<E, N> {
        alloc,
        known,
        noted: 0,
        line,
        stop: None,
        of: PhantomData,
    };
    play(kernel, script, gate, mirroring)
}

/// Runs a script on the first node's kernel, and lets a standby that took nothing yet follow it. The records of the opened image are offered first, and the new commits
/// behind the births and behind each look; behind each step there is one round (`node_rounds`), and behind the run there are four for each commit and a thousand. So
/// many packets and counts in a hundred are lost as `losing` tells.
///
/// Where the kernel stops, or a shipment can't be made or isn't taken, the run ends there. What is left of the kernel, why it stopped and what it costs is as for a
/// watched run (`node_looks::run_watched`), whatever becomes of the standby. `Memory` is told of a shipment; of a disk that doesn't tell its bytes it may come for a
/// record that can't be read as one.
///
/// It takes the memory of each shipment until it is acknowledged.
pub fn run_mirrored<D: Disk, E: Disk, S: Supplier, P: Policy>(
    alloc: Global,
    kernel: &mut Kernel<D>,
    script: &Script,
    gate: &Gate<S, P>,
    losing: Losing,
    standby: Standby<E>,
) -> Mirrored<E>
    requires keeps { S.keeps gate.now.supply }
    requires wishes { P.keeps gate.now.policy }
    requires clean { StaysClean D.Disk (S.word gate.now.supply) kernel.old }
    requires allowed { IsScript (tables_of script.now) }
    requires fits { Fits (atlas_state_in kernel.old.parts.cells) (tables_of script.now) }
    requires first { kernel.old.parts.noted.entries ≡ [] }
    requires going { kernel.old.stop ≡ None }
    requires fresh { (standby.count ≡ 0) × ((books standby.store).shut ≡ false) }
    ensures kernel { LeavesKernel D.Disk (S.word gate.now.supply) (P.wish gate.now.policy) (64 * 1556 + length script.now.order.items * look_most + (2 ^ 22 + 1) * (23 * look_most))
        kernel.old kernel.new (kernel_part result.went) }
    ensures order { result.standby.count ≤ result.offered }
    ensures lossless { losing.loss ≡ 0 → OnOk result.went (result.standby.count ≡ result.offered) }
    ensures second { LeavesStandby E.Disk (E.faults standby.store.disk) result.standby result.went }
    ensures run { D.tells → (b : ABeginning) → BeginsHere D.Disk (S.word gate.now.supply) (P.wish gate.now.policy) (tables_of script.now) kernel.old b
        → MirrorLeaves D.Disk b result.went kernel.new }
    ensures course { D.tells → (b : ABeginning) → BeginsHere D.Disk (S.word gate.now.supply) (P.wish gate.now.policy) (tables_of script.now) kernel.old b
        → OnOk result.went (HasMirrored b kernel.new.parts.noted.entries losing.loss (words_numbered losing.seed 55) result.offered result.standby.count) }
    ensures follows { D.tells → (b : ABeginning) → BeginsHere D.Disk (S.word gate.now.supply) (P.wish gate.now.policy) (tables_of script.now) kernel.old b
        → Follows b [] E.Disk standby → Follows b kernel.new.parts.noted.entries E.Disk result.standby }
{
    run_since::<D, E, S, P, Brand>(alloc, kernel, script, gate, losing, standby)
}
