// One look at a locus.
ghost use Rattle.std.specs.Prelude.{◌≡◌, ◌↔◌, ◌⊎◌, ◌<◌, ◌*◌, ◌+◌, ◌∷◌, [], ℕ, List, true, false, if◌then◌else◌, None, Some, IfErr, IfOk, IsErrOf, Ok, OnErr, OnOk};
ghost use Rattle.std.specs.Result.{result_err};
ghost use Rattle.edge_disk.specs.Counts.{Rose};
ghost use Rattle.base_types.specs.declared.histories.Event.TheVariants as AnEvent;
ghost use Rattle.script_types.specs.model_kernel.Histories.{mark};
ghost use Rattle.script_types.specs.model_kernel.State.{Supply};
ghost use Rattle.kernel_core_facts.specs.table_laws.Tables.{AreClean};
ghost use Rattle.kernel_core_facts.specs.Looking.{LooksInRun, LooksOnce, StopsWhere};
ghost use Rattle.kernel_core_facts.specs.kernel_commit_facts.Lacking.{LacksIn};
ghost use Rattle.kernel_core_facts.specs.kernel_commit_facts.Parts.{StandsAs};
ghost use Rattle.kernel_core_facts.specs.kernel_commit_facts.Pieces.{CountsWithin, StopsIn};
ghost use Rattle.kernel_core_facts.specs.kernel_commit_facts.Snapping.{RunsFree};
ghost use Rattle.kernel_core_facts.specs.kernel_commit_facts.Short.{AreShortBehind};
ghost use Rattle.kernel_core_facts.specs.kernel_commits.Snapping.{SnapsAll};
ghost use Rattle.kernel_core_facts.specs.kernel_commit_facts.Stabilising.{HasStabilised, OwesStable};
ghost use Rattle.kernel_core_facts.specs.kernel_commits.Stabilising.{Stabilises};
ghost use Rattle.kernel_core_facts.specs.kernel_commit_facts.Steady.{IsSteady, entries_taken, steps_to_come};
ghost use Rattle.kernel_core_facts.specs.kernel_commits.Stops.{LeavesStopped};
ghost use Rattle.kernel_core_facts.specs.kernel_commits.Telling.{CommitsNote, TriesAtWrite};
ghost use Rattle.kernel_core_facts.specs.Stepping.{idle_at};
ghost use Rattle.kernel_core_facts.specs.declared.looked.Looked.TheVariants as AStep;
ghost use Rattle.kernel_core_facts.specs.Looked.{IfMade};
ghost use Rattle.kernel_core_facts.specs.cell_plans.declared.idle.Idle.{Idle as AnIdle};
ghost use Rattle.kernel_core_facts.specs.kernel_invariant.Beginnings.{Beginning, run_of};
ghost use Rattle.kernel_core_facts.specs.kernel_invariant.Live.{IsCalm};
ghost use Rattle.kernel_core_facts.specs.kernel_record_facts.Cells.{words_on};
ghost use Rattle.kernel_core_facts.specs.model_serial.Serial.{kept_behind, look, wished_snaps, written_in};

use crate::stepping::step_core;
use base_types::{Entity, Entry};
use edge_disk::{Disk, NoBlocks};
use edge_managers::{Gate, Policy, Supplier};
use kernel_core_facts::{Core, Looked, Stopped, owes_stable, settle, snap_written};

/// Behind a step: the Stable that it owes, or the Snaps of what it wrote whose wishes are open.
fn keep_behind<D: Disk, S: Supplier, P: Policy>(
    core: &mut Core<D>,
    entry: &Entry,
    owes: bool,
    gate: &Gate<S, P>,
) -> Result<(), Stopped>
    requires keeps { P.keeps gate.now.policy }
    requires steady { IsSteady D.Disk core.old }
    requires spare { owes ≡ true → steps_to_come core.old.cells + entries_taken core.old.noted.entries < core.old.noted.room }
    ensures steady { OnOk result (IsSteady D.Disk core.new) }
    ensures stopped { IfErr result (LeavesStopped D.faults (AreShortBehind D.Disk (P.wish gate.now.policy) owes (written_in entry.now.touched) core.new) core.old core.new) }
    ensures notes { CommitsNote result core.old.noted.entries core.new.noted.entries }
    ensures stabilised { owes ≡ true → OnOk result (HasStabilised entry.now.actor core.old core.new) }
    ensures stable { owes ≡ true → D.tells → (b : Beginning) → OwesStable D.Disk b entry.now.actor core.old
        → Stabilises D.Disk b result core.new }
    ensures snaps { owes ≡ false → D.tells → (b : Beginning) → RunsFree D.Disk b (P.wish gate.now.policy) core.old
        → SnapsAll D.Disk b (P.wish gate.now.policy) (written_in entry.now.touched) result core.old core.new }
    ensures stable_part { owes ≡ true → D.tells → (b : Beginning) → OwesStable D.Disk b entry.now.actor core.old
        → OnErr result (StopsIn b (mark AnEvent.Stable entry.now.actor 0 ∷ []) core.old.noted.entries core.new.noted.entries) }
    ensures snaps_part { owes ≡ false → D.tells → (b : Beginning) → RunsFree D.Disk b (P.wish gate.now.policy) core.old
        → OnErr result (StopsIn b (wished_snaps b.supply (P.wish gate.now.policy) b.script (run_of b core.old.noted.entries) (written_in entry.now.touched)) core.old.noted.entries core.new.noted.entries) }
    ensures enough { D.tells → (b : Beginning)
        → (owes ≡ true → OwesStable D.Disk b entry.now.actor core.old)
        → (owes ≡ false → RunsFree D.Disk b (P.wish gate.now.policy) core.old)
        → (n : NoBlocks) → IsErrOf result (Stopped.NoBlocks n)
        → LacksIn D.Disk b n (kept_behind b.supply (P.wish gate.now.policy) b.script (run_of b core.old.noted.entries) (written_in entry.now.touched) (if owes then Some entry.now.actor else None)) core.old.noted.entries core.new }
    ensures clean { D.tells → (s : Supply) → AreClean s (words_on (D.reading core.old.store.disk)) core.old.cells
        → OnOk result (AreClean s (words_on (D.reading core.new.store.disk)) core.new.cells) }
    ensures counts { CountsWithin D.Disk (64 * 1556) core.old.store core.new.store }
{
    if owes {
        return settle(core, entry.actor);
    }
    snap_written(core, entry, gate)
}

/// One look at the locus: its step, and behind it the Stable that it owes, or the Snaps that are wished. Where none is made it tells why.
pub(crate) fn look_core<D: Disk, S: Supplier, P: Policy>(
    core: &mut Core<D>,
    me: Entity,
    gate: &Gate<S, P>,
) -> Result<Looked, Stopped>
    requires keeps { S.keeps gate.now.supply }
    requires wishes { P.keeps gate.now.policy }
    requires steady { IsSteady D.Disk core.old }
    requires clean { D.tells → AreClean (S.word gate.now.supply) (words_on (D.reading core.old.store.disk)) core.old.cells }
    ensures idle { (s : Supply) (words : ℕ → List ℕ) (why : AnIdle) → (idle_at s words me core.old.cells ≡ Some why) ↔ (result ≡ Ok (AStep.Idle why)) }
    ensures still { (why : AnIdle) → result ≡ Ok (AStep.Idle why) → core.new ≡ core.old }
    ensures steady { OnOk result (IsSteady D.Disk core.new) }
    ensures made { IfOk result (λ o. IfMade o (λ made. LooksOnce D.Disk me core.old core.new made.entry)) }
    ensures stopped { StopsWhere D.Disk (P.wish gate.now.policy) me core.old core.new (result_err result) }
    ensures tries { TriesAtWrite result core.old.noted.entries core.new.noted.entries }
    ensures run { D.tells → (b : Beginning) → b.supply ≡ S.word gate.now.supply → b.policy ≡ P.wish gate.now.policy
        → StandsAs D.Disk b core.old → IsCalm b core.old.noted.entries
        → LooksInRun D.Disk b (P.wish gate.now.policy) me result core.old core.new }
    ensures part { D.tells → (b : Beginning) → b.supply ≡ S.word gate.now.supply → b.policy ≡ P.wish gate.now.policy
        → StandsAs D.Disk b core.old → IsCalm b core.old.noted.entries
        → OnErr result (StopsIn b (look b.supply b.policy b.script (run_of b core.old.noted.entries) me) core.old.noted.entries core.new.noted.entries) }
    ensures enough { D.tells → (b : Beginning) → b.supply ≡ S.word gate.now.supply → b.policy ≡ P.wish gate.now.policy
        → StandsAs D.Disk b core.old → IsCalm b core.old.noted.entries
        → (n : NoBlocks) → IsErrOf result (Stopped.NoBlocks n) → LacksIn D.Disk b n (look b.supply b.policy b.script (run_of b core.old.noted.entries) me) core.old.noted.entries core.new }
    ensures faults { IsErrOf result Stopped.ReadFault ⊎ IsErrOf result Stopped.WriteFault → Rose (D.faults core.old.store.disk) (D.faults core.new.store.disk) }
    ensures clean { D.tells → OnOk result (AreClean (S.word gate.now.supply) (words_on (D.reading core.new.store.disk)) core.new.cells) }
    ensures counts { CountsWithin D.Disk (1 + 64 * 1556) core.old.store core.new.store }
{
    match step_core(core, me, gate) {
        Ok(Looked::Made(made)) => {
            let owes = owes_stable(&made);
            match keep_behind(core, &made.entry, owes, gate) {
                Ok(()) => Ok(Looked::Made(made)),
                Err(why) => Err(why),
            }
        }
        Ok(Looked::Idle(why)) => Ok(Looked::Idle(why)),
        Err(why) => Err(why),
    }
}
