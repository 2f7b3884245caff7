// Snaps of entities whose wishes are open.
ghost use Rattle.std.specs.Prelude.{◌≡◌, ◌↔◌, ◌*◌, ℕ, List, true, false, IfErr, IsErrOf, Ok, OnErr, OnOk, Some, length, slice_get};
ghost use Rattle.base_types.specs.Touches.{IsRising};
ghost use Rattle.kernel_commit_facts.specs.model_kernel.Histories.{Run, has_wish};
ghost use Rattle.kernel_commit_facts.specs.model_kernel.State.{Supply};
ghost use Rattle.kernel_commit_facts.specs.cell_states.Cells.{HasCell, part_of};
ghost use Rattle.kernel_commit_facts.specs.cell_states.Wishes.{HasWish, is_open};
ghost use Rattle.kernel_commit_facts.specs.cell_states.declared.cells.Cell.{Cell as ACell};
ghost use Rattle.kernel_commit_facts.specs.kernel_invariant.Beginnings.{run_of};
ghost use Rattle.kernel_commit_facts.specs.cell_wish_laws.Founded.{IsFoundedCell};
ghost use Rattle.kernel_commit_facts.specs.Lacking.{LacksIn};
ghost use Rattle.kernel_commit_facts.specs.Recording.{HasRecorded};
ghost use Rattle.kernel_commit_facts.specs.Short.{AreSnapsShort, IsSnapShort};
ghost use Rattle.kernel_commit_facts.specs.Snapping.{CanSnap, RunsFree, Snaps, wants_in};
ghost use Rattle.kernel_commits.specs.Snapping.{SnapsAll, SnapsOne};
ghost use Rattle.kernel_commit_facts.specs.Steady.{IsSteady};
ghost use Rattle.kernel_commits.specs.Recording.{Fails};
ghost use Rattle.kernel_commits.specs.Stops.{LeavesStopped};
ghost use Rattle.kernel_commits.specs.Telling.{CommitsNote};
ghost use Rattle.kernel_commit_facts.specs.kernel_invariant.Beginnings.{Beginning};
ghost use Rattle.kernel_commit_facts.specs.kernel_records.Committing.{CommitCounts};
ghost use Rattle.kernel_commit_facts.specs.model_serial.Serial.{wished_snap, wished_snaps, written_in};
ghost use Rattle.kernel_commit_facts.specs.table_laws.Tables.{AreClean};
ghost use Rattle.kernel_commit_facts.specs.kernel_record_facts.Cells.{words_on};
ghost use Rattle.kernel_commit_facts.specs.Pieces.{CountsWithin, StopsIn};

use crate::cores::Core;
use crate::recording::record_one;
use base_types::{Entity, Entry, Touch};
use edge_disk::{Disk, NoBlocks};
use edge_managers::{Gate, Policy, Supplier};
use kernel_commit_facts::{Cell, FULL};
use kernel_invariant::Stopped;

/// Whether a record of one of the cells is wished.
fn wishes_among<S: Supplier, P: Policy>(cells: &[Cell], entity: Entity, gate: &Gate<S, P>) -> bool
    requires keeps { P.keeps gate.now.policy }
    requires all { length cells.now ≡ 64 }
    requires founded { (x : ℕ) (c : ACell) → slice_get cells.now x ≡ Some c → IsFoundedCell c }
    ensures there { (c : ACell) × (slice_get cells.now entity ≡ Some c) }
    ensures open { (s : Supply) (words : ℕ → List ℕ) (c : ACell) → slice_get cells.now entity ≡ Some c
        → result ≡ is_open (P.wish gate.now.policy) (part_of s words c.part) c.clock.version c.wish }
    ensures run { (s : Supply) (words : ℕ → List ℕ) (steps : ℕ) (r : Run) (c : ACell) → slice_get cells.now entity ≡ Some c → HasCell s words r.state c → HasWish steps r c
        → result ≡ has_wish (P.wish gate.now.policy) r c.clock.entity }
{
    cells[entity.number() as usize].is_wished(gate)
}

/// Whether a Snap of the entity is to be made: its wish is open, and it isn't full.
fn wants_snap<D: Disk, S: Supplier, P: Policy>(
    core: &Core<D>,
    entity: Entity,
    gate: &Gate<S, P>,
) -> bool
    requires keeps { P.keeps gate.now.policy }
    requires steady { IsSteady D.Disk core.now }
    ensures there { (c : ACell) × (slice_get core.now.cells entity ≡ Some c) }
    ensures snaps { Snaps (P.wish gate.now.policy) entity core.now result }
    ensures can { result ≡ true → CanSnap D.Disk entity core.now }
    ensures run { D.tells → (b : Beginning) → RunsFree D.Disk b (P.wish gate.now.policy) core.now
        → wants_in (P.wish gate.now.policy) (run_of b core.now.noted.entries) entity ≡ result }
{
    if !wishes_among(&core.cells, entity, gate) {
        return false;
    }
    core.store.kept_count(entity) < FULL
}

/// Makes a record of an entity where one is wished and the entity isn't full, and tells whether it did.
pub fn snap_one<D: Disk, S: Supplier, P: Policy>(
    core: &mut Core<D>,
    entity: Entity,
    gate: &Gate<S, P>,
) -> Result<bool, Stopped>
    requires keeps { P.keeps gate.now.policy }
    requires steady { IsSteady D.Disk core.old }
    ensures steady { OnOk result (IsSteady D.Disk core.new) }
    ensures made { Snaps (P.wish gate.now.policy) entity core.old true
        → OnOk result ((result ≡ Ok true) × HasRecorded D.Disk entity core.old core.new) }
    ensures none { Snaps (P.wish gate.now.policy) entity core.old false → (result ≡ Ok false) × (core.new ≡ core.old) }
    ensures no_blocks { (n : NoBlocks) → IsErrOf result (Stopped.NoBlocks n) ↔ IsSnapShort D.Disk (P.wish gate.now.policy) entity core.old n }
    ensures fails { Fails D.Disk entity result core.old core.new }
    ensures notes { CommitsNote result core.old.noted.entries core.new.noted.entries }
    ensures run { D.tells → (b : Beginning) → RunsFree D.Disk b (P.wish gate.now.policy) core.old
        → SnapsOne D.Disk b (P.wish gate.now.policy) entity result core.old core.new }
    ensures part { D.tells → (b : Beginning) → RunsFree D.Disk b (P.wish gate.now.policy) core.old
        → OnErr result (StopsIn b (wished_snap (P.wish gate.now.policy) (run_of b core.old.noted.entries) entity) core.old.noted.entries core.new.noted.entries) }
    ensures clean { D.tells → (s : Supply) → AreClean s (words_on (D.reading core.old.store.disk)) core.old.cells
        → OnOk result (AreClean s (words_on (D.reading core.new.store.disk)) core.new.cells) }
    ensures enough { D.tells → (b : Beginning) → RunsFree D.Disk b (P.wish gate.now.policy) core.old
        → (n : NoBlocks) → IsErrOf result (Stopped.NoBlocks n) → LacksIn D.Disk b n (wished_snap (P.wish gate.now.policy) (run_of b core.old.noted.entries) entity) core.old.noted.entries core.new }
    ensures counts { CommitCounts D.Disk core.old.store core.new.store }
{
    if !wants_snap(core, entity, gate) {
        return Ok(false);
    }
    match record_one(core, entity) {
        Ok(()) => Ok(true),
        Err(why) => Err(why),
    }
}

/// The Snaps of those entities that were written among the touched ones, in their order, whose wishes are open.
fn snap_touched<D: Disk, S: Supplier, P: Policy>(
    core: &mut Core<D>,
    touches: &[Touch],
    gate: &Gate<S, P>,
) -> Result<(), Stopped>
    requires keeps { P.keeps gate.now.policy }
    requires steady { IsSteady D.Disk core.old }
    requires rising { IsRising touches.now }
    ensures steady { OnOk result (IsSteady D.Disk core.new) }
    ensures run { D.tells → (b : Beginning) → RunsFree D.Disk b (P.wish gate.now.policy) core.old
        → SnapsAll D.Disk b (P.wish gate.now.policy) (written_in touches.now) result core.old core.new }
    ensures part { D.tells → (b : Beginning) → RunsFree D.Disk b (P.wish gate.now.policy) core.old
        → OnErr result (StopsIn b (wished_snaps b.supply (P.wish gate.now.policy) b.script (run_of b core.old.noted.entries) (written_in touches.now)) core.old.noted.entries core.new.noted.entries) }
    ensures enough { D.tells → (b : Beginning) → RunsFree D.Disk b (P.wish gate.now.policy) core.old
        → (n : NoBlocks) → IsErrOf result (Stopped.NoBlocks n)
        → LacksIn D.Disk b n (wished_snaps b.supply (P.wish gate.now.policy) b.script (run_of b core.old.noted.entries) (written_in touches.now)) core.old.noted.entries core.new }
    ensures stopped { IfErr result (LeavesStopped D.faults (AreSnapsShort D.Disk (P.wish gate.now.policy) (written_in touches.now) core.new) core.old core.new) }
    ensures notes { CommitsNote result core.old.noted.entries core.new.noted.entries }
    ensures clean { D.tells → (s : Supply) → AreClean s (words_on (D.reading core.old.store.disk)) core.old.cells
        → OnOk result (AreClean s (words_on (D.reading core.new.store.disk)) core.new.cells) }
    // one record at most of each of the 64 entities
    ensures counts { CountsWithin D.Disk (64 * 1556) core.old.store core.new.store }
{
    for i in 0..touches.len() {
        let touch = touches[i];
        if touch.wrote {
            if let Err(why) = snap_one(core, touch.entity, gate) {
                return Err(why);
            }
        }
    }
    Ok(())
}

/// Behind a step: the Snaps of what it wrote whose wishes are open, in ascending number.
///
/// `NoBlocks` comes only where fewer blocks are free than the record of one of them needs, with both numbers, before its first write.
pub fn snap_written<D: Disk, S: Supplier, P: Policy>(
    core: &mut Core<D>,
    entry: &Entry,
    gate: &Gate<S, P>,
) -> Result<(), Stopped>
    requires keeps { P.keeps gate.now.policy }
    requires steady { IsSteady D.Disk core.old }
    ensures steady { OnOk result (IsSteady D.Disk core.new) }
    ensures run { D.tells → (b : Beginning) → RunsFree D.Disk b (P.wish gate.now.policy) core.old
        → SnapsAll D.Disk b (P.wish gate.now.policy) (written_in entry.now.touched) result core.old core.new }
    ensures part { D.tells → (b : Beginning) → RunsFree D.Disk b (P.wish gate.now.policy) core.old
        → OnErr result (StopsIn b (wished_snaps b.supply (P.wish gate.now.policy) b.script (run_of b core.old.noted.entries) (written_in entry.now.touched)) core.old.noted.entries core.new.noted.entries) }
    ensures enough { D.tells → (b : Beginning) → RunsFree D.Disk b (P.wish gate.now.policy) core.old
        → (n : NoBlocks) → IsErrOf result (Stopped.NoBlocks n)
        → LacksIn D.Disk b n (wished_snaps b.supply (P.wish gate.now.policy) b.script (run_of b core.old.noted.entries) (written_in entry.now.touched)) core.old.noted.entries core.new }
    ensures stopped { IfErr result (LeavesStopped D.faults (AreSnapsShort D.Disk (P.wish gate.now.policy) (written_in entry.now.touched) core.new) core.old core.new) }
    ensures notes { CommitsNote result core.old.noted.entries core.new.noted.entries }
    ensures clean { D.tells → (s : Supply) → AreClean s (words_on (D.reading core.old.store.disk)) core.old.cells
        → OnOk result (AreClean s (words_on (D.reading core.new.store.disk)) core.new.cells) }
    ensures counts { CountsWithin D.Disk (64 * 1556) core.old.store core.new.store }
{
    snap_touched(core, entry.touched.as_slice(), gate)
}
