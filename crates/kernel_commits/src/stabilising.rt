// The records of a Stable.
ghost use Rattle.std.specs.Prelude.{◌≡◌, ◌↔◌, ◌==◌, ◌*◌, ◌+◌, ◌<◌, ◌++◌, ◌∷◌, [], ℕ, Some, IfErr, IsErrOf, OnErr, OnOk, length, take};
ghost use Rattle.kernel_commit_facts.specs.kernel_book_laws.Matching.{newest_of, version_of};
ghost use Rattle.kernel_commit_facts.specs.Lacking.{LacksIn};
ghost use Rattle.kernel_commit_facts.specs.Parts.{LivesAs};
ghost use Rattle.base_types.specs.declared.histories.Event.TheVariants as AnEvent;
ghost use Rattle.kernel_commit_facts.specs.model_kernel.Histories.{mark};
ghost use Rattle.kernel_commit_facts.specs.Pieces.{CountsWithin, StopsIn};
ghost use Rattle.kernel_commit_facts.specs.Stabilising.{AreShort, HasStabilised, NeedsFit, OwesStable};
ghost use Rattle.kernel_commits.specs.Stabilising.{Stabilises};
ghost use Rattle.kernel_commit_facts.specs.store_facts.State.{books};
ghost use Rattle.kernel_commit_facts.specs.Steady.{IsSteady, entries_taken, steps_to_come};
ghost use Rattle.kernel_commits.specs.Stops.{LeavesStopped};
ghost use Rattle.kernel_commits.specs.Telling.{CommitsNote};
ghost use Rattle.kernel_commit_facts.specs.Through.{GoesThrough, RunsThrough};
ghost use Rattle.kernel_commit_facts.specs.kernel_invariant.Beginnings.{Beginning};
ghost use Rattle.kernel_commit_facts.specs.model_kernel.State.{Supply};
ghost use Rattle.kernel_commit_facts.specs.table_laws.Tables.{AreClean};
ghost use Rattle.kernel_commit_facts.specs.kernel_record_facts.Cells.{words_on};

use crate::cores::Core;
use crate::needing::shortage;
use crate::recording::record_one;
use base_types::{Entity, Event};
use edge_disk::{Disk, NoBlocks};
use kernel_commit_facts::{Cell, is_recorded, mark_entry};
use kernel_invariant::Stopped;

/// Whether one of the cells hasn't changed since its newest record.
fn recorded_among(cells: &[Cell], entity: Entity) -> bool
    requires { length cells.now ≡ 64 }
    ensures { result ≡ (version_of cells.now entity == newest_of cells.now entity) }
{
    is_recorded(&cells[entity.number() as usize])
}

/// A record of each changed cell, in ascending number, each with its Snap, for all of which enough blocks are free.
pub(crate) fn record_all<D: Disk>(core: &mut Core<D>) -> Result<(), Stopped>
    requires steady { IsSteady D.Disk core.old }
    requires fits { NeedsFit core.old }
    ensures through { OnOk result (GoesThrough D.Disk 64 core.old core.new) }
    ensures run { D.tells → (b : Beginning) (actor : ℕ) → OwesStable D.Disk b actor core.old
        → OnOk result (RunsThrough D.Disk b actor 64 core.old core.new) }
    ensures lives { D.tells → (b : Beginning) (actor : ℕ) → OwesStable D.Disk b actor core.old
        → IfErr result (λ why. LivesAs D.Disk b core.new (Some why)) }
    ensures part { D.tells → (b : Beginning) (actor : ℕ) → OwesStable D.Disk b actor core.old
        → OnErr result (StopsIn b (mark AnEvent.Stable actor 0 ∷ []) core.old.noted.entries core.new.noted.entries) }
    ensures stopped { IfErr result (LeavesStopped D.faults (AreShort core.new) core.old core.new) }
    ensures counts { CountsWithin D.Disk (64 * 1556) core.old.store core.new.store }
    ensures only_writes { IfErr result (λ why. why ≡ Stopped.WriteFault) }
{
    for x in 0..64 {
        let entity = Entity::of(x);
        if !recorded_among(&core.cells, entity) {
            if let Err(why) = record_one(core, entity) {
                return Err(why);
            }
        }
    }
    Ok(())
}

/// A record of each changed cell, in ascending number, each with its Snap.
///
/// `NoBlocks` comes exactly where fewer blocks are free than all of them need together, with both numbers, before the first write.
fn record_changed<D: Disk>(core: &mut Core<D>) -> Result<(), Stopped>
    requires steady { IsSteady D.Disk core.old }
    ensures through { OnOk result (GoesThrough D.Disk 64 core.old core.new) }
    ensures run { D.tells → (b : Beginning) (actor : ℕ) → OwesStable D.Disk b actor core.old
        → OnOk result (RunsThrough D.Disk b actor 64 core.old core.new) }
    ensures lives { D.tells → (b : Beginning) (actor : ℕ) → OwesStable D.Disk b actor core.old
        → IfErr result (λ why. LivesAs D.Disk b core.new (Some why)) }
    ensures part { D.tells → (b : Beginning) (actor : ℕ) → OwesStable D.Disk b actor core.old
        → OnErr result (StopsIn b (mark AnEvent.Stable actor 0 ∷ []) core.old.noted.entries core.new.noted.entries) }
    ensures no_blocks { (n : NoBlocks) → IsErrOf result (Stopped.NoBlocks n) ↔ AreShort core.old n }
    ensures untouched { (n : NoBlocks) → IsErrOf result (Stopped.NoBlocks n) → core.new ≡ core.old }
    ensures no_read { IsErrOf result Stopped.ReadFault → ⊥ }
    ensures stopped { IfErr result (LeavesStopped D.faults (AreShort core.new) core.old core.new) }
    ensures counts { CountsWithin D.Disk (64 * 1556) core.old.store core.new.store }
{
    if let Some(blocks) = shortage(core) {
        return Err(Stopped::NoBlocks(blocks));
    }
    record_all(core)
}

/// How many entries and marks are noted.
fn noted_so_far<D: Disk>(core: &Core<D>) -> (usize, usize)
    ensures entries { result.0 ≡ length core.now.noted.entries }
    ensures marks { result.1 ≡ length core.now.noted.marks }
{
    (core.notes.entries().len(), core.notes.marks().len())
}

/// Notes a Stable with its mark in the place of all that came behind so many entries and marks.
fn note_stable<D: Disk>(core: &mut Core<D>, entries: usize, marks: usize, actor: Entity)
    requires entries { entries < core.old.noted.room }
    requires marks { marks < core.old.noted.room }
    ensures store { core.new.store ≡ core.old.store }
    ensures cells { core.new.cells ≡ core.old.cells }
    ensures entries { core.new.noted.entries ≡ take entries core.old.noted.entries ++ mark AnEvent.Stable actor 0 ∷ [] }
    ensures marks { core.new.noted.marks ≡ take marks core.old.noted.marks ++ (books core.old.store).begun ∷ [] }
    ensures room { core.new.noted.room ≡ core.old.noted.room }
{
    core.notes.cut_back(entries, marks);
    core.notes.push_entry(&mark_entry(Event::Stable, actor, 0));
    core.notes.push_mark(core.store.begun());
}

/// A record of each changed entity, in ascending number, and the actor's Stable in the place of their Snaps.
///
/// `NoBlocks` comes exactly where fewer blocks are free than all records need together, with both numbers, before the first write, and in
/// a run only where the image has fewer than are enough for the state. Where the disk fails the Snaps of the records that were made are
/// left, with a Tried.
pub fn settle<D: Disk>(core: &mut Core<D>, actor: Entity) -> Result<(), Stopped>
    requires steady { IsSteady D.Disk core.old }
    // room for one entry more beside those of the steps to come: behind a Stable no wish is open
    requires spare { steps_to_come core.old.cells + entries_taken core.old.noted.entries < core.old.noted.room }
    ensures stabilised { OnOk result (HasStabilised actor core.old core.new) }
    ensures steady { OnOk result (IsSteady D.Disk core.new) }
    ensures run { D.tells → (b : Beginning) → OwesStable D.Disk b actor core.old
        → Stabilises D.Disk b result core.new }
    ensures part { D.tells → (b : Beginning) → OwesStable D.Disk b actor core.old
        → OnErr result (StopsIn b (mark AnEvent.Stable actor 0 ∷ []) core.old.noted.entries core.new.noted.entries) }
    ensures no_blocks { (n : NoBlocks) → IsErrOf result (Stopped.NoBlocks n) ↔ AreShort core.old n }
    ensures untouched { (n : NoBlocks) → IsErrOf result (Stopped.NoBlocks n) → core.new ≡ core.old }
    ensures enough { D.tells → (b : Beginning) → OwesStable D.Disk b actor core.old
        → (n : NoBlocks) → IsErrOf result (Stopped.NoBlocks n) → LacksIn D.Disk b n (mark AnEvent.Stable actor 0 ∷ []) core.old.noted.entries core.new }
    ensures stopped { IfErr result (LeavesStopped D.faults (AreShort core.new) core.old core.new) }
    ensures notes { CommitsNote result core.old.noted.entries core.new.noted.entries }
    ensures clean { D.tells → (s : Supply) → AreClean s (words_on (D.reading core.old.store.disk)) core.old.cells
        → OnOk result (AreClean s (words_on (D.reading core.new.store.disk)) core.new.cells) }
    ensures counts { CountsWithin D.Disk (64 * 1556) core.old.store core.new.store }
{
    let (entries, marks) = noted_so_far(core);
    if let Err(why) = record_changed(core) {
        return Err(why);
    }
    note_stable(core, entries, marks, actor);
    Ok(())
}
