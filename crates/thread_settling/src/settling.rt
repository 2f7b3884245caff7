// The records of a Stable over lent cells.
ghost use Rattle.std.specs.Prelude.{◌≡◌, ◌==◌, ◌+◌, ◌<◌, ◌++◌, ◌∷◌, [], length, map, take};
ghost use Rattle.std.specs.Sync.Mutex.{mutex_guard_value};
ghost use Rattle.base_types.specs.declared.histories.Event.TheVariants as AnEvent;
ghost use Rattle.thread_commits.specs.kernel_commit_facts.kernel_book_laws.Matching.{newest_of, version_of};
ghost use Rattle.thread_commits.specs.kernel_commit_facts.model_kernel.Histories.{mark};
ghost use Rattle.thread_commits.specs.kernel_commit_facts.store_facts.State.{books};
ghost use Rattle.thread_commits.specs.kernel_commit_facts.Parts.{parts_of};
ghost use Rattle.thread_commits.specs.kernel_commit_facts.Stabilising.{NeedsFit};
ghost use Rattle.thread_commits.specs.kernel_commit_facts.Steady.{IsSteady, entries_taken, steps_to_come};
ghost use Rattle.thread_settling.specs.Rows.{AllFit, AreSameSeats, IsRow};
ghost use Rattle.thread_settling.specs.Settling.{RecordsChanged, Settles};

use crate::lending::LentCell;
use crate::needing::shortage;
use base_bytes::Blob;
use base_types::{Entity, Entry, Event};
use edge_disk::{Disk, NoBlocks};
use std::sync::MutexGuard;
use thread_commits::{Cell, Notes, Stopped, Store, is_recorded, mark_entry};
use thread_history::Run;
use thread_ties::{Authority, Bond};

/// Whether a lent cell hasn't changed since its newest record.
fn recorded_lent<D: Disk, B: Bond<Cell> + Run<Entry>, K, C: LentCell<K, D, B>>(
    all: &mut Authority<Cell, B>,
    cell: &mut C,
) -> bool
    ensures all { all.new ≡ all.old }
    ensures cell { C.keeping cell.new ≡ C.keeping cell.old }
    ensures recorded { result ≡ (version_of all.old (C.keeping cell.old).number == newest_of all.old (C.keeping cell.old).number) }
{
    cell.meet(all);
    is_recorded(cell.as_cell())
}

/// A record of each changed cell, in ascending number, each with its Snap, for all of which enough blocks are free.
fn record_all<D: Disk, B: Bond<Cell> + Run<Entry>, K, C: LentCell<K, D, B>>(
    all: &mut Authority<Cell, B>,
    cells: &mut [MutexGuard<'_, C>],
    store: &mut Store<D>,
    notes: &mut Notes,
    blob: &mut Blob,
) -> Result<(), Stopped>
    requires row { IsRow (map (λ g. C.keeping (mutex_guard_value g)) cells.old) }
    requires steady { IsSteady D.Disk (parts_of store.old all.old notes.old) }
    requires lawful { AllFit C.fits (map (λ g. C.keeping (mutex_guard_value g)) cells.old) (parts_of store.old all.old notes.old) }
    requires fits { NeedsFit (parts_of store.old all.old notes.old) }
    ensures seats { AreSameSeats (map (λ g. C.keeping (mutex_guard_value g)) cells.old) (map (λ g. C.keeping (mutex_guard_value g)) cells.new) }
    ensures records { RecordsChanged D.Disk result (parts_of store.old all.old notes.old) (parts_of store.new all.new notes.new) }
{
    for i in 0..64 {
        let cell = &mut *cells[i];
        if !recorded_lent(all, cell) {
            if let Err(why) = cell.make_record(all, store, notes, blob) {
                return Err(why);
            }
        }
    }
    Ok(())
}

/// A record of each changed cell, in ascending number, each with its Snap.
///
/// `NoBlocks` comes exactly where fewer blocks are free than all of them need together, with both numbers, before the first write.
fn record_changed<D: Disk, B: Bond<Cell> + Run<Entry>, K, C: LentCell<K, D, B>>(
    all: &mut Authority<Cell, B>,
    cells: &mut [MutexGuard<'_, C>],
    store: &mut Store<D>,
    notes: &mut Notes,
    blob: &mut Blob,
) -> Result<(), Stopped>
    requires row { IsRow (map (λ g. C.keeping (mutex_guard_value g)) cells.old) }
    requires steady { IsSteady D.Disk (parts_of store.old all.old notes.old) }
    requires lawful { AllFit C.fits (map (λ g. C.keeping (mutex_guard_value g)) cells.old) (parts_of store.old all.old notes.old) }
    ensures seats { AreSameSeats (map (λ g. C.keeping (mutex_guard_value g)) cells.old) (map (λ g. C.keeping (mutex_guard_value g)) cells.new) }
    ensures records { RecordsChanged D.Disk result (parts_of store.old all.old notes.old) (parts_of store.new all.new notes.new) }
{
    if let Some(blocks) = shortage(all, cells, store, blob) {
        return Err(Stopped::NoBlocks(blocks));
    }
    record_all(all, cells, store, notes, blob)
}

/// How many entries and marks are noted.
fn noted_so_far(notes: &Notes) -> (usize, usize)
    ensures entries { result.0 ≡ length notes.now.entries }
    ensures marks { result.1 ≡ length notes.now.marks }
{
    (notes.entries().len(), notes.marks().len())
}

/// Notes a Stable with its mark in the place of all that came behind so many entries and marks.
fn note_stable<D: Disk>(
    notes: &mut Notes,
    store: &Store<D>,
    entries: usize,
    marks: usize,
    actor: Entity,
)
    requires entries { entries < notes.old.room }
    requires marks { marks < notes.old.room }
    ensures entries { notes.new.entries ≡ take entries notes.old.entries ++ mark AnEvent.Stable actor 0 ∷ [] }
    ensures marks { notes.new.marks ≡ take marks notes.old.marks ++ (books store.now).begun ∷ [] }
    ensures room { notes.new.room ≡ notes.old.room }
{
    notes.cut_back(entries, marks);
    notes.push_entry(&mark_entry(Event::Stable, actor, 0));
    notes.push_mark(store.begun());
}

/// A record of each changed entity, in ascending number, and the actor's Stable in the place of their Snaps. All cells are lent from under
/// their locks, each at the place of its number, and both sides of the ties know them as they are left. Each may be let go beside the kernel's
/// parts, before and behind.
///
/// `NoBlocks` comes exactly where fewer blocks are free than all records need together, with both numbers, before the first write, and in
/// a run only where the image has fewer than are enough for the state. Where the disk fails the Snaps of the records that were made are
/// left, with a Tried. Nothing is read, and no memory is taken. What was in `blob` is lost.
pub fn settle_lent<D: Disk, B: Bond<Cell> + Run<Entry>, K, C: LentCell<K, D, B>>(
    all: &mut Authority<Cell, B>,
    cells: &mut [MutexGuard<'_, C>],
    store: &mut Store<D>,
    notes: &mut Notes,
    blob: &mut Blob,
    actor: Entity,
) -> Result<(), Stopped>
    requires row { IsRow (map (λ g. C.keeping (mutex_guard_value g)) cells.old) }
    requires steady { IsSteady D.Disk (parts_of store.old all.old notes.old) }
    requires lawful { AllFit C.fits (map (λ g. C.keeping (mutex_guard_value g)) cells.old) (parts_of store.old all.old notes.old) }
    // room for one entry more beside those of the steps to come: behind a Stable no wish is open
    requires spare { steps_to_come all.old + entries_taken notes.old.entries < notes.old.room }
    ensures seats { AreSameSeats (map (λ g. C.keeping (mutex_guard_value g)) cells.old) (map (λ g. C.keeping (mutex_guard_value g)) cells.new) }
    ensures settles { Settles D.Disk actor result (parts_of store.old all.old notes.old) (parts_of store.new all.new notes.new) }
{
    let (entries, marks) = noted_so_far(notes);
    if let Err(why) = record_changed(all, cells, store, notes, blob) {
        return Err(why);
    }
    note_stable(notes, store, entries, marks, actor);
    Ok(())
}
