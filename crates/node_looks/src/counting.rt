// How many commits a history completes.
ghost use Rattle.std.specs.Prelude.{◌≡◌, ◌≤◌, ◌<◌, ◌+◌, ◌∷◌, ◌++◌, ◌||◌, [], ℕ, List, count_by, false, length};
ghost use Rattle.base_types.specs.Edges.{upto};
ghost use Rattle.base_types.specs.declared.histories.Entry.{Entry as AnEntry};
ghost use Rattle.kernel_runs.specs.kernel_invariant.Beginnings.{Beginning as ABeginning, BeginsRight, IsLegal, completed};
ghost use Rattle.kernel_core.specs.kernel_book_laws.Matching.{newest_of};
ghost use Rattle.kernel_core.specs.kernel_core_facts.Kernels.{Lives};
ghost use Rattle.node_looks.specs.Counting.{HaveChanged, flag_at, has_record};
ghost use Rattle.script_types.specs.model_kernel.Histories.{writes};

use base_types::{Entry, Event};
use edge_disk::Disk;
use kernel_core::{Cell, Kernel};
use kernel_watchers::shown_commits_law;

// Each entity that the entry wrote has changed.
fn change_written(changed: &mut [bool; 64], entry: &Entry)
    ensures { (x : ℕ) → x < 64 → flag_at changed.new x ≡ (writes entry.now x || flag_at changed.old x) }
{
    for touch in entry.touched.as_slice() {
        if touch.wrote {
            changed[touch.entity.number() as usize] = true;
        }
    }
}

// None has changed.
fn clear(changed: &mut [bool; 64])
    ensures { (x : ℕ) → x < 64 → flag_at changed.new x ≡ false }
{
    for number in 0..64usize {
        changed[number] = false;
    }
}

// How many have changed.
fn count_changed(changed: &[bool; 64]) -> u64
    ensures { result ≡ count_by (flag_at changed.now) (upto 64) }
{
    let mut count: u64 = 0;
    for number in 0..64usize {
        if changed[number] {
            count += 1;
        }
    }
    count
}

// How many commits one more entry completes.
fn follow(changed: &mut [bool; 64], entry: &Entry) -> u64
    ensures few { result ≤ 64 }
    ensures changed { (b : ABeginning) (front : List AnEntry) → IsLegal b (front ++ entry.now ∷ []) → HaveChanged b front changed.old
        → HaveChanged b (front ++ entry.now ∷ []) changed.new }
    ensures made { (b : ABeginning) (front : List AnEntry) → IsLegal b (front ++ entry.now ∷ []) → HaveChanged b front changed.old
        → length (completed b (front ++ entry.now ∷ [])) ≡ length (completed b front) + result }
{
    match entry.event {
        Event::Birth | Event::Step => {
            change_written(changed, entry);
            0
        }
        Event::Snap => {
            changed[entry.actor.number() as usize] = false;
            1
        }
        Event::Stable => {
            let count = count_changed(changed);
            clear(changed);
            count
        }
        Event::Tried => 0,
    }
}

/// How many commits a history completes, with those of the opened image, which are so many: one for each Snap, and for each Stable one of each entity that has
/// changed since its newest one. One that was tried isn't counted.
pub fn commits_made(opened: u64, history: &[Entry]) -> u64
    ensures { (b : ABeginning) → BeginsRight b → IsLegal b history.now → opened ≡ length (completed b []) → result ≡ length (completed b history.now) }
{
    let mut changed = [false; 64];
    let mut made = opened;
    for entry in history {
        made = made.saturating_add(follow(&mut changed, entry));
    }
    made
}

// Whether the entity with this number has a record, by its cell.
fn has_record(cells: &[Cell], number: usize) -> bool
    ensures { result ≡ has_record cells.now number }
{
    match cells.get(number) {
        Some(cell) => cell.wish.newest > 0,
        None => false,
    }
}

// How many entities have one.
fn count_recorded(cells: &[Cell]) -> u64
    ensures { result ≡ count_by (has_record cells.now) (upto 64) }
{
    let mut count: u64 = 0;
    for number in 0..64usize {
        if has_record(cells, number) {
            count += 1;
        }
    }
    count
}

/// How many commits the opened image of a kernel holds, of which nothing was run yet.
pub fn commits_opened<D: Disk>(kernel: &Kernel<D>) -> u64
    ensures { (b : ABeginning) → Lives D.Disk b kernel.now → kernel.now.parts.noted.entries ≡ [] → result ≡ length (completed b []) }
{
    shown_commits_law::<D>();
    count_recorded(kernel.cells())
}
