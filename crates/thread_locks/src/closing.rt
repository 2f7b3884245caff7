// How a board gives its kernel back.
ghost use Rattle.std.specs.Prelude.{◌≡◌, ◌+◌, [], Some, length, vec_len};
ghost use mathlib.Core.List.{IsPrefix};
ghost use Rattle.kernel_run_facts.specs.kernel_core_facts.Kernels.{Lives, StaysClean};
ghost use Rattle.kernel_run_facts.specs.Alongs.{IsAlong};
ghost use Rattle.thread_board.specs.Items.{Each, IsRising};
ghost use Rattle.thread_items.specs.Items.{AreTrueItems};
ghost use Rattle.thread_items.specs.Places.{steps_in};
ghost use Rattle.thread_items.specs.thread_desk.Desks.{IsCountedFrom};
ghost use Rattle.thread_returns.specs.Passes.{AreAllApart};

use crate::lines::Unwritten;
use crate::locks::Locks;
use crate::room::Room;
use base_types::Entry;
use edge_disk::Disk;
use edge_managers::{Gate, Policy, Supplier};
use std::sync::Mutex;
use thread_board::{Bench, Pass, Slate};
use thread_cells::LockedCell;
use thread_history::Run;
use thread_items::{Apart, Board, Cell, Desk, ItemDesk, Kernel, LookItem, SightedCell, Till};
use thread_returns::{Returning, take_back_all};
use thread_ties::{Bond, Closing, Fragment};

/// What is left of a board: the kernel, and its managers.
#[derive(Drop)]
pub struct Closed<D: Disk, S: Supplier, P: Policy> {
    pub kernel: Kernel<D>,
    pub gate: Gate<S, P>,
}

/// A cell and its fragment.
fn parts_of<B: Bond<Cell> + Run<Entry>>(locked: LockedCell<B>) -> (Cell, Fragment<Cell, B>)
    ensures cell { result.0 ≡ locked.cell }
    ensures fragment { result.1 ≡ record { number = locked.number; value = Some locked.cell } }
{
    let LockedCell {
        cell,
        share: _,
        fragment,
    } = locked;
    (cell, fragment)
}

/// A cell comes back from under its lock.
fn give_back<D: Disk, B: Board<D>>(returning: &mut Returning<Cell, B>, sighted: SightedCell<D, B>)
    ensures values { returning.new.values ≡ returning.old.values }
    ensures back { length returning.new.back ≡ length returning.old.back + 1 }
{
    let number = usize::from(sighted.number());
    let (cell, fragment) = parts_of(sighted.locked);
    returning.take_back(number, cell, fragment);
}

/// All cells from under their locks, in the order of their numbers, whichever lay where.
fn unlock_all<D: Disk, B: Board<D>>(
    closing: Closing<Cell, B>,
    locks: Vec<Mutex<SightedCell<D, B>>>,
    room: Room,
) -> Vec<Cell>
    requires none { closing.back ≡ [] }
    requires all { (length closing.values ≡ 64) × (vec_len locks ≡ 64) }
    ensures { result.items ≡ closing.values }
{
    let Room { places, cells } = room;
    let mut returning = Returning::of(closing, places);
    let mut locks = locks;
    for n in 0..64_usize {
        let _ = n;
        let Some(lock) = locks.pop() else {
            unreachable!();
        };
        give_back(&mut returning, lock.into_inner());
    }
    returning.into_values(cells)
}

/// The desk behind all passes, each of which comes back.
fn desk_of<D: Disk, B: Board<D> + Bench>(
    desk: ItemDesk<D, Unwritten, B>,
    slate: &Slate<Unwritten, LookItem, B>,
    passes: Vec<Pass<Unwritten, LookItem, B>>,
) -> Desk<D, B>
    ensures desk { result ≡ desk.desk }
    ensures items { Each (λ p. AreTrueItems B.terms.told B.begin desk.desk.noted.entries desk.desk.stop p.items) passes.items }
    ensures rising { Each (λ p. IsRising (λ i. i.place) (λ i. i.place + steps_in i.came) p.items) passes.items }
    ensures apart { AreAllApart (λ i. i.place) (λ i. i.place + steps_in i.came) passes.items }
{
    let (desk, mut slip) = desk.close();
    take_back_all(&mut slip, slate, passes);
    desk
}

/// The kernel of a desk, a store and all cells from under their locks.
fn kernel_of<D: Disk, B: Board<D>>(
    desk: Desk<D, B>,
    till: Till<D, B>,
    locks: Vec<Mutex<SightedCell<D, B>>>,
    room: Room,
) -> Kernel<D>
    requires all { vec_len locks ≡ 64 }
    ensures counted { IsCountedFrom D.Disk B.terms.counts result }
    ensures clean { StaysClean D.Disk B.begin.supply result }
    ensures run { B.terms.told → Lives D.Disk B.begin result }
    ensures along { B.terms.told → IsAlong D.Disk B.begin result }
    ensures whole { IsPrefix B.kept result.parts.noted.entries }
    ensures same { (result.parts.noted ≡ desk.noted) × (result.stop ≡ desk.stop) }
{
    let thread_items::Closed {
        cells: closing,
        annals: _,
        store,
        notes,
        blob,
        stopped,
    } = desk.close(till);
    let cells = unlock_all(closing, locks, room);
    Kernel::together(Apart {
        cells,
        store,
        notes,
        blob,
        stopped,
    })
}

impl<D: Disk, S: Supplier, P: Policy, B: Board<D> + Bench> Locks<D, S, P, B> {
    /// The kernel again, and its managers. All passes that are given are this board's. It takes no memory.
    ///
    /// Where the board's run is spoken of (`told`) the kernel is live in it: its history is a legal run, its marks and what a stop at each moment leaves
    /// are as ever (`run`), and it is that of looks at some loci, one behind the other, or was stopped in the piece behind such, for want of blocks only
    /// where the image lacks them (`along`). Its history is the whole one, that of before the board included (`whole`).
    ///
    /// Whatever the disk tells, its count of faults hasn't fallen since the run began, and the image has as many blocks; if the kernel has stopped, it was
    /// for want of blocks only where fewer were free than were needed, and at a fault of the disk only where that count rose (`counted`). Where the disk
    /// tells its content the pages of a kernel that goes on are clean (`clean`).
    ///
    /// Each item of each pass is true of this history and of why the kernel has stopped (`items`): a step stands at its place and is the asked
    /// locus's, a locus that couldn't step couldn't after so many entries, and a stop is this one. The items of a pass ascend (`rising`), and no two
    /// passes have items of one place (`apart`).
    pub fn close(self, passes: Vec<Pass<Unwritten, LookItem, B>>) -> Closed<D, S, P>
        ensures counted { IsCountedFrom D.Disk B.terms.counts result.kernel }
        ensures clean { StaysClean D.Disk B.begin.supply result.kernel }
        ensures run { B.terms.told → Lives D.Disk B.begin result.kernel }
        ensures along { B.terms.told → IsAlong D.Disk B.begin result.kernel }
        ensures whole { IsPrefix B.kept result.kernel.parts.noted.entries }
        ensures items { Each (λ p. AreTrueItems B.terms.told B.begin result.kernel.parts.noted.entries result.kernel.stop p.items) passes.items }
        ensures rising { Each (λ p. IsRising (λ i. i.place) (λ i. i.place + steps_in i.came) p.items) passes.items }
        ensures apart { AreAllApart (λ i. i.place) (λ i. i.place + steps_in i.came) passes.items }
        ensures gate { result.gate ≡ self }
    {
        let Locks {
            cells,
            till,
            desk,
            slate,
            gate,
            room,
            alloc: _,
        } = self;
        let desk = desk_of(desk.into_inner(), &slate, passes);
        let kernel = kernel_of(desk, till.into_inner(), cells, room);
        Closed { kernel, gate }
    }
}
