// All sides of a board under its name, and how they come to lie under locks.
ghost use Rattle.std.specs.Prelude.{◌≡◌, ◌≤◌, ◌+◌, ◌<◌, ◌∷◌, [], IfSome, Some, length, vec_capacity, vec_len};
ghost use Rattle.thread_items.specs.kernel_core.Parts.{held_of};
ghost use Rattle.kernel_run_facts.specs.kernel_core_facts.Kernels.{IsKept, Lives, StaysClean};
ghost use Rattle.kernel_run_facts.specs.kernel_core_facts.table_laws.Tables.{AreNumbered};
ghost use Rattle.kernel_run_facts.specs.kernel_core_facts.store_facts.State.{State};
ghost use Rattle.kernel_run_facts.specs.Alongs.{IsAlong};
ghost use Rattle.thread_history.specs.Sides.{sides_upto};
ghost use Rattle.thread_items.specs.thread_desk.Desks.{IsCountedFrom};
ghost use Rattle.thread_items.specs.thread_settling.Rows.{AreBeside};
ghost use Rattle.thread_ties.specs.Sides.{fragments_of};

use crate::lines::Unwritten;
use crate::locks::Locks;
use crate::opening::Tables;
use crate::room::Room;
use base_types::Entry;
use edge_disk::Disk;
use edge_managers::{Gate, Policy, Supplier};
use std::alloc::Global;
use std::sync::Mutex;
use thread_board::{Bench, Slate, Slip};
use thread_cells::LockedCell;
use thread_history::{HistoryAuthority, Share};
use thread_items::{
    Apart, Board, Cell, Desk, ItemDesk, LookItem, OfStore, SightedCell, Store, Till,
};
use thread_ties::{Authority, Fragment, fragments_law};

/// All sides of a board, with room for its locks.
#[derive(Drop)]
pub(crate) struct Sides<D: Disk, B: Board<D> + Bench> {
    all: Authority<Cell, B>,
    fragments: Vec<Fragment<Cell, B>>,
    stores: Authority<Store<D>, OfStore<B>>,
    fragment: Fragment<Store<D>, OfStore<B>>,
    annals: HistoryAuthority<Entry, B>,
    shares: Vec<Share<Entry, B>>,
    slate: Slate<Unwritten, LookItem, B>,
    slip: Slip<Unwritten, LookItem, B>,
    locks: Vec<Mutex<SightedCell<D, B>>>,
    room: Room,
}

/// The sides under the board's name. None for want of memory.
pub(crate) fn named_sides<D: Disk, B: Board<D> + Bench>(
    alloc: Global,
    tables: Tables<D>,
) -> Option<Sides<D, B>>
    requires cells { (tables.ties.table ≡ B.values_table) × (length B.first_values ≡ 64) }
    requires stores { (tables.stores.table ≡ B.store_table) × (length B.first_stores ≡ 1) }
    requires history { (tables.history.table ≡ B.table) × (tables.history.kept ≡ B.kept) }
    requires bench { (tables.bench.slate ≡ B.slate) × (tables.bench.ledger ≡ B.name) × (B.all ≡ 1) × (B.parts ≡ 1) }
    ensures cells { IfSome result (λ s. (s.all ≡ B.first_values) × (s.fragments.items ≡ fragments_of B.first_values)) }
    ensures stores { (st : State D) → B.first_stores ≡ st ∷ [] → IfSome result (λ s. (s.stores ≡ st ∷ []) × (s.fragment ≡ record { number = 0; value = Some st })) }
    ensures history { IfSome result (λ s. (s.annals ≡ []) × (s.shares.items ≡ sides_upto 64)) }
    ensures bench { IfSome result (λ s. s.slip.items ≡ []) }
    ensures room { IfSome result (λ s. (vec_len s.locks ≡ 0) × (64 ≤ vec_capacity s.locks)) }
{
    let Tables {
        ties,
        stores,
        history,
        bench,
        room,
    } = tables;
    let (all, fragments) = ties.named::<B>(alloc, 64).ok()?;
    let (stores, mut of_store) = stores.named::<OfStore<B>>(alloc, 1).ok()?;
    let (annals, shares) = history.named::<B>(alloc).ok()?;
    let (slate, _, slip) = bench.named::<B>()?;
    let locks = Vec::with_capacity(alloc, 64).ok()?;
    let fragment = of_store.pop()?;
    Some(Sides {
        all,
        fragments,
        stores,
        fragment,
        annals,
        shares,
        slate,
        slip,
        locks,
        room,
    })
}

/// The last cell as it may lie under its lock, with its share and its fragment.
fn last_sighted<D: Disk, B: Board<D>>(
    desk: &mut Desk<D, B>,
    till: &mut Till<D, B>,
    cells: &mut Vec<Cell>,
    shares: &mut Vec<Share<Entry, B>>,
    fragments: &mut Vec<Fragment<Cell, B>>,
) -> SightedCell<D, B>
    requires beside { AreBeside cells.old.items shares.old.items fragments.old.items }
    requires some { 0 < vec_len cells.old }
    ensures beside { AreBeside cells.new.items shares.new.items fragments.new.items }
    ensures fewer { vec_len cells.new + 1 ≡ vec_len cells.old }
{
    match cells.pop() {
        Some(cell) => match shares.pop() {
            Some(share) => match fragments.pop() {
                Some(fragment) => {
                    let locked = LockedCell {
                        cell,
                        share,
                        fragment,
                    };
                    return desk.sight(till, locked);
                }
                None => unreachable!(),
            },
            None => unreachable!(),
        },
        None => unreachable!(),
    }
}

/// Puts each cell under a lock of its own, in the order of their numbers, with its share and its fragment.
fn lock_cells<D: Disk, B: Board<D>>(
    desk: &mut Desk<D, B>,
    till: &mut Till<D, B>,
    cells: Vec<Cell>,
    shares: Vec<Share<Entry, B>>,
    fragments: Vec<Fragment<Cell, B>>,
    room: Vec<Mutex<SightedCell<D, B>>>,
) -> Vec<Mutex<SightedCell<D, B>>>
    requires numbers { AreNumbered cells.items }
    requires shares { shares.items ≡ sides_upto 64 }
    requires fragments { fragments.items ≡ fragments_of cells.items }
    requires room { (vec_len room ≡ 0) × (64 ≤ vec_capacity room) }
    ensures all { vec_len result ≡ 64 }
{
    fragments_law::<Cell>();
    let (mut cells, mut shares, mut fragments, mut locks) = (cells, shares, fragments, room);
    for n in 0..64_usize {
        let _ = n;
        locks.push_reserved(Mutex::new(last_sighted(
            desk,
            till,
            &mut cells,
            &mut shares,
            &mut fragments,
        )));
    }
    locks.reverse();
    locks
}

impl<D: Disk, B: Board<D> + Bench> Sides<D, B> {
    /// The board of these sides over the parts of a kernel.
    pub(crate) fn over<S: Supplier, P: Policy>(
        self,
        alloc: Global,
        parts: Apart<D>,
        gate: Gate<S, P>,
    ) -> Locks<D, S, P, B>
        requires lawful { IsKept D.Disk (held_of parts.store parts.cells.items parts.notes parts.stopped) }
        requires cells { (self.all ≡ parts.cells.items) × (self.fragments.items ≡ fragments_of parts.cells.items) }
        requires stores { (self.stores ≡ parts.store ∷ []) × (self.fragment ≡ record { number = 0; value = Some parts.store }) }
        requires history { (self.annals ≡ []) × (self.shares.items ≡ sides_upto 64) × (B.kept ≡ parts.notes.entries) }
        requires bench { self.slip.items ≡ [] }
        requires room { (vec_len self.locks ≡ 0) × (64 ≤ vec_capacity self.locks) }
        requires managers { (S.keeps gate.supply × P.keeps gate.policy) × ((B.begin.supply ≡ S.word gate.supply) × (B.begin.policy ≡ P.wish gate.policy)) }
        requires counted { IsCountedFrom D.Disk B.terms.counts (held_of parts.store parts.cells.items parts.notes parts.stopped) }
        requires clean { StaysClean D.Disk B.begin.supply (held_of parts.store parts.cells.items parts.notes parts.stopped) }
        requires tells { B.terms.told → D.tells }
        requires run { B.terms.told → Lives D.Disk B.begin (held_of parts.store parts.cells.items parts.notes parts.stopped) }
        requires along { B.terms.told → IsAlong D.Disk B.begin (held_of parts.store parts.cells.items parts.notes parts.stopped) }
        ensures { result ≡ gate }
    {
        let Apart {
            cells,
            store,
            notes,
            blob,
            stopped,
        } = parts;
        let Sides {
            all,
            fragments,
            stores,
            fragment,
            annals,
            shares,
            slate,
            slip,
            locks,
            room,
        } = self;
        let mut till = Till { store, fragment };
        let mut desk = Desk::open(all, stores, annals, notes, blob, stopped);
        let cells = lock_cells(&mut desk, &mut till, cells, shares, fragments, locks);
        Locks {
            cells,
            till: Mutex::new(till),
            desk: Mutex::new(ItemDesk::open(desk, slip)),
            slate,
            gate,
            room,
            alloc,
        }
    }
}
