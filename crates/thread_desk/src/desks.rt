// The side beside the history.
ghost use Rattle.std.specs.Prelude.{◌≡◌, ◌++◌, [], length};
ghost use mathlib.Core.List.{IsPrefix};
ghost use Rattle.kernel_core.specs.kernel_core_facts.kernel_invariant.Beginnings.{state_after};
ghost use Rattle.kernel_core.specs.kernel_core_facts.kernel_record_facts.Cells.{words_on};
ghost use Rattle.kernel_core.specs.kernel_core_facts.table_births.model_kernel.Histories.{writes};
ghost use Rattle.kernel_core.specs.kernel_core_facts.table_laws.Tables.{entity_by};
ghost use Rattle.thread_history.specs.Rules.{concerning};
ghost use Rattle.thread_desk.specs.Desks.{IsDesk, IsKernel, knowing};

use crate::names::{Board, OfStore};
use crate::sights::{SightedCell, hear_lent};
use crate::tills::Till;
use base_bytes::Blob;
use base_types::Entry;
use edge_disk::Disk;
use kernel_core::{Cell, Notes, Stopped, Store};
use std::marker::Model;
use thread_cells::LockedCell;
use thread_history::{ClosingAuthority, HistoryAuthority, known_state_law};
use thread_ties::{Authority, Closing};

/// What lies under the history's lock: the history with its marks, the sides that tell of it and of what all cells and the store are, and why the
/// kernel has stopped, if it has. It is the kernel's own invariant over the cells and the store that it knows.
#[derive(Drop)]
pub struct Desk<D: Disk, B: Board<D>> {
    pub cells: Authority<Cell, B>,
    pub stores: Authority<Store<D>, OfStore<B>>,
    pub annals: HistoryAuthority<Entry, B>,
    pub notes: Notes,
    pub blob: Blob,
    pub stopped: Option<Stopped>,
}

impl<D: Disk, B: Board<D>> Model for Desk<D, B> {
    ghost use Rattle.thread_desk.specs.Desks.{IsDesk, Knowing, knowing};

    ghost Value = { Knowing D };

    ghost view = { λ d. knowing d.stores d.cells d.notes d.annals d.stopped };

    ghost invariant = { λ d. IsDesk D.Disk B.begin B.terms B.kept (knowing d.stores d.cells d.notes d.annals d.stopped) };
}

/// What is left of a desk: its sides, to which shares and fragments come back, and the parts of a kernel that are not cells.
#[derive(Drop)]
pub struct Closed<D: Disk, B: Board<D>> {
    pub cells: Closing<Cell, B>,
    pub annals: ClosingAuthority<Entry, B>,
    pub store: Store<D>,
    pub notes: Notes,
    pub blob: Blob,
    pub stopped: Option<Stopped>,
}

impl<D: Disk, B: Board<D>> Desk<D, B> {
    /// The desk of a kernel's parts that are not cells, with the sides that know its cells, its store and its history.
    pub fn open(
        cells: Authority<Cell, B>,
        stores: Authority<Store<D>, OfStore<B>>,
        annals: HistoryAuthority<Entry, B>,
        notes: Notes,
        blob: Blob,
        stopped: Option<Stopped>,
    ) -> Desk<D, B>
        requires kernel { IsDesk D.Disk B.begin B.terms B.kept (knowing stores cells notes annals stopped) }
        ensures { result ≡ knowing stores cells notes annals stopped }
    {
        Desk {
            cells,
            stores,
            annals,
            notes,
            blob,
            stopped,
        }
    }

    /// How many entries the whole history has, the kept ones with them.
    pub fn place(&self) -> u64
        ensures { result ≡ length self.now.noted.entries }
    {
        self.notes.entries().len() as u64
    }

    /// Why the kernel has stopped, if it has.
    pub fn stopped(&self) -> Option<Stopped>
        ensures { result ≡ self.now.stop }
    {
        self.stopped
    }

    /// Tells a cell the present history. The cell is what the history that it knew makes of its entity: its state, version and clock, with the
    /// words in the store's blocks as they are now; and no later entry writes the entity.
    pub fn hear(&mut self, till: &mut Till<D, B>, cell: &mut SightedCell<D, B>)
        ensures desk { self.new ≡ self.old }
        ensures till { till.new ≡ till.old }
        ensures cell { cell.new ≡ record { number = cell.old.number; cell = cell.old.cell; known = self.old.told; store = till.old } }
        ensures begins { IsPrefix cell.old.known self.old.told }
        ensures unwritten { concerning writes cell.old.number cell.old.known ≡ concerning writes cell.old.number self.old.told }
        ensures state { B.terms.told → entity_by B.begin.supply (words_on (D.reading till.old.disk)) cell.old.cell ≡ state_after B.begin (B.kept ++ cell.old.known) cell.old.number }
    {
        known_state_law();
        self.stores.agree(&mut till.fragment);
        cell.seen = hear_lent(
            &mut self.cells,
            &mut self.annals,
            &till.store,
            &mut cell.locked,
        );
    }

    /// The cell as it may lie under its lock, where it has heard the present history.
    pub fn sight(&mut self, till: &mut Till<D, B>, cell: LockedCell<B>) -> SightedCell<D, B>
        ensures desk { self.new ≡ self.old }
        ensures till { till.new ≡ till.old }
        ensures cell { result ≡ record { number = cell.number; cell = cell.cell; known = self.old.told; store = till.old } }
    {
        let mut locked = cell;
        self.stores.agree(&mut till.fragment);
        let seen = hear_lent(&mut self.cells, &mut self.annals, &till.store, &mut locked);
        SightedCell { locked, seen }
    }

    /// The desk's sides, and with the store from its lock the parts of a kernel that are not cells: with the cells that were known they are one.
    pub fn close(self, till: Till<D, B>) -> Closed<D, B>
        ensures kernel { IsKernel D.Disk B.begin B.terms B.kept (knowing self.stores result.cells.values result.notes result.annals.since result.stopped) result.store }
        ensures cells { (result.cells.values ≡ self.cells) × (result.cells.back ≡ []) }
        ensures history { (result.annals.since ≡ self.told) × (result.annals.back ≡ []) }
        ensures parts { (result.store ≡ till) × (result.notes ≡ self.noted) × (result.stopped ≡ self.stop) }
    {
        let Desk {
            cells,
            mut stores,
            annals,
            notes,
            blob,
            stopped,
        } = self;
        let Till {
            store,
            mut fragment,
        } = till;
        stores.agree(&mut fragment);
        Closed {
            cells: cells.closing(),
            annals: annals.closing(),
            store,
            notes,
            blob,
            stopped,
        }
    }
}
