// A kernel that is to lie under locks, beside tables that have no name yet.
ghost use Rattle.std.specs.Prelude.{◌≡◌, ◌∷◌, [], IfErr, IfOk};
ghost use Rattle.kernel_run_facts.specs.kernel_core_facts.Kernels.{Lives, StaysClean};
ghost use Rattle.kernel_run_facts.specs.Alongs.{IsAlong};
ghost use Rattle.thread_items.specs.thread_desk.Desks.{IsCountedFrom};

use crate::lines::Unwritten;
use crate::locks::Locks;
use crate::room::Room;
use crate::sides::named_sides;
use base_types::Entry;
use edge_disk::Disk;
use edge_managers::{Gate, Policy, Supplier};
use std::alloc::{AllocError, Global};
use std::marker::Model;
use thread_board::Bench;
use thread_history::OpenedHistory;
use thread_items::{Board, Cell, Kernel, LookItem, Store};

/// There was no memory. The kernel comes back.
#[derive(Drop)]
pub struct BoardFault<D: Disk> {
    pub kernel: Kernel<D>,
}

/// There was no memory. The kernel and its managers come back.
#[derive(Drop)]
pub struct ManagedFault<D: Disk, S: Supplier, P: Policy> {
    pub kernel: Kernel<D>,
    pub gate: Gate<S, P>,
}

/// The tables of a board without their names, and room for its cells.
#[derive(Drop)]
pub(crate) struct Tables<D: Disk> {
    pub(crate) ties: thread_ties::Opened<Cell>,
    pub(crate) stores: thread_ties::Opened<Store<D>>,
    pub(crate) history: OpenedHistory<Entry>,
    pub(crate) bench: thread_board::Opened<Unwritten, LookItem>,
    pub(crate) room: Room,
}

/// Tables over a history of these entries, which are copied for as long as its table is made.
fn tables_over<D: Disk>(alloc: Global, entries: &[Entry]) -> Result<Tables<D>, AllocError>
    ensures { IfOk result (λ t. t.history.kept ≡ entries.now) }
{
    let mut kept = Vec::new(alloc);
    kept.extend_from_slice(entries)?;
    Ok(Tables {
        ties: thread_ties::Opened::new(alloc)?,
        stores: thread_ties::Opened::new(alloc)?,
        history: OpenedHistory::new(alloc, &kept)?,
        bench: thread_board::Opened::new(alloc)?,
        room: Room::new(alloc)?,
    })
}

/// A kernel beside the tables of a board that has no name yet. Contracts see the kernel and the names of the tables.
#[derive(Drop)]
pub struct Opening<D: Disk> {
    kernel: Kernel<D>,
    tables: Tables<D>,
}

impl<D: Disk> Model for Opening<D> {
    ghost use Rattle.std.specs.Prelude.{◌≡◌};
    ghost use Rattle.thread_locks.specs.Openings.{Opened};

    ghost Value = { Opened D };

    ghost view = { λ o. record {
      kernel = o.kernel;
      cells = o.tables.ties.table;
      stores = o.tables.stores.table;
      history = o.tables.history.table;
      slate = o.tables.bench.slate;
      ledger = o.tables.bench.ledger;
    } };

    ghost invariant = { λ o. o.tables.history.kept ≡ o.kernel.parts.noted.entries };
}

impl<D: Disk> Opening<D> {
    /// A kernel beside tables of its own. It takes memory for the tables, for 128 cells, and for as long as it takes a copy of the history.
    pub fn new(alloc: Global, kernel: Kernel<D>) -> Result<Opening<D>, BoardFault<D>>
        ensures ok { IfOk result (λ o. o.kernel ≡ kernel) }
        ensures err { IfErr result (λ f. f.kernel ≡ kernel) }
    {
        match tables_over(alloc, kernel.history()) {
            Ok(tables) => Ok(Opening { kernel, tables }),
            Err(_) => Err(BoardFault { kernel }),
        }
    }

    /// The board under its name, which has the kernel's cells, store and history for its first: each cell under a lock of its own, the store, and
    /// the desk. Where the board's run is spoken of (`told`) the kernel is live in it, behind looks at some loci, or it has stopped. Since the named
    /// counts its faults and blocks are counted, and with them why it has stopped. It takes memory for 64 locks.
    ///
    /// `Err` comes for want of memory alone, and where another drew the numbers of the board's table first, which nobody else can.
    pub fn named<S: Supplier, P: Policy, B: Board<D> + Bench>(
        self,
        alloc: Global,
        gate: Gate<S, P>,
    ) -> Result<Locks<D, S, P, B>, ManagedFault<D, S, P>>
        requires cells { (self.cells ≡ B.values_table) × (B.first_values ≡ self.kernel.parts.cells) }
        requires stores { (self.stores ≡ B.store_table) × (B.first_stores ≡ self.kernel.parts.store ∷ []) }
        requires history { (self.history ≡ B.table) × (B.kept ≡ self.kernel.parts.noted.entries) }
        requires bench { (self.slate ≡ B.slate) × (self.ledger ≡ B.name) × (B.all ≡ 1) × (B.parts ≡ 1) }
        requires keeps { S.keeps gate.supply × P.keeps gate.policy }
        requires managers { (B.begin.supply ≡ S.word gate.supply) × (B.begin.policy ≡ P.wish gate.policy) }
        requires counted { IsCountedFrom D.Disk B.terms.counts self.kernel }
        requires clean { StaysClean D.Disk B.begin.supply self.kernel }
        requires tells { B.terms.told → D.tells }
        requires run { B.terms.told → Lives D.Disk B.begin self.kernel }
        requires along { B.terms.told → IsAlong D.Disk B.begin self.kernel }
        ensures ok { IfOk result (λ l. l ≡ gate) }
        ensures err { IfErr result (λ f. (f.kernel ≡ self.kernel) × (f.gate ≡ gate)) }
    {
        let Opening { kernel, tables } = self;
        let parts = kernel.apart();
        match named_sides::<D, B>(alloc, tables) {
            Some(sides) => Ok(sides.over(alloc, parts, gate)),
            None => {
                let kernel = Kernel::together(parts);
                Err(ManagedFault { kernel, gate })
            }
        }
    }
}
