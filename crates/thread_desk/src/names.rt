// The names of a board.
use base_types::Entry;
use edge_disk::Disk;
use kernel_core::{Cell, Store};
use std::marker::{Brand, PhantomData};
use thread_history::Run;
use thread_ties::Bond;

/// Names a board: its history and the tie of its cells, the run with what was counted as it began, and the tie of its store. Each call of a program
/// picks it.
pub trait Board<D>: Bond<Cell> + Run<Entry> {
    ghost use Rattle.std.specs.Prelude.{List};
    ghost use Rattle.atomic_table.specs.Seated.{TableId};
    ghost use Rattle.kernel_core.specs.kernel_core_facts.kernel_invariant.Beginnings.{Beginning};
    ghost use Rattle.kernel_core.specs.kernel_core_facts.store_facts.State.{State};
    ghost use Rattle.thread_desk.specs.Desks.{Terms};

    ghost begin: { Beginning };

    ghost terms: { Terms };

    ghost store_table: { TableId };

    ghost first_stores: { List (State D) };
}

impl<D> Board<D> for Brand {
    ghost use Rattle.std.specs.Prelude.{[]};
    ghost use Rattle.thread_history.specs.Sides.{no_table};
    ghost use Rattle.thread_desk.specs.Desks.{no_beginning, no_terms};

    ghost begin = { no_beginning };

    ghost terms = { no_terms };

    ghost store_table = { no_table };

    ghost first_stores = { [] };
}

/// The tie of a board's store.
pub struct OfStore<B> {
    of: PhantomData<B>,
}

impl<D: Disk, B: Board<D>> Bond<Store<D>> for OfStore<B> {
    ghost values_table = { B.store_table };

    ghost first_values = { B.first_stores };
}
