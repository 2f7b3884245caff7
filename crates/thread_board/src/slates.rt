//! The table under the name of its board.
ghost use Rattle.std.specs.Prelude.{◌≡◌};

use crate::lines::Line;
use crate::views::BoardTable;
use std::marker::{Brand, Model, PhantomData};
use std::sync::ledger::Ledger;

/// Names a board's table and its ledger. Each call of a program picks them.
pub trait Bench: Ledger {
    ghost use Rattle.std.specs.Prelude.{ℕ};
    ghost use Rattle.atomic_table.specs.Seated.{TableId};

    ghost slate: { TableId };

    /// All parts of the ledger.
    ghost all: { ℕ };
}

impl Bench for Brand {
    ghost use Rattle.thread_history.specs.Sides.{no_table};

    ghost slate = { no_table };

    ghost all = { 1 };
}

/// The table of a board, which all threads share.
#[derive(Drop)]
pub struct Slate<C: Line, T, B: Bench> {
    pub(crate) table: BoardTable<C, T>,
    pub(crate) of: PhantomData<B>,
}

impl<C: Line, T, B: Bench> Model for Slate<C, T, B> {
    ghost use Rattle.std.specs.Prelude.{◌≡◌, ◌<◌};

    ghost Value = { Unit {0} };

    ghost view = { λ s. tt };

    ghost invariant = { λ s. (s.table.shared.table_id ≡ B.slate) × (s.table.shared.table_id.words ≡ 3) × (B.all ≡ B.parts) × (0 < B.all) };
}
