//! A run's name, and each entity's side of its history.
ghost use Rattle.std.specs.Prelude.{◌≡◌, []};
ghost use Rattle.thread_history.specs.Seats.{IsShareOf};

use crate::items::Item;
use crate::views::HistorySeat;
use std::marker::{Brand, Model, PhantomData};

/// Names a run: its history's table, and the items that were kept before it. Each call of a program picks it.
pub trait Run<T> {
    ghost use Rattle.std.specs.Prelude.{List};
    ghost use Rattle.atomic_table.specs.Seated.{TableId};

    ghost table: { TableId };

    ghost kept: { List T };
}

impl<T> Run<T> for Brand {
    ghost use Rattle.std.specs.Prelude.{[]};
    ghost use Rattle.thread_history.specs.Sides.{no_table};

    ghost table = { no_table };

    ghost kept = { [] };
}

/// An entity's side of the history. Contracts see its number and the items after the kept ones that it knows. Its list is those of
/// them that concern it.
#[derive(Drop)]
pub struct Share<T: Item, B: Run<T>> {
    pub(crate) number: u64,
    pub(crate) seat: HistorySeat<T>,
    pub(crate) of: PhantomData<B>,
}

impl<T: Item, B: Run<T>> Model for Share<T, B> {
    ghost use Rattle.std.specs.Prelude.{◌≡◌, []};
    ghost use Rattle.thread_history.specs.Sides.{Side};
    ghost use Rattle.thread_history.specs.Seats.{IsShareOf};

    ghost Value = { Side T };

    ghost view = { λ s. record { number = s.number; since = s.seat.me.0.since } };

    ghost invariant = { λ s. (s.seat.table_id ≡ B.table) × (s.seat.me.1 ≡ []) × IsShareOf T.concerns s.number s.seat.me.0 };
}

impl<T: Item, B: Run<T>> Share<T, B> {
    /// A share of that number, from its seat.
    pub(crate) fn of(number: u64, seat: HistorySeat<T>) -> Share<T, B>
        requires { (seat.table_id ≡ B.table) × (seat.me.1 ≡ []) × IsShareOf T.concerns number seat.me.0 }
        ensures { result ≡ record { number = number; since = seat.me.0.since } }
    {
        Share {
            number,
            seat,
            of: PhantomData,
        }
    }

    /// The number of the entity whose share it is.
    pub fn number(&self) -> u64
        ensures { result ≡ self.now.number }
    {
        self.number
    }
}
