//! How the fragments come back, each once.
ghost use Rattle.std.specs.Prelude.{◌≡◌, ◌∷◌, [], map, true};
ghost use Rattle.thread_history.specs.Rules.{AllDiffer};
ghost use Rattle.thread_ties.specs.Rules.{shown};
ghost use Rattle.thread_ties.specs.Seats.{IsAt};
ghost use Rattle.thread_ties.specs.Sides.{AllAgree, AllWithin, numbers_of};

use crate::authorities::Fragment;
use crate::seats::{take_in, tell};
use crate::views::{Bond, ValueSeat, ValueTable};
use std::marker::{Brand, Model, PhantomData};

/// An authority that takes its fragments back. Contracts see the values, and the fragments that came back.
#[derive(Drop)]
pub struct Closing<V, B: Bond<V>> {
    table: ValueTable<V>,
    seat: ValueSeat<V>,
    of: PhantomData<B>,
}

impl<V, B: Bond<V>> Model for Closing<V, B> {
    ghost use Rattle.std.specs.Prelude.{◌≡◌, [], map, true};
    ghost use Rattle.thread_ties.specs.Rules.{shown};
    ghost use Rattle.thread_ties.specs.Seats.{IsAt};
    ghost use Rattle.thread_ties.specs.Sides.{Ending};

    ghost Value = { Ending V };

    ghost view = { λ c. record { values = c.seat.me.0.values; back = map shown c.seat.me.0.pieces } };

    ghost invariant = { λ c. IsAt c.table c.seat × (c.table.shared.table_id ≡ B.values_table) × (c.seat.me.1 ≡ []) × (c.seat.me.0.leads ≡ true) };
}

impl<V, B: Bond<V>> Closing<V, B> {
    pub(crate) fn of(table: ValueTable<V>, seat: ValueSeat<V>) -> Closing<V, B>
        requires table { IsAt table seat × (table.shared.table_id ≡ B.values_table) }
        requires seat { (seat.me.1 ≡ []) × (seat.me.0.leads ≡ true) }
        ensures { result ≡ record { values = seat.me.0.values; back = map shown seat.me.0.pieces } }
    {
        Closing {
            table,
            seat,
            of: PhantomData,
        }
    }

    /// A fragment comes back. No fragment of its number came back before, and each has its number's value. Two loads.
    pub fn take_back(&mut self, fragment: Fragment<V, B>)
        ensures ending { self.new ≡ record { values = self.old.values; back = fragment ∷ self.old.back } }
        ensures once { AllDiffer (numbers_of self.new.back) }
        ensures within { AllWithin self.new.values self.new.back }
        ensures agreed { AllAgree self.new.values self.new.back }
    {
        let Fragment { seat, of: _ } = fragment;
        take_in(&self.table, &mut self.seat, seat);
        tell::<V, Brand>(&self.table, &mut self.seat);
    }
}
