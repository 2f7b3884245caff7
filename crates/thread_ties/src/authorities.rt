//! The authority, which knows the value of each number, and the fragment of a number, which knows its own.
ghost use Rattle.std.specs.Prelude.{◌≡◌, ◌<◌, [], length, slice_get};
ghost use Rattle.thread_ties.specs.Rules.{changed, shown_of, with_shown};
ghost use Rattle.thread_ties.specs.Seats.{IsAt, IsAuthority, IsFragment};

use crate::agreeing::agree_and_set;
use crate::closing::Closing;
use crate::views::{Bond, NewValue, ValueSeat, ValueTable};
use std::marker::{Brand, Model, PhantomData};

/// The side that knows all values. Contracts see these, from number 0 on.
#[derive(Drop)]
pub struct Authority<V, B: Bond<V>> {
    table: ValueTable<V>,
    seat: ValueSeat<V>,
    of: PhantomData<B>,
}

impl<V, B: Bond<V>> Model for Authority<V, B> {
    ghost use Rattle.std.specs.Prelude.{◌≡◌, List, []};
    ghost use Rattle.thread_ties.specs.Seats.{IsAt, IsAuthority};

    ghost Value = { List V };

    ghost view = { λ a. a.seat.me.0.values };

    ghost invariant = { λ a. IsAt a.table a.seat × (a.table.shared.table_id ≡ B.values_table) × (a.seat.me.1 ≡ []) × IsAuthority a.seat.me.0 };
}

/// The side of one number. Contracts see the number and its value, which is some. It has no bytes.
#[derive(Drop)]
pub struct Fragment<V, B: Bond<V>> {
    pub(crate) seat: ValueSeat<V>,
    pub(crate) of: PhantomData<B>,
}

impl<V, B: Bond<V>> Model for Fragment<V, B> {
    ghost use Rattle.std.specs.Prelude.{◌≡◌, []};
    ghost use Rattle.thread_ties.specs.Rules.{Shown, shown_of};
    ghost use Rattle.thread_ties.specs.Seats.{IsFragment};

    ghost Value = { Shown V };

    ghost view = { λ f. shown_of f.seat.me.0.pieces };

    ghost invariant = { λ f. (f.seat.table_id ≡ B.values_table) × (f.seat.me.1 ≡ []) × IsFragment f.seat.me.0 };
}

impl<V, B: Bond<V>> Fragment<V, B> {
    /// The fragment of a seat.
    pub(crate) fn of(seat: ValueSeat<V>) -> Fragment<V, B>
        requires { (seat.table_id ≡ B.values_table) × (seat.me.1 ≡ []) × IsFragment seat.me.0 }
        ensures { result ≡ shown_of seat.me.0.pieces }
    {
        Fragment {
            seat,
            of: PhantomData,
        }
    }
}

impl<V, B: Bond<V>> Authority<V, B> {
    pub(crate) fn of(table: ValueTable<V>, seat: ValueSeat<V>) -> Authority<V, B>
        requires table { IsAt table seat × (table.shared.table_id ≡ B.values_table) }
        requires seat { (seat.me.1 ≡ []) × IsAuthority seat.me.0 }
        ensures { result ≡ seat.me.0.values }
    {
        Authority {
            table,
            seat,
            of: PhantomData,
        }
    }

    /// Shows that both know the same value of the fragment's number. Four loads.
    pub fn agree(&mut self, fragment: &mut Fragment<V, B>)
        ensures authority { self.new ≡ self.old }
        ensures fragment { fragment.new ≡ fragment.old }
        ensures number { fragment.old.number < length self.old }
        ensures agreed { slice_get self.old fragment.old.number ≡ fragment.old.value }
    {
        agree_and_set::<V, Brand>(&self.table, &mut self.seat, &mut fragment.seat);
    }

    /// Gives the fragment's number the value that the call names, on both sides. Four loads. What the value is about may be given, so
    /// that the name can speak of it.
    pub fn change<E: NewValue<V>, W>(&mut self, fragment: &mut Fragment<V, B>, about: &W)
        ensures authority { self.new ≡ changed E.value fragment.old.number self.old }
        ensures fragment { fragment.new ≡ with_shown E.value fragment.old }
        ensures number { fragment.old.number < length self.old }
        ensures agreed { slice_get self.old fragment.old.number ≡ fragment.old.value }
    {
        let _ = about;
        agree_and_set::<V, E>(&self.table, &mut self.seat, &mut fragment.seat);
    }

    /// The authority, to which the fragments come back.
    pub fn closing(self) -> Closing<V, B>
        ensures { (result.values ≡ self) × (result.back ≡ []) }
    {
        let Authority { table, seat, of: _ } = self;
        Closing::of(table, seat)
    }
}
