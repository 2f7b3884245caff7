//! How the shares come back, each once.
ghost use Rattle.std.specs.Prelude.{◌≡◌, ◌++◌, ◌∷◌, []};
ghost use Rattle.thread_history.specs.Rules.{AllDiffer};
ghost use Rattle.thread_history.specs.Seats.{IsAt};
ghost use Rattle.thread_history.specs.declared.views.Role.TheVariants.{Chronicler};

use crate::items::Item;
use crate::seats::{look, take_in};
use crate::shares::{Run, Share};
use crate::views::{HistorySeat, HistoryTable};
use std::marker::{Model, PhantomData};

/// An authority that takes its shares back. Contracts see the items after the kept ones, and the numbers of the shares that came back.
#[derive(Drop)]
pub struct ClosingAuthority<T: Item, B: Run<T>> {
    table: HistoryTable<T>,
    seat: HistorySeat<T>,
    of: PhantomData<B>,
}

impl<T: Item, B: Run<T>> Model for ClosingAuthority<T, B> {
    ghost use Rattle.std.specs.Prelude.{◌≡◌, []};
    ghost use Rattle.thread_history.specs.Sides.{Ending};
    ghost use Rattle.thread_history.specs.Seats.{IsAt};
    ghost use Rattle.thread_history.specs.declared.views.Role.TheVariants.{Chronicler};

    ghost Value = { Ending T };

    ghost view = { λ c. record { since = c.seat.me.0.since; back = c.seat.me.0.back } };

    ghost invariant = { λ c. IsAt c.table c.seat × (c.table.shared.table_id ≡ B.table) × (c.seat.me.1 ≡ []) × (c.seat.me.0.role ≡ Chronicler) };
}

impl<T: Item, B: Run<T>> ClosingAuthority<T, B> {
    pub(crate) fn of(table: HistoryTable<T>, seat: HistorySeat<T>) -> ClosingAuthority<T, B>
        requires table { IsAt table seat × (table.shared.table_id ≡ B.table) }
        requires seat { (seat.me.1 ≡ []) × (seat.me.0.role ≡ Chronicler) }
        ensures { result ≡ record { since = seat.me.0.since; back = seat.me.0.back } }
    {
        ClosingAuthority {
            table,
            seat,
            of: PhantomData,
        }
    }

    /// A share comes back. No share of its number came back before. Two steps at the table.
    pub fn take_back(&mut self, share: Share<T, B>)
        ensures ending { self.new ≡ record { since = self.old.since; back = share.number ∷ self.old.back } }
        ensures once { AllDiffer self.new.back }
    {
        let Share {
            number: _,
            seat,
            of: _,
        } = share;
        take_in(&self.table, &mut self.seat, seat);
        look(&self.table, &mut self.seat);
    }
}

/// A chronicle that takes its shares back. Contracts see the items after the kept ones, and the numbers of the shares that came back.
#[derive(Drop)]
pub struct Closing<T: Item, B: Run<T>> {
    history: Vec<T>,
    authority: ClosingAuthority<T, B>,
}

impl<T: Item, B: Run<T>> Model for Closing<T, B> {
    ghost use Rattle.std.specs.Prelude.{◌≡◌, ◌++◌};
    ghost use Rattle.thread_history.specs.Sides.{Ending};

    ghost Value = { Ending T };

    ghost view = { λ c. c.authority };

    ghost invariant = { λ c. c.history.items ≡ B.kept ++ c.authority.since };
}

impl<T: Item, B: Run<T>> Closing<T, B> {
    pub(crate) fn of(history: Vec<T>, authority: ClosingAuthority<T, B>) -> Closing<T, B>
        requires { history.items ≡ B.kept ++ authority.since }
        ensures { result ≡ authority }
    {
        Closing { history, authority }
    }

    /// A share comes back. No share of its number came back before. Two steps at the table.
    pub fn take_back(&mut self, share: Share<T, B>)
        ensures ending { self.new ≡ record { since = self.old.since; back = share.number ∷ self.old.back } }
        ensures once { AllDiffer self.new.back }
    {
        self.authority.take_back(share);
    }

    /// The whole history, the kept items included.
    pub fn into_history(self) -> Vec<T>
        ensures { result.items ≡ B.kept ++ self.since }
    {
        let Closing {
            history,
            authority: _,
        } = self;
        history
    }
}
