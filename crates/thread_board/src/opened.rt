//! How a board's table is made: first the table, and then, under the board's name, its two sides.
ghost use Rattle.std.specs.Prelude.{◌≡◌, [], IfSome};
ghost use Rattle.thread_board.specs.Rules.{first_view};
ghost use Rattle.thread_history.specs.Seats.{IsAt};

use crate::lines::{Line, Placed};
use crate::seats::{cut_note, draw};
use crate::slates::{Bench, Slate};
use crate::slips::Slip;
use crate::tills::Till;
use crate::views::{BoardSeat, BoardTable};
use std::alloc::{AllocError, Global};
use std::marker::{Model, PhantomData};
use std::sync::ledger::Blank;

/// A table that has no name yet. Contracts see the names of its words and of its ledger.
#[derive(Drop)]
pub struct Opened<C: Line, T: Placed> {
    table: BoardTable<C, T>,
    seat: BoardSeat<C, T>,
    blank: Blank,
}

impl<C: Line, T: Placed> Model for Opened<C, T> {
    ghost use Rattle.std.specs.Prelude.{◌≡◌, []};
    ghost use Rattle.thread_board.specs.Rules.{first_view};
    ghost use Rattle.thread_board.specs.Sides.{Opening};
    ghost use Rattle.thread_history.specs.Seats.{IsAt};

    ghost Value = { Opening };

    ghost view = { λ o. record { slate = o.table.shared.table_id; ledger = o.blank.name } };

    ghost invariant = { λ o. IsAt o.table o.seat × (o.seat.me ≡ (first_view, [])) × (o.blank.parts ≡ 1) };
}

impl<C: Line, T: Placed> Opened<C, T> {
    /// A table with no commit, no pass and no item.
    pub fn new(alloc: Global) -> Result<Opened<C, T>, AllocError> {
        let (table, seat) = BoardTable::of_words(alloc, &[0, 0, 0], &())?;
        Ok(Opened {
            table,
            seat,
            blank: Blank::new(1),
        })
    }

    /// The table under the board's name, with the side that stands beside a store and the one that stands beside a chronicle. They draw
    /// the first two numbers: None where another drew them before, which cannot be while nobody else has a seat.
    pub fn named<B: Bench>(self) -> Option<(Slate<C, T, B>, Till<C, T, B>, Slip<C, T, B>)>
        requires name { (self.slate ≡ B.slate) × (self.ledger ≡ B.name) }
        requires whole { (B.all ≡ 1) × (B.parts ≡ 1) }
        ensures { IfSome result (λ r. (r.1 ≡ []) × (r.2 ≡ record { items = []; commits = []; back = [] })) }
    {
        let Opened {
            table,
            mut seat,
            blank,
        } = self;
        let (book, mark) = blank.open::<B>();
        let mut other = cut_note(&table, &mut seat);
        if draw(&table, &mut seat, 0) != 0 || draw(&table, &mut other, 1) != 1 {
            return None;
        }
        let till = Till {
            stopped: false,
            seat,
            mark,
            of: PhantomData,
        };
        let slip = Slip {
            stopped: false,
            seat: other,
            book,
            of: PhantomData,
        };
        Some((
            Slate {
                table,
                of: PhantomData,
            },
            till,
            slip,
        ))
    }
}
