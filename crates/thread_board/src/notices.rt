//! A note of a stop.
ghost use Rattle.std.specs.Prelude.{◌≡◌, [], true};
ghost use Rattle.thread_board.specs.declared.views.Role.TheVariants.{Note};
ghost use Rattle.thread_board.specs.Lines.{has_stop};

use crate::lines::{Line, Placed};
use crate::slates::Bench;
use crate::views::BoardSeat;
use std::marker::{Model, PhantomData};

/// What a cell keeps that a stop left with an open wish. Contracts see all lines of the store, the last of which is the stop.
#[derive(Drop)]
pub struct StopNote<C: Line, T: Placed, B: Bench> {
    pub(crate) seat: BoardSeat<C, T>,
    of: PhantomData<B>,
}

impl<C: Line, T: Placed, B: Bench> Model for StopNote<C, T, B> {
    ghost use Rattle.std.specs.Prelude.{◌≡◌, List, [], true};
    ghost use Rattle.thread_board.specs.declared.views.Role.TheVariants.{Note};
    ghost use Rattle.thread_board.specs.Lines.{has_stop};

    ghost Value = { List C };

    ghost view = { λ n. n.seat.me.0.commits };

    ghost invariant = { λ n. (n.seat.table_id ≡ B.slate) × (n.seat.me.1 ≡ []) × (n.seat.me.0.role ≡ Note) × (has_stop C.stops n.seat.me.0.commits ≡ true) };
}

impl<C: Line, T: Placed, B: Bench> StopNote<C, T, B> {
    pub(crate) fn of(seat: BoardSeat<C, T>) -> StopNote<C, T, B>
        requires { (seat.table_id ≡ B.slate) × (seat.me.1 ≡ []) × (seat.me.0.role ≡ Note) × (has_stop C.stops seat.me.0.commits ≡ true) }
        ensures { result ≡ seat.me.0.commits }
    {
        StopNote {
            seat,
            of: PhantomData,
        }
    }
}
