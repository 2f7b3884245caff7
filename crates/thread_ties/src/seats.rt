//! The steps at the table, one function for each kind. Each is one load.
ghost use Rattle.std.specs.Prelude.{◌≡◌, true, []};
ghost use Rattle.thread_ties.specs.Rules.{AllHeld, begun_view, first_view, opening_view, rest_view, told_view, with_pieces};
ghost use Rattle.thread_ties.specs.Seats.{IsAt, IsFragment, MayGet};

use crate::views::{Begins, Bond, Hands, NewValue, Tells, ValueSeat, ValueTable};

/// Gives out the first fragment in the seat's hands.
pub(crate) fn hand_out<V>(table: &ValueTable<V>, seat: &mut ValueSeat<V>) -> ValueSeat<V>
    requires { IsAt table.now seat.old }
    ensures seat { (seat.new.table_id ≡ seat.old.table_id) × (seat.new.me ≡ (rest_view seat.old.me.0, seat.old.me.1)) }
    ensures piece { (result.table_id ≡ seat.old.table_id) × (result.me ≡ (first_view seat.old.me.0, [])) }
{
    table.shared.split_seat::<Hands>(seat)
}

/// Takes in a fragment.
pub(crate) fn take_in<V>(table: &ValueTable<V>, seat: &mut ValueSeat<V>, piece: ValueSeat<V>)
    requires seat { IsAt table.now seat.old }
    requires piece { (piece.table_id ≡ seat.old.table_id) × (piece.me.1 ≡ []) × IsFragment piece.me.0 }
    ensures { (seat.new.table_id ≡ seat.old.table_id) × (seat.new.me ≡ (with_pieces seat.old.me.0 piece.me.0, seat.old.me.1)) }
{
    table.shared.join_seat::<Hands>(seat, piece);
}

/// Shows that the fragments in the seat's hands have its values, and gives the only one another value.
pub(crate) fn tell<V, E: NewValue<V>>(table: &ValueTable<V>, seat: &mut ValueSeat<V>)
    requires seat { IsAt table.now seat.old }
    requires authority { seat.old.me.0.leads ≡ true }
    requires value { MayGet E.value seat.old.me.0 }
    ensures seat { (seat.new.table_id ≡ seat.old.table_id) × (seat.new.me ≡ (told_view E.value seat.old.me.0, seat.old.me.1)) }
    ensures held { AllHeld seat.old.me.0.values seat.old.me.0.pieces }
{
    table.shared.load::<Tells<E>>(seat, 0);
}

/// The first values, where there are none yet.
pub(crate) fn begin<V, B: Bond<V>>(table: &ValueTable<V>, seat: &mut ValueSeat<V>)
    requires seat { IsAt table.now seat.old }
    requires new { seat.old.me.0 ≡ opening_view }
    ensures { (seat.new.table_id ≡ seat.old.table_id) × (seat.new.me ≡ (begun_view B.first_values, seat.old.me.1)) }
{
    table.shared.load::<Begins<B>>(seat, 0);
}
