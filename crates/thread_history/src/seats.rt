//! The steps at the table, one function for each kind.
ghost use Rattle.std.specs.Prelude.{◌≡◌, ◌+◌, ◌<◌, ◌^◌, ℕ, true, [], length, Some};
ghost use Rattle.thread_history.specs.declared.views.Role.TheVariants.{Chronicler, Share, Note};
ghost use Rattle.thread_history.specs.Rules.{IsTaken, Shows, announced_view, appended_view, note_left, note_right, share_view, with_note};
ghost use Rattle.thread_history.specs.Seats.{IsAt, IsToldNext};

use crate::items::Item;
use crate::views::{Announces, Appends, Enrols, HistorySeat, HistoryTable, Looks, Next, Notes};

/// Cuts a note off a seat.
pub(crate) fn cut_note<T: Item>(
    table: &HistoryTable<T>,
    seat: &mut HistorySeat<T>,
) -> HistorySeat<T>
    requires { IsAt table.now seat.old }
    ensures seat { (seat.new.table_id ≡ seat.old.table_id) × (seat.new.me ≡ (note_left seat.old.me.0, seat.old.me.1)) }
    ensures note { (result.table_id ≡ seat.old.table_id) × (result.me ≡ (note_right seat.old.me.0, [])) }
    ensures taken { IsTaken result.me.0.role }
{
    table.shared.split_seat::<Notes>(seat)
}

/// Takes in a note, or a share for good.
pub(crate) fn take_in<T: Item>(
    table: &HistoryTable<T>,
    seat: &mut HistorySeat<T>,
    note: HistorySeat<T>,
)
    requires seat { IsAt table.now seat.old }
    requires note { (note.table_id ≡ seat.old.table_id) × (note.me.1 ≡ []) }
    requires taken { IsTaken note.me.0.role }
    ensures { (seat.new.table_id ≡ seat.old.table_id) × (seat.new.me ≡ (with_note seat.old.me.0 note.me.0, seat.old.me.1)) }
{
    table.shared.join_seat::<Notes>(seat, note);
}

/// Shows what the rule says of a view.
pub(crate) fn look<T: Item>(table: &HistoryTable<T>, seat: &mut HistorySeat<T>)
    requires { IsAt table.now seat.old }
    ensures { (seat.new.table_id ≡ seat.old.table_id) × (seat.new.me ≡ seat.old.me) × Shows T.concerns seat.old.me.0 seat.old.me.0.role }
{
    table.shared.load::<Looks>(seat, 0);
}

/// Makes a note the share of the number that it draws.
pub(crate) fn enrol<T: Item>(table: &HistoryTable<T>, seat: &mut HistorySeat<T>) -> u64
    requires seat { IsAt table.now seat.old }
    requires note { seat.old.me.0.role ≡ Note }
    requires right { (seat.old.me.0.enrols ≡ true) × (seat.old.me.0.shares < 2 ^ 62) }
    ensures { (seat.new.table_id ≡ seat.old.table_id) × (seat.new.me ≡ (share_view result seat.old.me.0, seat.old.me.1)) × (result ≡ seat.old.me.0.shares) }
{
    table.shared.fetch_add::<Enrols>(seat, 2, 1)
}

/// A share announces the item.
pub(crate) fn announce<T: Item, E: Next<T>>(
    table: &HistoryTable<T>,
    seat: &mut HistorySeat<T>,
    item: &T,
)
    requires seat { IsAt table.now seat.old }
    requires share { (x : ℕ) × (seat.old.me.0.role ≡ Share x) }
    requires item { E.item ≡ Some item.now }
    ensures { (seat.new.table_id ≡ seat.old.table_id) × (seat.new.me ≡ (announced_view item.now seat.old.me.0, seat.old.me.1)) }
{
    let _ = item;
    table.shared.fetch_add::<Announces<E>>(seat, 1, 1);
}

/// The chronicle appends the item.
pub(crate) fn append<T: Item, E: Next<T>>(
    table: &HistoryTable<T>,
    seat: &mut HistorySeat<T>,
    item: &T,
)
    requires seat { IsAt table.now seat.old }
    requires chronicler { seat.old.me.0.role ≡ Chronicler }
    requires room { length table.now.shared.key.value.items + length seat.old.me.0.since < 2 ^ 62 }
    requires item { E.item ≡ Some item.now }
    requires told { IsToldNext T.concerns item.now seat.old.me.0 }
    ensures { (seat.new.table_id ≡ seat.old.table_id) × (seat.new.me ≡ (appended_view item.now seat.old.me.0, seat.old.me.1)) }
{
    let _ = item;
    table.shared.fetch_add::<Appends<E>>(seat, 0, 1);
}
