//! The steps at the table, one function for each kind.
ghost use Rattle.std.specs.Prelude.{◌≡◌, ◌<◌, ◌==◌, ◌^◌, [], false, length, MatchBool, Some};
ghost use Rattle.thread_board.specs.Lines.{has_stop};
ghost use Rattle.thread_board.specs.declared.views.Role.TheVariants.{Commits, Items, Note};
ghost use Rattle.thread_board.specs.Rules.{IsTaken, Shows, drew, note_of, with_item, with_line, with_note};
ghost use Rattle.thread_history.specs.Seats.{IsAt};

use crate::lines::Line;
use crate::views::{
    AddsItem, BoardSeat, BoardTable, Commits as Adds, Draws, Looks, Notes, PassItem,
};
use thread_history::views::Next;

/// The word of commits.
pub(crate) const COMMITS: usize = 0;

/// The word of numbers drawn.
pub(crate) const PASSES: usize = 1;

/// The word of items.
pub(crate) const ITEMS: usize = 2;

/// Cuts a note off a seat.
pub(crate) fn cut_note<C: Line, T>(
    table: &BoardTable<C, T>,
    seat: &mut BoardSeat<C, T>,
) -> BoardSeat<C, T>
    requires { IsAt table.now seat.old }
    ensures seat { (seat.new.table_id ≡ seat.old.table_id) × (seat.new.me ≡ seat.old.me) }
    ensures note { (result.table_id ≡ seat.old.table_id) × (result.me ≡ (note_of seat.old.me.0, [])) }
{
    table.shared.split_seat::<Notes>(seat)
}

/// Takes in a note, or a pass for good.
pub(crate) fn take_in<C: Line, T>(
    table: &BoardTable<C, T>,
    seat: &mut BoardSeat<C, T>,
    note: BoardSeat<C, T>,
)
    requires seat { IsAt table.now seat.old }
    requires note { (note.table_id ≡ seat.old.table_id) × (note.me.1 ≡ []) }
    requires taken { IsTaken note.me.0.role }
    ensures { (seat.new.table_id ≡ seat.old.table_id) × (seat.new.me ≡ (with_note seat.old.me.0 note.me.0, seat.old.me.1)) }
{
    table.shared.join_seat::<Notes>(seat, note);
}

/// Shows what the rule says of a view, by a look at that word.
pub(crate) fn look<C: Line, T>(
    table: &BoardTable<C, T>,
    seat: &mut BoardSeat<C, T>,
    word: usize,
) -> u64
    requires seat { IsAt table.now seat.old }
    requires word { word < 3 }
    ensures { (seat.new.table_id ≡ seat.old.table_id) × (seat.new.me ≡ seat.old.me) × Shows C.stops word result seat.old.me.0 seat.old.me.0.role }
{
    table.shared.load::<Looks>(seat, word)
}

/// Draws the number where it is the next one. Answers the next one.
pub(crate) fn draw<C: Line, T>(
    table: &BoardTable<C, T>,
    seat: &mut BoardSeat<C, T>,
    number: u64,
) -> u64
    requires seat { IsAt table.now seat.old }
    requires note { seat.old.me.0.role ≡ Note }
    requires few { number < 2 ^ 62 }
    ensures seat { seat.new.table_id ≡ seat.old.table_id }
    ensures drawn { MatchBool (result == number) (seat.new.me ≡ (drew result seat.old.me.0, seat.old.me.1)) (seat.new.me ≡ seat.old.me) }
{
    table
        .shared
        .compare_exchange::<Draws>(seat, PASSES, number, number + 1)
}

/// The store's side adds a line, where no stop was noted.
pub(crate) fn commit<C: Line, T, E: Next<C>>(
    table: &BoardTable<C, T>,
    seat: &mut BoardSeat<C, T>,
    line: &C,
)
    requires seat { IsAt table.now seat.old }
    requires writer { seat.old.me.0.role ≡ Commits }
    requires goes_on { has_stop C.stops seat.old.me.0.commits ≡ false }
    requires few { length seat.old.me.0.commits < 2 ^ 62 }
    requires line { E.item ≡ Some line.now }
    ensures { (seat.new.table_id ≡ seat.old.table_id) × (seat.new.me ≡ (with_line line.now seat.old.me.0, seat.old.me.1)) }
{
    let _ = line;
    table.shared.fetch_add::<Adds<E>>(seat, COMMITS, 1);
}

/// The chronicle's side adds an item.
pub(crate) fn add_item<C: Line, T, E: Next<PassItem<T>>>(
    table: &BoardTable<C, T>,
    seat: &mut BoardSeat<C, T>,
    item: &PassItem<T>,
)
    requires seat { IsAt table.now seat.old }
    requires writer { seat.old.me.0.role ≡ Items }
    requires few { length seat.old.me.0.items < 2 ^ 62 }
    requires item { E.item ≡ Some item.now }
    ensures { (seat.new.table_id ≡ seat.old.table_id) × (seat.new.me ≡ (with_item item.now seat.old.me.0, seat.old.me.1)) }
{
    let _ = item;
    table.shared.fetch_add::<AddsItem<E>>(seat, ITEMS, 1);
}
