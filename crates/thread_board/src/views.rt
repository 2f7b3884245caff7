//! What a seat at the board's table knows, and what each step at the table tells.
use crate::lines::Line;
use atomic_table::{Join, Play, Seat, Split, Table, TableRule};
use std::alloc::Global;
use std::collections::LinkedList;
use std::marker::PhantomData;
use thread_history::views::Next;

/// Whose view it is.
pub enum Role {
    /// A seat that drew no number.
    Note,
    /// The seat that writes commits.
    Commits,
    /// The seat that writes items.
    Items,
    /// The pass of that number.
    Pass(u64),
}

/// An item, and the number of its pass.
#[derive(Clone, Copy, PartialEq, Eq, Debug)]
pub struct PassItem<T> {
    pub pass: u64,
    pub item: T,
}

/// What a seat knows. No value of it is made.
pub struct View<C, T> {
    pub role: Role,
    /// The known lines of the store since the table was made: commits, and at the end perhaps a stop.
    pub commits: LinkedList<C>,
    /// The known items of all passes.
    pub items: LinkedList<PassItem<T>>,
    /// The lines that the note knew which was taken in last.
    pub shown_commits: LinkedList<C>,
    /// The items that it knew.
    pub shown_items: LinkedList<PassItem<T>>,
    /// The numbers of the passes that came back to the seat that writes items.
    pub back: LinkedList<u64>,
}

/// The rule over the numbers of commits, of passes and of items.
pub struct Noted;

impl<C: Line, T> TableRule<(), View<C, T>, ()> for Noted {
    ghost use Rattle.thread_board.specs.Rules.{IsNoted, first_view};

    ghost holds = { λ key s. IsNoted C.stops s };

    ghost first = { λ key. first_view };
}

pub type BoardTable<C, T> = Table<(), View<C, T>, (), Noted, Global>;

pub type BoardSeat<C, T> = Seat<(), View<C, T>>;

/// A note, and how it is taken in.
pub struct Notes;

impl<C, T> Split<View<C, T>> for Notes {
    ghost use Rattle.thread_board.specs.Rules.{note_of};

    ghost left = { λ v. v };

    ghost right = { note_of };
}

impl<C, T> Join<View<C, T>> for Notes {
    ghost use Rattle.thread_board.specs.Rules.{first_view, with_note};

    ghost both = { with_note };

    ghost spent = { first_view };
}

/// A load, which changes nothing.
pub struct Looks;

impl<C: Line, T> Play<(), View<C, T>> for Looks {
    ghost use Rattle.thread_board.specs.Rules.{Looked};

    ghost then = { Looked C.stops };
}

/// A seat draws the number that it looks for, or finds another.
pub struct Draws;

impl<C, T> Play<(), View<C, T>> for Draws {
    ghost use Rattle.thread_board.specs.Rules.{Drawn};

    ghost then = { Drawn };
}

/// The store's side adds the line.
pub struct Commits<E> {
    of: PhantomData<E>,
}

impl<C, T, E: Next<C>> Play<(), View<C, T>> for Commits<E> {
    ghost use Rattle.thread_board.specs.Rules.{Committed};

    ghost then = { Committed E.item };
}

/// The chronicle's side adds the item.
pub struct AddsItem<E> {
    of: PhantomData<E>,
}

impl<C, T, E: Next<PassItem<T>>> Play<(), View<C, T>> for AddsItem<E> {
    ghost use Rattle.thread_board.specs.Rules.{ItemNoted};

    ghost then = { ItemNoted E.item };
}
