//! What a seat at the chronicle's table knows, and what each step at the table tells.
use crate::items::Item;
use atomic_table::{Join, Play, Seat, Split, Table, TableRule};
use std::alloc::Global;
use std::collections::LinkedList;
use std::marker::{Brand, PhantomData};
use std::snapshot::Snapshot;

/// Whose view it is.
pub enum Role {
    Chronicler,
    /// The share of that number.
    Share(u64),
    /// A note of the chronicle's.
    Note,
    /// A note of the share of that number.
    NoteOf(u64),
    Spent,
}

/// What a seat knows. No value of it is made.
pub struct View<T> {
    pub role: Role,
    /// The known items after the kept ones.
    pub since: LinkedList<T>,
    /// The items that a share announced.
    pub list: LinkedList<T>,
    /// What the chronicle was told of each number.
    pub told: LinkedList<LinkedList<T>>,
    /// The known history of the note that was taken in last.
    pub shown: LinkedList<T>,
    /// The numbers of the shares that came back to the chronicle for good.
    pub back: LinkedList<u64>,
    /// The right to draw the next number, which is `shares`.
    pub enrols: bool,
    pub shares: u64,
}

/// The rule over the length of the history, the number of announcements and the number of shares. The key is the kept items.
pub struct Kept;

impl<T: Item> TableRule<(), View<T>, Snapshot<Vec<T>>> for Kept {
    ghost use Rattle.thread_history.specs.Rules.{IsKept, opening_view};

    ghost holds = { λ key s. IsKept T.concerns key.value.items s };

    ghost first = { λ key. opening_view };
}

pub type HistoryTable<T> = Table<(), View<T>, Snapshot<Vec<T>>, Kept, Global>;

pub type HistorySeat<T> = Seat<(), View<T>>;

/// A note, and how it is taken in.
pub struct Notes;

impl<T> Split<View<T>> for Notes {
    ghost use Rattle.thread_history.specs.Rules.{note_left, note_right};

    ghost left = { note_left };

    ghost right = { note_right };
}

impl<T> Join<View<T>> for Notes {
    ghost use Rattle.thread_history.specs.Rules.{with_note, spent_view};

    ghost both = { with_note };

    ghost spent = { spent_view };
}

/// A load, which changes nothing.
pub struct Looks;

impl<T: Item> Play<(), View<T>> for Looks {
    ghost use Rattle.thread_history.specs.Rules.{Looked};

    ghost then = { Looked T.concerns };
}

/// A note becomes the share of the number that it draws.
pub struct Enrols;

impl<T> Play<(), View<T>> for Enrols {
    ghost use Rattle.thread_history.specs.Rules.{Enrolled};

    ghost then = { Enrolled };
}

/// Names the item that comes next. Each call picks it.
pub trait Next<T> {
    ghost use Rattle.std.specs.Prelude.{Option};

    ghost item: { Option T };
}

impl<T> Next<T> for Brand {
    ghost use Rattle.std.specs.Prelude.{None};

    ghost item = { None };
}

/// A share announces the item.
pub struct Announces<E> {
    of: PhantomData<E>,
}

impl<T, E: Next<T>> Play<(), View<T>> for Announces<E> {
    ghost use Rattle.thread_history.specs.Rules.{Announced};

    ghost then = { Announced E.item };
}

/// The chronicle appends the item.
pub struct Appends<E> {
    of: PhantomData<E>,
}

impl<T, E: Next<T>> Play<(), View<T>> for Appends<E> {
    ghost use Rattle.thread_history.specs.Rules.{Appended};

    ghost then = { Appended E.item };
}
