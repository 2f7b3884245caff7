//! What a seat at the table knows, and what each step at the table tells.
use atomic_table::{Join, Play, Seat, Split, Table, TableRule};
use std::alloc::Global;
use std::collections::LinkedList;
use std::marker::{Brand, PhantomData};

/// The fragment of a number, in a seat's hands.
pub struct Piece<V> {
    pub number: u64,
    pub value: V,
}

/// What a seat knows. No value of it is made.
pub struct View<V> {
    /// Whether it is the authority's.
    pub leads: bool,
    /// The values of all numbers, where it is.
    pub values: LinkedList<V>,
    /// The fragments in the seat's hands.
    pub pieces: LinkedList<Piece<V>>,
}

/// The rule. It says nothing of the word.
pub struct Tied;

impl<V> TableRule<(), View<V>, ()> for Tied {
    ghost use Rattle.thread_ties.specs.Rules.{IsTied, opening_view};

    ghost holds = { λ key s. IsTied s };

    ghost first = { λ key. opening_view };
}

pub type ValueTable<V> = Table<(), View<V>, (), Tied, Global>;

pub type ValueSeat<V> = Seat<(), View<V>>;

/// How a fragment changes hands.
pub struct Hands;

impl<V> Split<View<V>> for Hands {
    ghost use Rattle.thread_ties.specs.Rules.{first_view, rest_view};

    ghost left = { rest_view };

    ghost right = { first_view };
}

impl<V> Join<View<V>> for Hands {
    ghost use Rattle.thread_ties.specs.Rules.{no_view, with_pieces};

    ghost both = { with_pieces };

    ghost spent = { no_view };
}

/// Names the value that a number gets. Each call picks it; with `None` the number keeps its own.
pub trait NewValue<V> {
    ghost use Rattle.std.specs.Prelude.{Option};

    ghost value: { Option V };
}

impl<V> NewValue<V> for Brand {
    ghost use Rattle.std.specs.Prelude.{None};

    ghost value = { None };
}

/// The authority finds the fragments in its hands to have its values, and gives the first a new value.
pub struct Tells<E> {
    of: PhantomData<E>,
}

impl<V, E: NewValue<V>> Play<(), View<V>> for Tells<E> {
    ghost use Rattle.thread_ties.specs.Rules.{Told};

    ghost then = { Told E.value };
}

/// Names one set of values, by its table, and the first values, from number 0 on. Each call of a program picks it.
pub trait Bond<V> {
    ghost use Rattle.std.specs.Prelude.{List};
    ghost use Rattle.atomic_table.specs.Seated.{TableId};

    ghost values_table: { TableId };

    ghost first_values: { List V };
}

impl<V> Bond<V> for Brand {
    ghost use Rattle.std.specs.Prelude.{[]};
    ghost use Rattle.thread_history.specs.Sides.{no_table};

    ghost values_table = { no_table };

    ghost first_values = { [] };
}

/// The authority has the first values, with all fragments in its hands.
pub struct Begins<B> {
    of: PhantomData<B>,
}

impl<V, B: Bond<V>> Play<(), View<V>> for Begins<B> {
    ghost use Rattle.thread_ties.specs.Rules.{Begun};

    ghost then = { Begun B.first_values };
}
