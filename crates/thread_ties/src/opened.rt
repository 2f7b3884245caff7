//! How an authority is made: first its table, and then, under its name, the authority and its fragments.
ghost use Rattle.std.specs.Prelude.{◌≡◌, IfOk, length};
ghost use Rattle.thread_ties.specs.Rules.{opening_view};
ghost use Rattle.thread_ties.specs.Seats.{IsAt};
ghost use Rattle.thread_ties.specs.Sides.{fragments_of};

use crate::authorities::{Authority, Fragment};
use crate::seats::{begin, hand_out};
use crate::views::{Bond, ValueSeat, ValueTable};
use std::alloc::{AllocError, Global};
use std::marker::Model;

/// A table that has no name yet. Contracts see that name.
#[derive(Drop)]
pub struct Opened<V> {
    table: ValueTable<V>,
    seat: ValueSeat<V>,
}

impl<V> Model for Opened<V> {
    ghost use Rattle.std.specs.Prelude.{◌≡◌, []};
    ghost use Rattle.thread_ties.specs.Rules.{opening_view};
    ghost use Rattle.thread_ties.specs.Seats.{IsAt};
    ghost use Rattle.thread_ties.specs.Sides.{Opening};

    ghost Value = { Opening };

    ghost view = { λ o. record { table = o.table.shared.table_id } };

    ghost invariant = { λ o. IsAt o.table o.seat × (o.seat.me ≡ (opening_view, [])) };
}

impl<V> Opened<V> {
    /// A table without values. Its one word is never written.
    pub fn new(alloc: Global) -> Result<Opened<V>, AllocError> {
        let (table, seat) = ValueTable::of_words(alloc, &[0], &())?;
        Ok(Opened { table, seat })
    }

    /// The authority under its name, which has the first values, with the fragment of each number, in the order of their numbers. It is
    /// told how many there are.
    pub fn named<B: Bond<V>>(
        self,
        alloc: Global,
        count: usize,
    ) -> Result<(Authority<V, B>, Vec<Fragment<V, B>>), AllocError>
        requires name { self.table ≡ B.values_table }
        requires values { length B.first_values ≡ count }
        ensures authority { IfOk result (λ r. r.0 ≡ B.first_values) }
        ensures fragments { IfOk result (λ r. r.1.items ≡ fragments_of B.first_values) }
    {
        let Opened { table, mut seat } = self;
        let mut fragments = Vec::with_capacity(alloc, count)?;
        begin::<V, B>(&table, &mut seat);
        for _ in 0..count {
            fragments.push_reserved(Fragment::of(hand_out(&table, &mut seat)));
        }
        Ok((Authority::of(table, seat), fragments))
    }
}
