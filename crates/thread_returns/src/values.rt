// Values that come back with their fragments.
ghost use Rattle.std.specs.Prelude.{◌≡◌, ◌≤◌, ◌∷◌, [], Some, length, vec_capacity, vec_len};

use std::marker::Model;
use thread_ties::{Bond, Closing, Fragment};

/// Values that come back with their fragments, in any order, each of which is put at its number. Contracts see the values that the authority
/// knows, and the fragments that came back.
#[derive(Drop)]
pub struct Returning<V, B: Bond<V>> {
    closing: Closing<V, B>,
    places: Vec<Option<V>>,
}

impl<V, B: Bond<V>> Model for Returning<V, B> {
    ghost use Rattle.std.specs.Prelude.{◌≡◌, length, vec_len};
    ghost use Rattle.thread_ties.specs.Sides.{Ending};
    ghost use Rattle.thread_returns.specs.Values.{AreBack};

    ghost Value = { Ending V };

    ghost view = { λ r. r.closing };

    ghost invariant = { λ r. (vec_len r.places ≡ length r.closing.values) × AreBack r.closing r.places.items };
}

impl<V: Drop, B: Bond<V>> Returning<V, B> {
    /// None came back yet, and there is a place for each.
    pub fn of(closing: Closing<V, B>, places: Vec<Option<V>>) -> Returning<V, B>
        requires none { closing.back ≡ [] }
        requires places { vec_len places ≡ length closing.values }
        ensures { result ≡ closing }
    {
        Returning { closing, places }
    }

    /// A value comes back with its fragment, which is of this number. Two steps at the table.
    pub fn take_back(&mut self, number: usize, value: V, fragment: Fragment<V, B>)
        requires number { fragment.number ≡ number }
        requires value { fragment.value ≡ Some value }
        ensures { self.new ≡ record { values = self.old.values; back = fragment ∷ self.old.back } }
    {
        self.closing.take_back(fragment);
        self.places[number] = Some(value);
    }

    /// All values in the order of their numbers, where as many came back as there are. They are put into the room that is given.
    pub fn into_values(self, room: Vec<V>) -> Vec<V>
        requires all { length self.values ≤ length self.back }
        requires room { (room.items ≡ []) × (length self.values ≤ vec_capacity room) }
        ensures { result.items ≡ self.values }
    {
        let Returning {
            closing: _,
            mut places,
        } = self;
        let mut values = room;
        for number in 0..places.len() {
            let Some(value) = places[number].take() else {
                unreachable!();
            };
            values.push_reserved(value);
        }
        values
    }
}
