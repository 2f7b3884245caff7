//! A drawer and the store, which agree on the drawer's number.
ghost use Rattle.std.specs.Prelude.{◌≡◌, ◌≢◌, Some, slice_get, slice_set};

use std::marker::{Brand, Model};
use thread_ties::{Authority, Bond, Fragment};

/// A number at a place. Contracts see both.
#[derive(Drop)]
pub struct Drawer<B: Bond<u64>> {
    place: usize,
    number: u64,
    fragment: Fragment<u64, B>,
}

impl<B: Bond<u64>> Model for Drawer<B> {
    ghost use Rattle.std.specs.Prelude.{◌≡◌, Some};
    ghost use Rattle.thread_drawers.specs.Drawers.{Labelled};

    ghost Value = { Labelled };

    ghost view = { λ d. record { place = d.place; number = d.number } };

    ghost invariant = { λ d. (d.fragment.number ≡ d.place) × (d.fragment.value ≡ Some d.number) };
}

/// The numbers of all drawers. Contracts see them, by their places.
#[derive(Drop)]
pub struct Store<B: Bond<u64>> {
    values: Vec<u64>,
    authority: Authority<u64, B>,
}

impl<B: Bond<u64>> Model for Store<B> {
    ghost use Rattle.std.specs.Prelude.{◌≡◌, List, ℕ};

    ghost Value = { List ℕ };

    ghost view = { λ s. s.values.items };

    ghost invariant = { λ s. s.values.items ≡ s.authority };
}

impl<B: Bond<u64>> Drawer<B> {
    /// A drawer with what its fragment says.
    pub fn new(place: usize, number: u64, fragment: Fragment<u64, B>) -> Drawer<B>
        requires { (fragment.number ≡ place) × (fragment.value ≡ Some number) }
        ensures { result ≡ record { place = place; number = number } }
    {
        Drawer {
            place,
            number,
            fragment,
        }
    }

    /// Where it is.
    pub fn place(&self) -> usize
        ensures { result ≡ self.now.place }
    {
        self.place
    }

    /// The number in it.
    pub fn number(&self) -> u64
        ensures { result ≡ self.now.number }
    {
        self.number
    }

    /// Its fragment. What was in the drawer is told by it alone.
    fn into_fragment(self) -> Fragment<u64, B>
        ensures { result ≡ record { number = self.place; value = Some self.number } }
    {
        let Drawer {
            place: _,
            number: _,
            fragment,
        } = self;
        fragment
    }
}

impl<B: Bond<u64>> Store<B> {
    /// A store with the authority's values.
    pub fn new(values: Vec<u64>, authority: Authority<u64, B>) -> Store<B>
        requires { values.items ≡ authority }
        ensures { result ≡ values.items }
    {
        Store { values, authority }
    }

    /// Puts a number into the drawer, and finds there what the store has.
    pub fn move_into(&mut self, drawer: &mut Drawer<B>, number: u64) -> u64
        ensures found { result ≡ drawer.old.number }
        ensures agreed { slice_get self.old drawer.old.place ≡ Some drawer.old.number }
        ensures store { self.new ≡ slice_set self.old drawer.old.place number }
        ensures drawer { drawer.new ≡ record { place = drawer.old.place; number = number } }
    {
        self.authority
            .change::<Brand, u64>(&mut drawer.fragment, &number);
        let found = self.values[drawer.place];
        self.values[drawer.place] = number;
        drawer.number = number;
        found
    }

    /// Exchanges the numbers of two drawers.
    pub fn exchange(&mut self, one: &mut Drawer<B>, other: &mut Drawer<B>)
        ensures store { self.new ≡ slice_set (slice_set self.old one.old.place other.old.number) other.old.place one.old.number }
        ensures one { one.new ≡ record { place = one.old.place; number = other.old.number } }
        ensures other { other.new ≡ record { place = other.old.place; number = one.old.number } }
    {
        let (first, second) = (one.number, other.number);
        self.move_into(one, second);
        self.move_into(other, first);
    }

    /// Two drawers come back. They are two, and their numbers are the store's.
    pub fn close(self, one: Drawer<B>, other: Drawer<B>) -> Vec<u64>
        ensures values { result.items ≡ self }
        ensures two { one.place ≢ other.place }
        ensures one { slice_get self one.place ≡ Some one.number }
        ensures other { slice_get self other.place ≡ Some other.number }
    {
        let Store { values, authority } = self;
        let mut closing = authority.closing();
        closing.take_back(one.into_fragment());
        closing.take_back(other.into_fragment());
        values
    }
}
