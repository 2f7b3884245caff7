//! Two drawers and the store, each under its lock, for threads to share.
ghost use Rattle.std.specs.Prelude.{◌≡◌, Some, slice_get};

use crate::drawers::{Drawer, Store};
use std::sync::{Mutex, Wait};
use thread_ties::Bond;

/// Two drawers and the store. Take a drawer's lock before the store's.
#[derive(Drop)]
pub struct Cabinet<B: Bond<u64>> {
    one: Mutex<Drawer<B>>,
    other: Mutex<Drawer<B>>,
    store: Mutex<Store<B>>,
}

impl<B: Bond<u64>> Cabinet<B> {
    /// The three behind locks.
    pub fn new(one: Drawer<B>, other: Drawer<B>, store: Store<B>) -> Cabinet<B> {
        Cabinet {
            one: Mutex::new(one),
            other: Mutex::new(other),
            store: Mutex::new(store),
        }
    }

    /// Puts a number into one drawer, and answers what was in it.
    pub fn put_into_one<R: Wait>(&self, rt: &R, number: u64) -> u64 {
        let mut drawer = self.one.lock(rt);
        let mut store = self.store.lock(rt);
        store.move_into(&mut drawer, number)
    }

    /// Puts a number into the other, and answers what was in it.
    pub fn put_into_other<R: Wait>(&self, rt: &R, number: u64) -> u64 {
        let mut drawer = self.other.lock(rt);
        let mut store = self.store.lock(rt);
        store.move_into(&mut drawer, number)
    }

    /// The numbers in both drawers, at two times.
    pub fn numbers<R: Wait>(&self, rt: &R) -> (u64, u64) {
        (self.one.lock(rt).number(), self.other.lock(rt).number())
    }

    /// The store's numbers, and those in the drawers with their places.
    pub fn close(self) -> (Vec<u64>, (usize, u64), (usize, u64))
        ensures one { slice_get result.0.items result.1.0 ≡ Some result.1.1 }
        ensures other { slice_get result.0.items result.2.0 ≡ Some result.2.1 }
    {
        let Cabinet { one, other, store } = self;
        let (one, other) = (one.into_inner(), other.into_inner());
        let (a, b) = ((one.place(), one.number()), (other.place(), other.number()));
        (store.into_inner().close(one, other), a, b)
    }
}
