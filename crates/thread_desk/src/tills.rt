// The store under its lock.
ghost use Rattle.std.specs.Prelude.{◌≡◌, Some, slice_set};

use crate::names::{Board, OfStore};
use edge_disk::Disk;
use kernel_core::Store;
use std::marker::{Brand, Model};
use thread_ties::{Authority, Fragment};

/// A store as it lies under its lock, with its side of what the desk knows. Contracts see the store.
#[derive(Drop)]
pub struct Till<D: Disk, B: Board<D>> {
    pub store: Store<D>,
    pub fragment: Fragment<Store<D>, OfStore<B>>,
}

impl<D: Disk, B: Board<D>> Model for Till<D, B> {
    ghost use Rattle.std.specs.Prelude.{◌≡◌, Some};
    ghost use Rattle.kernel_core.specs.kernel_core_facts.store_facts.State.{State};

    ghost Value = { State D };

    ghost view = { λ t. t.store };

    ghost invariant = { λ t. (t.fragment.number ≡ 0) × (t.fragment.value ≡ Some t.store) };
}

/// Tells the side that knows the store, and the fragment, what the store has become. Four loads.
pub fn tell_store<D: Disk, B: Board<D>>(
    stores: &mut Authority<Store<D>, OfStore<B>>,
    fragment: &mut Fragment<Store<D>, OfStore<B>>,
    store: &Store<D>,
)
    ensures stores { stores.new ≡ slice_set stores.old fragment.old.number store.now }
    ensures fragment { fragment.new ≡ record { number = fragment.old.number; value = Some store.now } }
{
    stores.change::<Brand, Store<D>>(fragment, store);
}
