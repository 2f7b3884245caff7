//! A cell under its lock.
ghost use Rattle.std.specs.Prelude.{◌≡◌, Some, slice_get, slice_set};

use base_types::Entry;
use cell_states::Cell;
use std::marker::{Brand, Model};
use thread_history::{Run, Share};
use thread_ties::{Authority, Bond, Fragment};

/// A cell as it lies under its lock, with its entity's share of the history, and its side of what the authority over all cells knows.
/// Contracts see its number, the cell, and the entries after the kept ones that its share knows.
#[derive(Drop)]
pub struct LockedCell<B: Bond<Cell> + Run<Entry>> {
    pub cell: Cell,
    pub share: Share<Entry, B>,
    pub fragment: Fragment<Cell, B>,
}

impl<B: Bond<Cell> + Run<Entry>> Model for LockedCell<B> {
    ghost use Rattle.std.specs.Prelude.{◌≡◌, Some};
    ghost use Rattle.thread_cells.specs.Locked.{Keeping};

    ghost Value = { Keeping };

    ghost view = { λ l. record { number = l.cell.clock.entity; cell = l.cell; known = l.share.since } };

    ghost invariant = { λ l. (l.fragment.number ≡ l.cell.clock.entity) × (l.share.number ≡ l.cell.clock.entity) × (l.fragment.value ≡ Some l.cell) };
}

impl<B: Bond<Cell> + Run<Entry>> LockedCell<B> {
    /// Shows that the authority knows the cell as it is. Four loads.
    pub fn meet(&mut self, all: &mut Authority<Cell, B>)
        ensures cell { self.new ≡ self.old }
        ensures all { all.new ≡ all.old }
        ensures stands { slice_get all.old self.old.number ≡ Some self.old.cell }
    {
        all.agree(&mut self.fragment);
    }
}

/// Tells the authority, and the fragment, what the cell with the fragment's number has become. Four loads.
pub fn tell<B: Bond<Cell>>(
    all: &mut Authority<Cell, B>,
    fragment: &mut Fragment<Cell, B>,
    cell: &Cell,
)
    ensures all { all.new ≡ slice_set all.old fragment.old.number cell.now }
    ensures fragment { fragment.new ≡ record { number = fragment.old.number; value = Some cell.now } }
{
    all.change::<Brand, Cell>(fragment, cell);
}
