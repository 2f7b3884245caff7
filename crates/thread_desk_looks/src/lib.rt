//! Looks at a locus in a desk: with the store's lock and the history's in hand, by cells that are lent from under their locks, and with each entry
//! told to the lent cells' shares.
#![tactic(auto)]

mod desks;
mod laws;
mod looking;
mod telling;

pub use desks::{look_one, look_three, look_two};
pub use laws::item_law;
pub use thread_desk::{
    Apart, Board, Cell, Closed, Desk, Kernel, OfStore, SightedCell, Store, Till, hear_lent,
    tell_store,
};
