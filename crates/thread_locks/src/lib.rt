//! A kernel on threads: each of its cells, its store and its desk under a lock of their own, from an opened kernel and back to it.
#![tactic(auto)]

mod closing;
mod laws;
mod lines;
mod locks;
mod opening;
mod room;
mod sides;

pub use closing::Closed;
pub use laws::births_law;
pub use lines::Unwritten;
pub use locks::Locks;
pub use opening::{BoardFault, ManagedFault, Opening};
pub use thread_items::{
    Answer, Board, Came, LookItem, SightedCell, look_all, look_one, look_three, look_two,
};
