//! Steps that workers make on a board of locks: which locks a step takes, in which order, and the item that it notes.
#![tactic(auto)]

mod gates;
mod steps;
mod trying;
mod turns;
mod wants;

pub use gates::{OpenGate, StepGate};
pub use steps::step;
pub use thread_locks::{
    Board, BoardFault, Came, Locks, LookItem, ManagedFault, Opening, Unwritten, births_law,
};
