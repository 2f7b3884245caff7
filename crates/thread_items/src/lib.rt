//! Looks in the desk as the items of workers' passes: what each look came to, with its place in the history.
#![tactic(auto)]

mod answers;
mod desks;
mod items;
mod laws;
mod looking;

pub use answers::Answer;
pub use desks::ItemDesk;
pub use items::{Came, LookItem};
pub use laws::item_law;
pub use looking::{look_all, look_one, look_three, look_two};
pub use thread_desk_stables::{
    Apart, Board, Cell, Closed, Desk, Kernel, OfStore, SightedCell, Store, Till,
};
