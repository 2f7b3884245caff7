//! Lines of text in fixed room: words, numbers and names of entities, and a whole line put into a sink at once.
#![tactic(auto)]

mod lines;
mod lists;
mod names;

pub use lines::{LINE, push_number, push_number_word, push_word, put_line};
pub use lists::NameLists;
pub use names::{Names, push_name, push_name_word};
