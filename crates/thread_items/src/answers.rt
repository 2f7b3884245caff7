// What a look in the desk answers.
use thread_desk_stables::{Looked, Stopped};

/// What a look answers whose item is to be noted in a pass.
#[derive(Clone, Copy, PartialEq, Eq, Debug)]
pub enum Answer {
    /// The look was made, or the kernel had stopped; the item is noted.
    Came(Result<Looked, Stopped>),
    /// Other cells are wanted. Nothing was done, and nothing is noted.
    Unfit,
    /// There are 2^62 items. Nothing was done, and nothing is noted.
    Full,
}
