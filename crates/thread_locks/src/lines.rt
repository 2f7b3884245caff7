// The lines of the board's table.
ghost use Rattle.std.specs.Prelude.{false};

use thread_board::Line;

/// A line of the board's table that a store would write. None is: what was committed is told by the desk's history.
#[derive(Clone, Copy, PartialEq, Eq, Debug)]
pub struct Unwritten;

impl Line for Unwritten {
    ghost stops = { λ _. false };

    fn stops(&self) -> bool {
        false
    }
}
