// The passes of workers.
ghost use Rattle.std.specs.Prelude.{◌≡◌};
ghost use Rattle.thread_board.specs.Items.{Each, IsRising, IsWithin};
ghost use Rattle.thread_returns.specs.Passes.{AreAllApart};

use thread_board::{Bench, Line, Pass, Placed, Slate, Slip};

/// All passes come back. The items of each stand among all items, in their order, and ascend; and those of two passes cover no place twice.
/// Three steps at the table for each.
pub fn take_back_all<C: Line, T: Placed, B: Bench>(
    slip: &mut Slip<C, T, B>,
    slate: &Slate<C, T, B>,
    passes: Vec<Pass<C, T, B>>,
)
    ensures items { (slip.new.items ≡ slip.old.items) × (slip.new.commits ≡ slip.old.commits) }
    ensures each { Each (λ p. IsWithin p.items slip.old.items × IsRising T.starts T.ends p.items) passes.items }
    ensures apart { AreAllApart T.starts T.ends passes.items }
{
    let mut left = passes;
    for _ in 0..left.len() {
        let Some(pass) = left.pop() else {
            unreachable!();
        };
        let _ = slip.take_back(slate, pass);
    }
}
