//! Laws. The functions do nothing: the contract of each is a law.
ghost use Rattle.std.specs.Prelude.{◌≢◌, ◌∷◌, ℕ, List};
ghost use Rattle.thread_board.specs.Items.{ArePasses, AreRising};
ghost use Rattle.thread_board.specs.Parts.{AreCommits, AreFew, AreItems, AreNumbers, AreWritten};
ghost use Rattle.thread_history.specs.Rules.{AllDiffer};

use crate::lines::{Line, Placed};

/// In every state of the table: who writes commits has as many as the first word says, what each view knows begins them, and a
/// noted stop is the last of them. The same of items and the third word. The numbers of passes are below the second word, and
/// no two seats have the same. Who writes a list is there once its number is drawn, and until then the list is empty in every view.
/// There are at most 2^62 numbers, and as many items.
pub fn rule_law<C: Line, T>()
    ensures commits { AreCommits C T C.stops }
    ensures items { AreItems C T C.stops }
    ensures numbers { AreNumbers C T C.stops }
    ensures writers { AreWritten C T C.stops }
    ensures few { AreFew C T C.stops }
{}

/// Where each item of all ends before each later one starts: the items of a pass, which stand among all in their order, ascend too, and
/// those of two passes of different numbers cover no place twice. Two numbers that stand first among different ones differ.
#[tactic(auto, using(crate::proofs::Within::all_rising, crate::proofs::Within::first_differ, crate::proofs::Within::passes_apart))]
pub fn passes_law<T: Placed>()
    ensures ascend { AreRising T.starts T.ends }
    ensures apart { ArePasses T.starts T.ends }
    ensures numbers { (n m : ℕ) (ns : List ℕ) → AllDiffer (n ∷ m ∷ ns) → n ≢ m }
{}
