//! A law. The function does nothing: its contract is the law.
ghost use Rattle.std.specs.Prelude.{◌++◌, ℕ, List, Result};
ghost use Rattle.base_types.specs.declared.histories.Entry.{Entry};
ghost use Rattle.thread_looks.specs.kernel_core_facts.kernel_invariant.Beginnings.{Beginning};
ghost use Rattle.thread_looks.specs.kernel_core_facts.kernel_invariant.declared.stopping.Stopped.{Stopped};
ghost use Rattle.thread_looks.specs.kernel_core_facts.declared.looked.Looked.{Looked};
ghost use Rattle.thread_desk_looks.specs.Items.{IsTrueOf};

use edge_disk::Disk;
use thread_desk::Board;

/// What was told of a look is true of every history that goes on from there.
#[tactic(auto, using(crate::proofs::Items::stays_true))]
pub fn item_law<D: Disk, B: Board<D>>()
    ensures { (b : Beginning) (me place : ℕ) (es fs : List Entry) (r : Result Looked Stopped) → IsTrueOf B.terms.told b me place es r → IsTrueOf B.terms.told b me place (es ++ fs) r }
{}
