//! A law. The function does nothing: its contract is the law.
ghost use Rattle.std.specs.Prelude.{◌≡◌, ◌++◌, List, Option, None};
ghost use Rattle.base_types.specs.declared.histories.Entry.{Entry};
ghost use Rattle.thread_desk_stables.specs.kernel_core_facts.kernel_invariant.Beginnings.{Beginning};
ghost use Rattle.thread_desk_stables.specs.kernel_core_facts.kernel_invariant.declared.stopping.Stopped.{Stopped};
ghost use Rattle.thread_items.specs.declared.items.LookItem.{LookItem};
ghost use Rattle.thread_items.specs.Items.{IsTrueItem};

use edge_disk::Disk;
use thread_desk_stables::Board;

/// An item that is true stays so as entries follow, and where a kernel stops that went on.
pub fn item_law<D: Disk, B: Board<D>>()
    ensures follows { (b : Beginning) (es fs : List Entry) (stop : Option Stopped) (i : LookItem) → IsTrueItem B.terms.told b es stop i → IsTrueItem B.terms.told b (es ++ fs) stop i }
    ensures stops { (b : Beginning) (es : List Entry) (stop : Option Stopped) (i : LookItem) → IsTrueItem B.terms.told b es None i → IsTrueItem B.terms.told b es stop i }
{}
