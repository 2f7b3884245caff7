//! A running kernel as its cells and its store make it, and how a step over the cells and a commit of one of them take it on. The
//! functions do nothing: the contract of each is a law.
#![tactic(auto)]

ghost use Rattle.std.specs.Prelude.{ℕ, List, Option};
ghost use Rattle.edge_disk.specs.Image.{Image};
ghost use Rattle.base_types.specs.declared.histories.Entry.{Entry as AnEntry};
ghost use Rattle.kernel_records.specs.cell_states.declared.cells.Cell.{Cell as ACell};
ghost use Rattle.table_laws.specs.Tables.{AreNumbered};
ghost use Rattle.kernel_records.specs.kernel_record_facts.Cells.{words_on};
ghost use Rattle.kernel_laws.specs.store_books.Books.{Books};
ghost use Rattle.kernel_laws.specs.kernel_invariant.Beginnings.{Beginning, BeginsRight, IsLegal};
ghost use Rattle.kernel_laws.specs.kernel_invariant.Live.{Follows};
ghost use Rattle.kernel_laws.specs.kernel_invariant.declared.stopping.Stopped.{Stopped};
ghost use Rattle.kernel_views.specs.Events.{EventLaw, StopLaw};
ghost use Rattle.kernel_views.specs.Snaps.{FullLaw, OrderLaw, SnapLaw, TriedLaw};
ghost use Rattle.kernel_views.specs.Views.{FollowsRun, view_in};

use edge_disk::Disk;
pub use kernel_records::{
    FULL, OpenFault, OpenWhy, Store, StoreFault, SyncedLog, commit_cell, mark_entry,
};
pub use table_laws::Idle;

/// The kernel follows its history exactly where its cells are what the run makes.
pub fn follows_law()
    ensures follows { (b : Beginning) (es : List AnEntry) (image : Image) (cs : List ACell) (bk : Books) (marks : List ℕ) (stop : Option Stopped)
        → BeginsRight b → IsLegal b es → AreNumbered cs → FollowsRun b (words_on image) cs es
        → Follows b (view_in b.supply b.script.steps image cs bk es marks stop) }
    ensures cells { (b : Beginning) (es : List AnEntry) (image : Image) (cs : List ACell) (bk : Books) (marks : List ℕ) (stop : Option Stopped)
        → AreNumbered cs → Follows b (view_in b.supply b.script.steps image cs bk es marks stop)
        → FollowsRun b (words_on image) cs es }
{}

/// A kernel at rest goes on by a step of a locus over its cells, for which only pages were read and written.
pub fn stepping_law<D: Disk>()
    ensures { EventLaw D.Disk }
{}

/// A kernel goes on by a commit of one of its cells, with its Snap, where a commit of the entity may be next.
pub fn snap_law<D: Disk>()
    ensures { SnapLaw D.Disk }
{}

/// Where such a commit failed the kernel stops, with its Tried: the record may be found or not.
pub fn tried_law<D: Disk>()
    ensures { TriedLaw D.Disk }
{}

/// Behind a commit of a cell, made or failed, the cells are in order, whatever the disk tells.
pub fn order_law<D: Disk>()
    ensures { OrderLaw D.Disk }
{}

/// A kernel that stops between its entries keeps its history and its marks, and its cells are what they were.
pub fn stop_law<D: Disk>()
    ensures { StopLaw D.Disk }
{}

/// The store of a kernel that stands has room for a record of an entity exactly where the entity isn't full.
pub fn full_law<D: Disk>()
    ensures { FullLaw D.Disk }
{}
