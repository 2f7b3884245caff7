//! The cells of a kernel and the books of its store: what is true of both together, whatever the disk tells, and how commits, steps and
//! births keep it so. The functions do nothing: the contract of each is a law.
#![tactic(auto)]

ghost use Rattle.std.specs.Prelude.{◌≡◌, ◌<◌, ◌≤◌, ◌^◌, ℕ, List, [], ◌∷◌, Some, false, slice_get};
ghost use Rattle.kernel_views.specs.cell_blobs.Blobs.{is_recorded};
ghost use Rattle.kernel_book_laws.specs.Matching.{AreRecorded, HasRoomFor, MatchesBooks, Rises, SameLog};
ghost use Rattle.kernel_views.specs.table_laws.Lending.{Lends};
ghost use Rattle.kernel_views.specs.table_laws.Tables.{IsOrderly};
ghost use Rattle.kernel_views.specs.cell_states.declared.cells.Cell.{Cell as ACell};
ghost use Rattle.kernel_views.specs.kernel_records.Committing.{HasCommitted, HasNotCommitted, MayCommit};
ghost use Rattle.kernel_views.specs.store_facts.State.{State, books};
ghost use Rattle.kernel_views.specs.store_books.Between.{OnlyPages};
ghost use Rattle.kernel_views.specs.store_books.Books.{Books};

use edge_disk::Disk;
pub use kernel_views::{
    FULL, Idle, OpenFault, OpenWhy, Store, StoreFault, commit_cell, mark_entry,
};

/// A record of a cell that has changed since its newest one may be made, where no entity has more than five kept records.
pub fn may_commit_law()
    ensures { (most : ℕ → ℕ) (b : Books) (cs : List ACell) (x : ℕ) (c : ACell) → MatchesBooks most b cs → ((y : ℕ) → most y ≤ 5)
        → slice_get cs x ≡ Some c → is_recorded c ≡ false → b.place.epoch < 2 ^ 63 → MayCommit b c }
{}

/// After a commit of a cell the cells match the books again, with one kept record more at most, of its entity; and so they do after one
/// that failed.
pub fn commit_matches_law<D: Disk>()
    ensures made { (most more : ℕ → ℕ) (cs cs' : List ACell) (c d : ACell) (old new : State D) → MatchesBooks most (books old) cs
        → Lends cs cs' (c ∷ []) (d ∷ []) → is_recorded c ≡ false → HasRoomFor more c.clock.entity (books old)
        → HasCommitted D.Disk c d old new → MatchesBooks more (books new) cs' }
    ensures unmade { (most : ℕ → ℕ) (cs cs' : List ACell) (c d : ACell) (old new : State D) → MatchesBooks most (books old) cs
        → Lends cs cs' (c ∷ []) (d ∷ []) → HasNotCommitted D.Disk c d old new
        → MatchesBooks most (books new) cs' }
{}

/// Where each cell is recorded an entity has one kept record at most.
pub fn settled_law()
    ensures { (most : ℕ → ℕ) (b : Books) (cs : List ACell) → MatchesBooks most b cs → AreRecorded cs → MatchesBooks (λ _. 1) b cs }
{}

/// As versions rise, and newest records stay what they are, the cells match the books again: over the same log, as pages alone leave
/// it, with cells that are in order again.
pub fn rising_law<D: Disk>()
    ensures rises { (most : ℕ → ℕ) (old new : Books) (cs cs' : List ACell) → MatchesBooks most old cs → SameLog old new
        → IsOrderly new.held cs' → Rises cs cs' → MatchesBooks most new cs' }
    ensures pages { (a b : D) (old new : Books) (m n : ℕ) → OnlyPages D.Disk a b old new m n → SameLog old new }
{}

/// Fewer kept records are as few as more.
pub fn fewer_law()
    ensures { (most more : ℕ → ℕ) (b : Books) (cs : List ACell) → MatchesBooks most b cs → ((y : ℕ) → most y ≤ more y) → MatchesBooks more b cs }
{}
