//! What a store of snapshot records keeps in memory of its image: the records of its log, which of them are kept, which blocks
//! are in use and how many are free; and what that says of each image that a stop may leave. `specs/Between` says what lies
//! between two moments of a store at which nothing was committed. The functions do nothing: the contract of each is a law.
#![tactic(auto)]

ghost use Rattle.std.specs.Prelude.{◌≡◌, ℕ, false};
ghost use Rattle.edge_disk.specs.Image.{Image};
ghost use Rattle.image_meaning.specs.model_cut_laws.Records.{AgreeInRecs, recs_from};
ghost use Rattle.image_meaning.specs.Stores.{Stores, recs_of};
ghost use Rattle.store_books.specs.Between.{OnlyPages};
ghost use Rattle.store_books.specs.Books.{AreSmall, AreTrue, Books, HaveComponents, cut_in, kept_of, recs_in};
ghost use Rattle.store_books.specs.Owning.{OwnedLaw};

use edge_disk::Disk;
pub use image_blocks::SLOT_COUNT;
pub use log_turn::{Areas, LogFault};

/// While the books are true, no number was too large and the disk hasn't failed, each image that a stop may leave stores the
/// kept records.
pub fn stored_law<D: Disk>()
    ensures { (b : Books) (disk : D) → AreTrue D.Disk b disk → AreSmall b → b.shut ≡ false
        → (c : Image) → D.may_leave disk c → Stores b.count (kept_of (D.reading disk) b) c }
{}

/// The kept records are those of the log at or above its greatest closed choice. Where each record has its 64 components, the log
/// agrees with them from there on.
pub fn kept_records_law()
    ensures kept { (image : Image) (b : Books) → recs_of (kept_of image b) ≡ recs_from (cut_in b) (recs_in b) }
    ensures agree { (image : Image) (b : Books) → HaveComponents (recs_in b)
        → AgreeInRecs (recs_in b) (recs_of (kept_of image b)) }
{}

/// Where each block has one owner, each page's block of the chosen kept records is named once, as an accepted image asks.
pub fn owned_law()
    ensures { OwnedLaw }
{}

/// That nothing was committed holds of a store and itself, and goes on: from a store to a later one, and from there to one
/// later still.
pub fn pages_only_law<D: Disk>()
    ensures stay { (a : D) (books : Books) (n : ℕ)
        → OnlyPages D.Disk a a books books n n }
    ensures join { (a b c : D) (x y z : Books) (k m n : ℕ)
        → OnlyPages D.Disk a b x y k m
        → OnlyPages D.Disk b c y z m n
        → OnlyPages D.Disk a c x z k n }
{}
