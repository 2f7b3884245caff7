//! What a stop leaves on a second disk while one commit more of another kernel's run is delivered to it. The functions do nothing: the contract of
//! each is a law.
#![tactic(auto)]

ghost use Rattle.std.specs.Prelude.{[], ◌≡◌, ◌∷◌, ◌++◌, ℕ, List, false};
ghost use Rattle.base_types.specs.declared.histories.Entry.{Entry};
ghost use Rattle.edge_disk.specs.Image.{Image};
ghost use Rattle.edge_disk.specs.Moments.{LeavesOnly};
ghost use Rattle.kernel_block_laws.specs.kernel_invariant.Beginnings.{Beginning, first_commits};
ghost use Rattle.kernel_block_laws.specs.kernel_invariant.Records.{StoresCommits};
ghost use Rattle.kernel_block_laws.specs.kernel_invariant.model_kernel.Choices.{Commit};
ghost use Rattle.node_commits.specs.Deliveries.{HasDelivered, IsShipped, IsStandbyImage, KeepsCommits, StoresOneMore, one_table};
ghost use Rattle.store_facts.specs.Committed.{StoresKeptOrMore};
ghost use Rattle.store_facts.specs.store_books.Between.{OnlyPages};
ghost use Rattle.store_facts.specs.store_books.Books.{AreSmall, AreTrue, Books, Logged};

use edge_disk::Disk;

/// What a commit of a shipped record leaves stores the commits so far, or one more (`image`), and so at each moment while its pages are written and
/// it is committed (`moments`). Behind it, with the blocks of its pages given back, the store keeps one commit more (`books`).
pub fn delivery_law<D: Disk>()
    ensures image { (b : Beginning) (es : List Entry) (cs : List Commit) (c : Commit) (image at : Image) (bk : Books) (entity version : ℕ)
        (stamp blob table : List ℕ) → KeepsCommits b es cs image bk (one_table entity table)
        → IsShipped b es entity version stamp blob table image c → StoresKeptOrMore image bk entity version stamp blob table at
        → StoresOneMore b es bk.count cs c at }
    ensures moments { (b : Beginning) (es : List Entry) (cs : List Commit) (c : Commit) (old mid new : D) (bk fl : Books) (m n : ℕ)
        (entity version : ℕ) (stamp blob table : List ℕ) → D.tells → AreTrue D.Disk bk old → AreSmall bk → bk.shut ≡ false
        → KeepsCommits b es cs (D.reading old) bk (λ x. []) → OnlyPages D.Disk old mid bk fl m n
        → KeepsCommits b es cs (D.reading mid) fl (one_table entity table)
        → IsShipped b es entity version stamp blob table (D.reading mid) c
        → LeavesOnly D.Disk mid new (StoresKeptOrMore (D.reading mid) fl entity version stamp blob table)
        → LeavesOnly D.Disk old new (StoresOneMore b es bk.count cs c) }
    ensures books { (b : Beginning) (es : List Entry) (cs : List Commit) (c : Commit) (count : ℕ) (image : Image) (fl new given : Books)
        (table : List ℕ) (l : Logged) → KeepsCommits b es cs image fl (one_table l.rec.entity table)
        → HasDelivered b es c count image fl new given table l → KeepsCommits b es (cs ++ c ∷ []) image given (λ x. []) }
{}

/// An image that stores the first k commits of a run has a good log with their greatest closed choice, and means the state that they make, where they
/// hold the records of the opened image.
pub fn standby_image_law()
    ensures { (b : Beginning) (es : List Entry) (count k : ℕ) (at : Image)
        → StoresCommits b es count (first_commits b es k) at → IsStandbyImage b es k at }
{}
