//! What a running kernel keeps between its cells, its store and the abstract kernel, as one record (`specs/Live`), and the laws that
//! lead from what a store keeps to what a stop leaves. The functions do nothing: the contract of each is a law.
#![tactic(auto)]

ghost use Rattle.std.specs.Prelude.{[], ◌∷◌, ◌++◌, ◌≡◌, ◌≤◌, ◌<◌, ◌+◌, ◌-◌, ◌^◌, ◌⊎◌, ℕ, List, count_by, false, length, true};
ghost use Rattle.edge_disk.specs.Image.{Image};
ghost use Rattle.edge_disk.specs.Moments.{LeavesOnly};
ghost use Rattle.store_books.specs.base_types.declared.histories.Entry.{Entry};
ghost use Rattle.model_sound_states.specs.model_kernel.Choices.{Commit};
ghost use Rattle.model_sound_states.specs.model_kernel.State.{KernelState};
ghost use Rattle.store_books.specs.model_cut_laws.Records.{commit_of};
ghost use Rattle.store_books.specs.image_facts.Logs.{AreFitting};
ghost use Rattle.store_books.specs.image_meaning.Meaning.{Means};
ghost use Rattle.store_books.specs.image_meaning.Stores.{Kept};
ghost use Rattle.store_books.specs.Books.{Books, Logged, kept_for, kept_in, kept_of, recs_in};
ghost use Rattle.store_books.specs.Owning.{AreOwned};
ghost use Rattle.kernel_invariant.specs.Beginnings.{Beginning, BeginsRight, IsLegal, completed, first_commits, state_after, with_tried};
ghost use Rattle.kernel_invariant.specs.Left.{HoldAcknowledged, IsAtMark, IsCutImage, IsCutState, LeavesCuts, StoresNext, marks_with};
ghost use Rattle.kernel_invariant.specs.Marks.{completes};
ghost use Rattle.store_told.specs.Told.{ArePagesApart};
ghost use Rattle.kernel_invariant.specs.Records.{AreKeptRecords, IsKeptRecord, StoresCommits};
ghost use Rattle.kernel_invariant.specs.Owning.{IsApartNew};
ghost use Rattle.kernel_invariant.specs.Telling.{TellsOf};

mod stopping;

use edge_disk::Disk;
pub use stopping::Stopped;

/// An image that stores the first commits of a legal run means the state after the part that their greatest closed choice makes.
pub fn cut_image_law()
    ensures { (b : Beginning) (es : List Entry) (count k : ℕ) (c : Image) → BeginsRight b → IsLegal b es
        → length (completed b []) ≤ k → StoresCommits b es count (first_commits b es k) c
        → (v : KernelState) × Means b.supply c v × IsCutState b.supply b.script b.state es (first_commits b es k) v }
{}

/// What kept records say of a run, and what an image stores of it, stays so as entries follow.
pub fn records_stay_law()
    ensures records { (b : Beginning) (es fs : List Entry) (cs : List Commit) (ks : List Kept) → IsLegal b (es ++ fs)
        → AreKeptRecords b es cs ks → AreKeptRecords b (es ++ fs) cs ks }
    ensures stored { (b : Beginning) (es fs : List Entry) (count : ℕ) (cs : List Commit) (c : Image) → IsLegal b (es ++ fs)
        → StoresCommits b es count cs c → StoresCommits b (es ++ fs) count cs c }
{}

/// A record that tells what its entity is after a legal run is one of the run.
pub fn new_record_law()
    ensures { (b : Beginning) (es : List Entry) (image : Image) (table : List ℕ) (k : Kept) → IsLegal b es
        → TellsOf b.supply (state_after b es) image table k → IsKeptRecord b es k }
{}

/// Kept records are those of a commit more with its record; and so are those of a store's books behind a commit, of which some are
/// retired.
pub fn records_grow_law()
    ensures grow { (b : Beginning) (es : List Entry) (cs : List Commit) (ks : List Kept) (new : Kept) → AreKeptRecords b es cs ks
        → IsKeptRecord b es new → AreKeptRecords b es (cs ++ commit_of new.rec ∷ []) (ks ++ new ∷ []) }
    ensures books { (b : Beginning) (es : List Entry) (cs : List Commit) (count : ℕ) (old new : Books) (image : Image) (l : Logged)
        → AreKeptRecords b es cs (kept_of image old) → IsKeptRecord b es (kept_for image l)
        → AreFitting count (recs_in old) → AreFitting count (recs_in new)
        → (new.logged ≡ old.logged ++ l ∷ []) ⊎ (new.logged ≡ kept_in old ++ l ∷ [])
        → AreKeptRecords b es (cs ++ commit_of l.rec ∷ []) (kept_of image new) }
{}

/// Where the blocks of a store have one owner each, the pages of its kept records stand apart; and so they do with a new record
/// whose pages are of its entity's working table, and whose blob's blocks weren't in use.
pub fn pages_apart_law()
    ensures kept { (b : Books) (tables : ℕ → List ℕ) (image : Image) → AreOwned b tables → ArePagesApart b.count (kept_of image b) }
    ensures more { (b : Books) (tables : ℕ → List ℕ) (image : Image) (new : Kept) → AreOwned b tables → IsApartNew b tables new
        → ArePagesApart b.count (kept_of image b ++ new ∷ []) }
{}

/// An image that stores first commits of a run which hold all that are acknowledged is a cut of it; and it stays one as an
/// entry follows, whose mark is later. As many commits as the history completes hold all that are acknowledged.
pub fn left_image_law()
    ensures stored { (b : Beginning) (es : List Entry) (count k : ℕ) (marks : List ℕ) (now t : ℕ) (c : Image)
        → BeginsRight b → IsLegal b es → HoldAcknowledged b es marks now t k → StoresCommits b es count (first_commits b es k) c
        → IsCutImage b es marks now t c }
    ensures all { (b : Beginning) (es : List Entry) (marks : List ℕ) (now t k : ℕ) → length (completed b es) ≤ k
        → k ≤ length (with_tried b es) → HoldAcknowledged b es marks now t k }
    ensures stays { (b : Beginning) (es : List Entry) (e : Entry) (marks : List ℕ) (m : ℕ) (now t : ℕ) (c : Image)
        → IsLegal b (es ++ e ∷ []) → length marks ≡ count_by completes es → (completes e ≡ true → now < 2 ^ 64 - 1 → t < b.since + m)
        → IsCutImage b es marks now t c → IsCutImage b (es ++ e ∷ []) (marks_with marks e m) now t c }
{}

/// That a stop at any moment left a cut goes on: over a stretch in which a stop leaves only what stores the commits so far; over an
/// event without a call of the disk; and over a commit for the next entry, tried or made, where a mark comes no earlier than
/// a stop leaves the new commit for certain.
pub fn moments_law<D: Disk>()
    ensures pages { (b : Beginning) (es : List Entry) (marks : List ℕ) (count : ℕ) (old new : D) → D.tells → BeginsRight b → IsLegal b es
        → LeavesCuts b D.Disk es marks old
        → LeavesOnly D.Disk old new (StoresCommits b es count (completed b es))
        → LeavesCuts b D.Disk es marks new }
    ensures event { (b : Beginning) (es : List Entry) (e : Entry) (marks : List ℕ) (disk : D) → D.tells → IsLegal b (es ++ e ∷ [])
        → length marks ≡ count_by completes es → completes e ≡ false
        → LeavesCuts b D.Disk es marks disk → LeavesCuts b D.Disk (es ++ e ∷ []) marks disk }
    ensures entry { (b : Beginning) (es : List Entry) (e : Entry) (marks : List ℕ) (m count : ℕ) (old new : D) → D.tells → BeginsRight b
        → IsLegal b (es ++ e ∷ []) → length marks ≡ count_by completes es → LeavesCuts b D.Disk es marks old
        → LeavesOnly D.Disk old new (StoresNext b es e count)
        → (completes e ≡ true → IsAtMark b D.Disk m new
        × ((c : Image) → D.may_leave new c → StoresCommits b (es ++ e ∷ []) count (with_tried b (es ++ e ∷ [])) c))
        → LeavesCuts b D.Disk (es ++ e ∷ []) (marks_with marks e m) new }
{}
