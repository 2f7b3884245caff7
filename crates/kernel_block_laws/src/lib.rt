//! Whose the blocks are behind a commit, how many a kernel's records and page tables take, and so how many are free. The functions do
//! nothing: the contract of each is a law.
#![tactic(auto)]

ghost use Rattle.std.specs.Prelude.{◌==◌, count_by, [], ◌∷◌, ◌++◌, ◌≡◌, ◌≤◌, ◌<◌, ◌+◌, ◌*◌, ◌⊎◌, ℕ, All, Contains, List, None, false, length};
ghost use Rattle.base_types.specs.declared.histories.Entry.{Entry};
ghost use Rattle.kernel_invariant.specs.model_cut_laws.Agreeing.{AgreeFromCut, nothing};
ghost use Rattle.kernel_invariant.specs.model_cut_laws.Records.{commit_of, commits_of};
ghost use Rattle.kernel_invariant.specs.model_kernel.Choices.{Commit, IsNarrow};
ghost use Rattle.kernel_invariant.specs.model_kernel.Histories.{commits_above};
ghost use Rattle.kernel_invariant.specs.image_facts.Layout.{pool_at};
ghost use Rattle.kernel_invariant.specs.image_facts.Logs.{AreFitting};
ghost use Rattle.kernel_invariant.specs.store_books.Books.{Books, Logged, free_in, kept_in, recs_in};
ghost use Rattle.kernel_invariant.specs.store_books.Owning.{AreOwned};
ghost use Rattle.kernel_invariant.specs.Beginnings.{Beginning, BeginsRight, IsLegal, completed, run_of, state_after};
ghost use Rattle.kernel_invariant.specs.Live.{HoldsCommits, KernelView};
ghost use Rattle.kernel_block_laws.specs.Owning.{PutsRecord};
ghost use Rattle.kernel_block_laws.specs.Room.{AreTablesWithin, all_born, all_pages, enough_blocks, kept_blocks, working_blocks};

use edge_disk::Disk;

/// Of a store whose blocks have one owner each, so many blocks are free at least as the pool has more than kept records and working
/// page tables take.
pub fn free_blocks_law()
    ensures { (b : Books) (tables : ℕ → List ℕ) → AreOwned b tables → b.found ≡ false → ((x : ℕ) → 64 ≤ x → tables x ≡ [])
        → b.count ≤ pool_at + free_in b + kept_blocks b + working_blocks tables }
{}

/// Behind a commit each kept record was kept before or is the new one; and the blocks have one owner each as before, where the new
/// record's pages are of its entity's working table and the blocks of its blob weren't in use.
pub fn owners_law()
    ensures kept { (count : ℕ) (old new : Books) (l m : Logged) → AreFitting count (recs_in old) → AreFitting count (recs_in new)
        → (new.logged ≡ old.logged ++ l ∷ []) ⊎ (new.logged ≡ kept_in old ++ l ∷ []) → Contains (kept_in new) m
        → Contains (kept_in old) m ⊎ (l ≡ m) }
    ensures owned { (count : ℕ) (old new : Books) (tables : ℕ → List ℕ) (l : Logged) → AreOwned old tables
        → AreFitting count (recs_in old) → AreFitting count (recs_in new) → PutsRecord old new tables l → AreOwned new tables }
{}

/// A store that holds the commits of a legal run keeps at most 320 records (`records`), of each entity as many as it has commits at or
/// above the cut (`each`). Where n of each entity are at or above the cut
/// at most, the pool has no more blocks than are free, than n times those of all containers' pages and eight for each born entity,
/// and than the pages again (`free`). So with as many blocks as are enough one record of each entity with all its pages finds its blocks
/// free (`enough`), unless a Stable was cut short, which it is not where none is owed (`calm`).
pub fn room_law<D: Disk>()
    ensures records { (b : Beginning) (k : KernelView) (disk : D) → BeginsRight b → IsLegal b k.history
        → HoldsCommits b D.Disk k disk → length (kept_in k.books) ≤ 320 }
    ensures each { (b : Beginning) (k : KernelView) (disk : D) (x : ℕ) → BeginsRight b → IsLegal b k.history
        → HoldsCommits b D.Disk k disk
        → count_by (λ (l : Logged). l.rec.entity == x) (kept_in k.books) ≡ commits_above (completed b k.history) (run_of b k.history).cut x }
    ensures free { (b : Beginning) (k : KernelView) (disk : D) (n : ℕ) → BeginsRight b → IsLegal b k.history
        → HoldsCommits b D.Disk k disk → AreTablesWithin (state_after b k.history) k.tables
        → ((x : ℕ) → commits_above (completed b k.history) (run_of b k.history).cut x ≤ n)
        → k.books.count ≤ pool_at + free_in k.books + n * (all_pages (state_after b k.history) + 8 * all_born (state_after b k.history)) + all_pages (state_after b k.history) }
    ensures enough { (b : Beginning) (k : KernelView) (disk : D) → BeginsRight b → IsLegal b k.history
        → HoldsCommits b D.Disk k disk → AreTablesWithin (state_after b k.history) k.tables
        → (run_of b k.history).short ≡ false → enough_blocks (state_after b k.history) ≤ k.books.count
        → all_pages (state_after b k.history) + 8 * all_born (state_after b k.history) ≤ free_in k.books }
    ensures calm { (b : Beginning) (es : List Entry) → BeginsRight b → IsLegal b es → (run_of b es).owed ≡ None
        → (run_of b es).short ≡ false }
{}

/// Of a store whose log has the first commits of a run, as a second node's that follows it: it keeps at most 320 records (`room`); each record of its
/// log of the next commit's entity, kept or not, has a lower version (`newer`); and behind a record of the next commit, with a turn of the log or
/// without, the log has the commits and that one (`grows`). This is said of the log in memory alone, so it holds over each disk.
pub fn next_record_law()
    ensures room { (b : Beginning) (es : List Entry) (cs later : List Commit) (bk : Books) → BeginsRight b → IsLegal b es
        → completed b es ≡ cs ++ later → AgreeFromCut nothing cs (commits_of (recs_in bk)) → IsNarrow (commits_of (recs_in bk))
        → length (kept_in bk) ≤ 320 }
    ensures newer { (b : Beginning) (es : List Entry) (cs later : List Commit) (c : Commit) (bk : Books) → IsLegal b es
        → completed b es ≡ cs ++ c ∷ later → AgreeFromCut nothing cs (commits_of (recs_in bk)) → IsNarrow (commits_of (recs_in bk))
        → All (λ r. r.entity ≡ c.entity → r.version < c.version) (recs_in bk) }
    ensures grows { (cs : List Commit) (l : Logged) (bk new : Books) → AgreeFromCut nothing cs (commits_of (recs_in bk))
        → IsNarrow (commits_of (recs_in bk)) → (new.logged ≡ bk.logged ++ l ∷ []) ⊎ (new.logged ≡ kept_in bk ++ l ∷ [])
        → IsNarrow (commits_of (recs_in new)) → AgreeFromCut nothing (cs ++ commit_of l.rec ∷ []) (commits_of (recs_in new)) }
{}
