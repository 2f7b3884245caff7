//! Worked runs with snapshots, entry by entry. The functions do nothing: the contract of each tells a run.
#![tactic(auto)]

ghost use Rattle.std.specs.Prelude.{[], ◌∷◌, ◌≡◌, Some, false, true};
ghost use Rattle.base_types.specs.declared.histories.Event.TheVariants.{Stable};
ghost use Rattle.model_run_laws.specs.model_kernel.Choices.{IsGreatest};
ghost use Rattle.model_run_laws.specs.model_kernel.Fronts.{tried_commits};
ghost use Rattle.model_run_laws.specs.model_kernel.Histories.{IsLegalRun, May, commits_in, event_of, has_wish, is_due, is_full, mark, never, next_changed, run_after, start_run};
ghost use Rattle.model_run_laws.specs.model_kernel.Parts.{after, part_of};
ghost use Rattle.model_examples.specs.Snapshots.{always, asks, both_snapshots, entities_and_versions, no_tables, no_words, one_snapshot, reached, recorded, version_at};
ghost use Rattle.model_examples.specs.CutShort.{first, reached_by_both, stopped, third, two_steps, with_first_record};
ghost use Rattle.model_examples.specs.FullContainer.{begun, behind, each_so_many, one_store_more, recorded_at, two_stores_more, until_full};
ghost use Rattle.model_examples.specs.SecondRun.{bears, chosen_again, second_run, with_helper, with_newborn};

mod limits;

pub use limits::{below_start_holds, beyond_64_holds, kinds_clash_holds};

/// A locus takes a snapshot of its container. The snap writes the container, so what is recorded is its version after the snap,
/// which rests on the locus. The record of the container alone is in no cut: the greatest closed choice is the start's still. With the
/// record of the locus both are.
pub fn snapshots_hold()
    ensures legal { IsLegalRun no_words always recorded no_tables both_snapshots }
    ensures versions { ((after (event_of no_words no_tables) recorded (asks ∷ []) 1).version ≡ 2)
        × ((after (event_of no_words no_tables) recorded (asks ∷ []) 41).version ≡ 2)
        × ((after (event_of no_words no_tables) recorded (asks ∷ []) 1).stamp 41 ≡ 2) }
    ensures commits { entities_and_versions (commits_in no_words no_tables recorded both_snapshots)
        ≡ (0, 2) ∷ (1, 1) ∷ (41, 1) ∷ (1, 2) ∷ (41, 2) ∷ [] }
    ensures abandoned { IsGreatest version_at (commits_in no_words no_tables recorded one_snapshot) version_at }
    ensures both { IsGreatest version_at (commits_in no_words no_tables recorded both_snapshots) reached }
{}

/// A locus stores a word and stabilises. The Stable is cut short: the container, which comes first, gets its record by itself, and
/// that of the locus is tried. Still a Stable is owed, which can no longer stand whole. The record of the container alone is in no cut;
/// where the other one was completed too, both are.
pub fn cut_short_holds()
    ensures legal { IsLegalRun no_words never first no_tables stopped }
    ensures state { (run_after no_words no_tables (start_run first) two_steps).state ≡ third }
    ensures owed { ((run_after no_words no_tables (start_run first) two_steps).owed ≡ Some 41)
        × (next_changed (run_after no_words no_tables (start_run first) two_steps) ≡ Some 1) }
    ensures still_owed { ((run_after no_words no_tables (start_run first) with_first_record).owed ≡ Some 41)
        × (next_changed (run_after no_words no_tables (start_run first) with_first_record) ≡ Some 41) }
    ensures records { (entities_and_versions (commits_in no_words no_tables first with_first_record) ≡ (0, 2) ∷ (1, 1) ∷ (41, 1) ∷ (1, 2) ∷ [])
        × (entities_and_versions (tried_commits no_words no_tables first stopped) ≡ (0, 2) ∷ (1, 1) ∷ (41, 1) ∷ (1, 2) ∷ (41, 3) ∷ []) }
    ensures without { IsGreatest version_at (commits_in no_words no_tables first with_first_record) version_at }
    ensures with_it { IsGreatest version_at (tried_commits no_words no_tables first stopped) reached_by_both }
    ensures not_whole { May no_words never no_tables (run_after no_words no_tables (start_run first) with_first_record) (mark Stable 41 0) → ⊥ }
{}

/// A locus stores five times into a container with a wish at each version. The container is recorded three times; with its record of
/// the start that makes four at or above the cut, which stays the start's, since no record of the locus follows: it is full. The next
/// store's wish is open and not due: no record of it may stand, and the container may be written again.
pub fn full_container_holds()
    ensures legal { IsLegalRun no_words each_so_many (behind 0) no_tables two_stores_more }
    ensures state { (run_after no_words no_tables begun two_stores_more).state ≡ behind 5 }
    ensures full { is_full (run_after no_words no_tables begun until_full) 1 ≡ true }
    ensures met_full { (has_wish each_so_many (run_after no_words no_tables begun one_store_more) 1 ≡ true)
        × (is_full (run_after no_words no_tables begun one_store_more) 1 ≡ true)
        × (is_due each_so_many (run_after no_words no_tables begun one_store_more) 1 ≡ false) }
    ensures no_record { May no_words each_so_many no_tables (run_after no_words no_tables begun one_store_more) (recorded_at 5) → ⊥ }
    ensures records { entities_and_versions (commits_in no_words no_tables (behind 0) two_stores_more)
        ≡ (0, 2) ∷ (1, 1) ∷ (41, 1) ∷ (1, 2) ∷ (1, 3) ∷ (1, 4) ∷ [] }
    ensures cut { IsGreatest version_at (commits_in no_words no_tables (behind 0) two_stores_more) version_at }
{}

/// The run behind the abandoned snapshot. It begins from the state of that run's cut, which is the recorded one, and gives birth to a locus
/// in the container. The container has version 2 again, with another clock: it does not rest on the keeper. This record is in the cut.
pub fn second_run_holds()
    ensures left { after (event_of no_words no_tables) recorded (part_of version_at one_snapshot) ≡ recorded }
    ensures legal { IsLegalRun no_words never recorded with_helper second_run }
    ensures state { (run_after no_words with_helper (start_run recorded) (bears ∷ [])).state ≡ with_newborn }
    ensures again { (((run_after no_words with_helper (start_run recorded) (bears ∷ [])).state 1).version ≡ 2)
        × (((run_after no_words with_helper (start_run recorded) (bears ∷ [])).state 1).stamp 41 ≡ 0)
        × (((run_after no_words with_helper (start_run recorded) (bears ∷ [])).state 1).stamp 42 ≡ 1) }
    ensures records { entities_and_versions (commits_in no_words with_helper recorded second_run)
        ≡ (0, 2) ∷ (1, 1) ∷ (41, 1) ∷ (0, 3) ∷ (1, 2) ∷ (42, 1) ∷ [] }
    ensures cut { IsGreatest version_at (commits_in no_words with_helper recorded second_run) chosen_again }
{}
