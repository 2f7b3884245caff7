//! The rules of a legal run, told by the places of its history. The functions do nothing: the contract of each is a law.
#![tactic(auto)]

ghost use Rattle.std.specs.Prelude.{[], ◌∷◌, ◌≡◌, ◌<◌, ◌++◌, ◌↔◌, ℕ, IsTrue, List};
ghost use Rattle.base_types.specs.declared.histories.Entry.{Entry};
ghost use Rattle.model_run_laws.specs.model_kernel.State.{Supply, KernelState};
ghost use Rattle.model_run_laws.specs.model_kernel.Scripts.{Script};
ghost use Rattle.model_run_laws.specs.model_kernel.Histories.{Policy, IsLegalRun, chosen_commits, commits_in, event_of, has_wish, is_due, is_full, run_after, start_run};
ghost use Rattle.base_types.specs.declared.histories.Event.TheVariants.{Tried};
ghost use Rattle.model_run_laws.specs.model_kernel.Fronts.{tried_commits, version_vector};
ghost use Rattle.model_run_laws.specs.model_kernel.Choices.{Commit, IsGreatest};
ghost use Rattle.model_run_laws.specs.model_kernel.Parts.{after, part_of};
ghost use Rattle.model_run_laws.specs.model_kernel.Vectors.{IsPart, StampsBelow};
ghost use Rattle.model_run_rules.specs.Commits.{changed_since, commits_now, new_commits};
ghost use Rattle.model_run_rules.specs.Newest.{newest_in};
ghost use Rattle.model_run_rules.specs.Records.{AreAscending, AreRecordsOf};
ghost use Rattle.model_run_rules.specs.Wishes.{HasOpenWish, WasNeverFull, is_full_after};

/// The commits of a legal run entry by entry: first the chosen records of the start, one of each entity that has a version there,
/// ascending; then for a Snap its entity, for a Stable each entity that has changed since its newest commit, ascending, each with its
/// version and stamp at that place; and, not counted among the completed ones, for a Tried at the end its own.
pub fn commits_law()
    ensures start { (s : Supply) (script : Script) (w : KernelState)
        → commits_in s script w [] ≡ chosen_commits w (changed_since w []) }
    ensures next { (s : Supply) (policy : Policy) (script : Script) (w : KernelState) (es : List Entry) (e : Entry)
        → IsLegalRun s policy w script es
        → commits_in s script w (es ++ e ∷ []) ≡ commits_in s script w es ++ new_commits s script w es e.actor e.event }
    ensures tried { (s : Supply) (script : Script) (w : KernelState) (es : List Entry) (e : Entry) → e.event ≡ Tried
        → tried_commits s script w (es ++ e ∷ []) ≡ commits_in s script w es ++ commits_now s script w es (e.actor ∷ []) }
{}

/// Each commit of a legal run, the tried one too, has the version and the clock that its entity had at that version, and that clock is
/// the vector of its past there. The versions of an entity's commits strictly ascend.
pub fn commit_record_law()
    ensures records { (s : Supply) (policy : Policy) (script : Script) (w : KernelState) (es : List Entry)
        → IsLegalRun s policy w script es → AreRecordsOf s script w es (tried_commits s script w es) }
    ensures ascending { (s : Supply) (policy : Policy) (script : Script) (w : KernelState) (es : List Entry)
        → IsLegalRun s policy w script es → AreAscending (tried_commits s script w es) }
{}

/// In a legal run an entity below 64 has an open wish exactly where a Step wrote it last, it has no commit since and the policy says so, or where a snap
/// that was answered Ok named it and it has no commit since. The policy is asked with the versions since the newest commit.
pub fn open_wish_law()
    ensures wish { (s : Supply) (policy : Policy) (script : Script) (w : KernelState) (es : List Entry) (x : ℕ)
        → IsLegalRun s policy w script es → x < 64
        → IsTrue (has_wish policy (run_after s script (start_run w) es) x) ↔ HasOpenWish s script w es x policy }
    ensures newest { (s : Supply) (policy : Policy) (script : Script) (w : KernelState) (es : List Entry) (x : ℕ)
        → IsLegalRun s policy w script es → x < 64
        → (run_after s script (start_run w) es).newest x ≡ newest_in (commits_in s script w es) x }
{}

/// An entity is full exactly where four or more of its commits so far are at or above the computed choice over all commits so far. (From a
/// sound state that is the greatest closed one: `model_sound_cuts::one_greatest_law`.)
pub fn full_law()
    ensures { (s : Supply) (script : Script) (w : KernelState) (es : List Entry) (x : ℕ)
        → is_full (run_after s script (start_run w) es) x ≡ is_full_after s script w es x }
{}

/// In a legal run a wish of an entity below 64 has to be met before the entity is touched again exactly where it is open and the entity was full at no place from
/// the last Step that writes it to the end.
pub fn due_law()
    ensures { (s : Supply) (policy : Policy) (script : Script) (w : KernelState) (es : List Entry) (x : ℕ)
        → IsLegalRun s policy w script es → x < 64
        → IsTrue (is_due policy (run_after s script (start_run w) es) x)
        ↔ (HasOpenWish s script w es x policy × WasNeverFull s script w es x) }
{}

/// What a cut leaves: the greatest closed choice over the first commits of a legal run gives each entity a version from the start's to
/// the present one. Where no clock of the start is above the versions, the state of its part has these versions, and their past vectors as
/// clocks.
pub fn cut_state_law()
    ensures part { (s : Supply) (policy : Policy) (script : Script) (w : KernelState) (es : List Entry)
        (cs later : List Commit) (q : ℕ → ℕ) → IsLegalRun s policy w script es
        → tried_commits s script w es ≡ cs ++ later → IsGreatest (λ x. (w x).version) cs q
        → IsPart (event_of s script) w es q }
    ensures versions { (s : Supply) (policy : Policy) (script : Script) (w : KernelState) (es : List Entry)
        (cs later : List Commit) (q : ℕ → ℕ) (x : ℕ) → IsLegalRun s policy w script es → StampsBelow w
        → tried_commits s script w es ≡ cs ++ later → IsGreatest (λ x. (w x).version) cs q
        → (after (event_of s script) w (part_of q es) x).version ≡ q x }
    ensures stamps { (s : Supply) (policy : Policy) (script : Script) (w : KernelState) (es : List Entry)
        (cs later : List Commit) (q : ℕ → ℕ) (x y : ℕ) → IsLegalRun s policy w script es → StampsBelow w
        → tried_commits s script w es ≡ cs ++ later → IsGreatest (λ x. (w x).version) cs q
        → (after (event_of s script) w (part_of q es) x).stamp y ≡ version_vector (event_of s script) w es x (q x) y }
{}
