//! Cuts and parts of legal runs from sound states. The functions do nothing: the contract of each is a law.
#![tactic(auto)]

ghost use Rattle.std.specs.Prelude.{[], ◌∷◌, ◌≡◌, ◌<◌, ◌≤◌, ◌+◌, ◌*◌, ◌++◌, ◌↔◌, ℕ, IsTrue, List, None, count_by, filter, length, nat_le, true};
ghost use Rattle.base_types.specs.declared.histories.Entry.{Entry};
ghost use Rattle.base_types.specs.declared.histories.Event.TheVariants.{Stable};
ghost use Rattle.model_run_rules.specs.model_cut_laws.Agreeing.{nothing};
ghost use Rattle.model_run_rules.specs.model_kernel.Choices.{Commit, IsBelow, IsGreatest, greatest};
ghost use Rattle.model_run_rules.specs.model_kernel.Fronts.{tried_commits};
ghost use Rattle.model_run_rules.specs.model_kernel.Histories.{Policy, commits_above, commits_in, event_of, has_changed, has_wish, is_due, is_full, run_after, start_run};
ghost use Rattle.model_run_rules.specs.model_kernel.Parts.{after, is_event, part_of};
ghost use Rattle.model_run_rules.specs.model_kernel.Scripts.{Script};
ghost use Rattle.model_run_rules.specs.model_kernel.Soundness.{is_born, is_born_container, is_born_locus};
ghost use Rattle.model_run_rules.specs.model_kernel.State.{ContainerCell, ContainerState, KernelState, LocusCell, LocusState, NotBorn, Supply};
ghost use Rattle.model_run_rules.specs.Wishes.{HasOpenWish};
ghost use Rattle.model_sound_states.specs.States.{IsSoundState};
ghost use Rattle.model_sound_cuts.specs.Runs.{IsSoundRun, WasFullNowhere, part_atlas, part_state};

/// There is exactly one greatest closed choice over each front of a run's commits, the tried one included: the computed one. The cut
/// that the rules look at is that over all completed ones.
pub fn one_greatest_law()
    ensures exists { (s : Supply) (policy : Policy) (script : Script) (w : KernelState) (es : List Entry) (cs later : List Commit)
        → IsSoundRun s policy script w es → tried_commits s script w es ≡ cs ++ later
        → IsGreatest (λ x. (w x).version) cs (greatest (λ x. (w x).version) cs) }
    ensures one { (s : Supply) (policy : Policy) (script : Script) (w : KernelState) (es : List Entry) (cs later : List Commit) (q : ℕ → ℕ)
        → IsSoundRun s policy script w es → tried_commits s script w es ≡ cs ++ later → IsGreatest (λ x. (w x).version) cs q
        → q ≡ greatest (λ x. (w x).version) cs }
    ensures run { (s : Supply) (policy : Policy) (script : Script) (w : KernelState) (es : List Entry)
        → IsSoundRun s policy script w es
        → IsGreatest (λ x. (w x).version) (commits_in s script w es) (run_after s script (start_run w) es).cut }
{}

/// An entity is full exactly where four or more of its commits are at or above the greatest closed choice over the completed ones. A wish is
/// open exactly in its two cases, and it is due exactly where it is open and the entity was full at no place from the last Step that writes
/// it on.
pub fn full_entity_law()
    ensures full { (s : Supply) (policy : Policy) (script : Script) (w : KernelState) (es : List Entry) (q : ℕ → ℕ) (x : ℕ)
        → IsSoundRun s policy script w es → IsGreatest (λ x. (w x).version) (commits_in s script w es) q
        → IsTrue (is_full (run_after s script (start_run w) es) x) ↔ (4 ≤ commits_above (commits_in s script w es) q x) }
    ensures wish { (s : Supply) (policy : Policy) (script : Script) (w : KernelState) (es : List Entry) (x : ℕ)
        → IsSoundRun s policy script w es
        → IsTrue (has_wish policy (run_after s script (start_run w) es) x) ↔ HasOpenWish s script w es x policy }
    ensures due { (s : Supply) (policy : Policy) (script : Script) (w : KernelState) (es : List Entry) (x : ℕ)
        → IsSoundRun s policy script w es
        → IsTrue (is_due policy (run_after s script (start_run w) es) x)
        ↔ (HasOpenWish s script w es x policy × WasFullNowhere s script w es x) }
{}

/// The greatest closed choice does not fall, in any entity, when commits are added; nor does the run's cut when entries follow.
pub fn rising_cut_law()
    ensures front { (s : Supply) (policy : Policy) (script : Script) (w : KernelState) (es : List Entry) (cs more later : List Commit)
        → IsSoundRun s policy script w es → tried_commits s script w es ≡ (cs ++ more) ++ later
        → IsBelow (greatest (λ x. (w x).version) cs) (greatest (λ x. (w x).version) (cs ++ more)) }
    ensures run { (s : Supply) (policy : Policy) (script : Script) (w : KernelState) (es fs : List Entry)
        → IsSoundRun s policy script w (es ++ fs)
        → IsBelow (run_after s script (start_run w) es).cut (run_after s script (start_run w) (es ++ fs)).cut }
{}

/// What is stable stays: whatever commits follow those of a Stable entry, the greatest closed choice gives each entity at least its
/// version there, and each event before it is within the part.
pub fn stable_stays_law()
    ensures versions { (s : Supply) (policy : Policy) (script : Script) (w : KernelState) (es : List Entry) (e : Entry) (later : List Commit)
        (q : ℕ → ℕ) (x : ℕ) → IsSoundRun s policy script w (es ++ e ∷ []) → e.event ≡ Stable
        → IsGreatest (λ x. (w x).version) (commits_in s script w (es ++ e ∷ []) ++ later) q
        → (after (event_of s script) w es x).version ≤ q x }
    ensures events { (s : Supply) (policy : Policy) (script : Script) (w : KernelState) (es : List Entry) (e : Entry) (later : List Commit)
        (q : ℕ → ℕ) → IsSoundRun s policy script w (es ++ e ∷ []) → e.event ≡ Stable
        → IsGreatest (λ x. (w x).version) (commits_in s script w (es ++ e ∷ []) ++ later) q
        → part_of q es ≡ filter (λ f. is_event f.event) es }
{}

/// The part that the greatest closed choice over the first commits so far makes, and its state, stay as entries follow.
pub fn cut_stays_law()
    ensures part { (s : Supply) (policy : Policy) (script : Script) (w : KernelState) (es fs : List Entry) (cs later : List Commit) (q : ℕ → ℕ)
        → IsSoundRun s policy script w (es ++ fs) → tried_commits s script w es ≡ cs ++ later → IsGreatest (λ x. (w x).version) cs q
        → part_of q (es ++ fs) ≡ part_of q es }
    ensures state { (s : Supply) (policy : Policy) (script : Script) (w : KernelState) (es fs : List Entry) (cs later : List Commit) (q : ℕ → ℕ)
        → IsSoundRun s policy script w (es ++ fs) → tried_commits s script w es ≡ cs ++ later → IsGreatest (λ x. (w x).version) cs q
        → part_state s script w (es ++ fs) q ≡ part_state s script w es q }
{}

/// The atlas of a part names exactly the entities that are born in it, with their kinds: those, the atlas aside, that have a version
/// there. Where the part is a cut's, those are the ones to which the cut gives a version.
pub fn named_part_law()
    ensures born { (s : Supply) (policy : Policy) (script : Script) (w : KernelState) (es : List Entry) (p : ℕ → ℕ) (x : ℕ)
        → IsSoundRun s policy script w es
        → IsTrue (is_born (part_atlas s script w es p) x) ↔ ((part_state s script w es p x).cell ≡ NotBorn → ⊥) }
    ensures containers { (s : Supply) (policy : Policy) (script : Script) (w : KernelState) (es : List Entry) (p : ℕ → ℕ) (x : ℕ)
        → IsSoundRun s policy script w es
        → IsTrue (is_born_container (part_atlas s script w es p) x)
        ↔ ((c : ContainerState) × ((part_state s script w es p x).cell ≡ ContainerCell c)) }
    ensures loci { (s : Supply) (policy : Policy) (script : Script) (w : KernelState) (es : List Entry) (p : ℕ → ℕ) (x : ℕ)
        → IsSoundRun s policy script w es
        → IsTrue (is_born_locus (part_atlas s script w es p) x)
        ↔ ((l : LocusState) × ((part_state s script w es p x).cell ≡ LocusCell l)) }
    ensures versions { (s : Supply) (policy : Policy) (script : Script) (w : KernelState) (es : List Entry) (p : ℕ → ℕ) (x : ℕ)
        → IsSoundRun s policy script w es → 0 < x
        → IsTrue (is_born (part_atlas s script w es p) x) ↔ (0 < (part_state s script w es p x).version) }
    ensures cut { (s : Supply) (policy : Policy) (script : Script) (w : KernelState) (es : List Entry) (cs later : List Commit) (q : ℕ → ℕ)
        (x : ℕ) → IsSoundRun s policy script w es → tried_commits s script w es ≡ cs ++ later → IsGreatest (λ x. (w x).version) cs q
        → 0 < x → IsTrue (is_born (part_atlas s script w es q) x) ↔ (0 < q x) }
{}

/// A run has at most four entries for each step of each locus, and 200 more. At most 320 of its commits are at or above its cut: at most five of
/// each entity, and at most four where no Stable is owed or the entity has changed since its newest commit.
pub fn bounded_run_law()
    ensures length { (s : Supply) (policy : Policy) (script : Script) (w : KernelState) (es : List Entry)
        → IsSoundRun s policy script w es → length es ≤ 4 * 23 * script.steps + 200 }
    ensures kept { (s : Supply) (policy : Policy) (script : Script) (w : KernelState) (es : List Entry)
        → IsSoundRun s policy script w es
        → count_by (λ c. nat_le ((run_after s script (start_run w) es).cut c.entity) c.version) (commits_in s script w es) ≤ 320 }
    ensures five { (s : Supply) (policy : Policy) (script : Script) (w : KernelState) (es : List Entry) (x : ℕ)
        → IsSoundRun s policy script w es
        → commits_above (commits_in s script w es) (run_after s script (start_run w) es).cut x ≤ 5 }
    ensures four { (s : Supply) (policy : Policy) (script : Script) (w : KernelState) (es : List Entry) (x : ℕ)
        → IsSoundRun s policy script w es → (run_after s script (start_run w) es).owed ≡ None
        → commits_above (commits_in s script w es) (run_after s script (start_run w) es).cut x ≤ 4 }
    ensures changed { (s : Supply) (policy : Policy) (script : Script) (w : KernelState) (es : List Entry) (x : ℕ)
        → IsSoundRun s policy script w es → has_changed (run_after s script (start_run w) es) x ≡ true
        → commits_above (commits_in s script w es) (run_after s script (start_run w) es).cut x ≤ 4 }
{}

/// Of each front of a run's commits, wherever it ends, at most five of each entity and so 320 in all are at or above its own cut: also where it
/// ends in the middle of a Stable, or in the records of the start; and also over choices that begin with nothing, as an image's do (`image`).
pub fn front_room_law()
    ensures five { (s : Supply) (policy : Policy) (script : Script) (w : KernelState) (es : List Entry) (cs later : List Commit) (x : ℕ)
        → IsSoundRun s policy script w es → commits_in s script w es ≡ cs ++ later
        → commits_above cs (greatest (λ x. (w x).version) cs) x ≤ 5 }
    ensures few { (s : Supply) (policy : Policy) (script : Script) (w : KernelState) (es : List Entry) (cs later : List Commit)
        → IsSoundRun s policy script w es → commits_in s script w es ≡ cs ++ later
        → count_by (λ c. nat_le (greatest (λ x. (w x).version) cs c.entity) c.version) cs ≤ 320 }
    ensures image { (s : Supply) (policy : Policy) (script : Script) (w : KernelState) (es : List Entry) (cs later : List Commit) (q : ℕ → ℕ)
        → IsSoundRun s policy script w es → commits_in s script w es ≡ cs ++ later → IsGreatest nothing cs q
        → count_by (λ c. nat_le (q c.entity) c.version) cs ≤ 320 }
{}

/// Over the records of the start and whatever commits follow them, the greatest closed choice is the same where choices begin with the
/// versions of the start, as a run's do, and where they begin with nothing, as an image's do.
pub fn opened_choice_law()
    ensures { (s : Supply) (script : Script) (w : KernelState) (later : List Commit) (q : ℕ → ℕ) → IsSoundState s w
        → IsGreatest (λ x. (w x).version) (commits_in s script w [] ++ later) q
        ↔ IsGreatest nothing (commits_in s script w [] ++ later) q }
{}
