//! Laws of legal runs. The functions do nothing: the contract of each is a law.
#![tactic(auto)]

ghost use Rattle.std.specs.Prelude.{[], ◌≡◌, ◌≤◌, ◌++◌, ℕ, List, count_by, false, filter, length, take};
ghost use Rattle.std.specs.List.{list_any};
ghost use Rattle.model_cut_laws.specs.base_types.declared.histories.Entry.{Entry};
ghost use Rattle.model_cut_laws.specs.model_kernel.State.{Supply, KernelState};
ghost use Rattle.model_cut_laws.specs.model_kernel.Scripts.{Script};
ghost use Rattle.model_cut_laws.specs.model_kernel.Choices.{Commit, greatest};
ghost use Rattle.model_cut_laws.specs.model_kernel.Fronts.{IsChoice, tried_commits};
ghost use Rattle.model_cut_laws.specs.model_kernel.Histories.{Policy, IsLegalRun, commits_in, event_of, is_due, run_after, start_run, version_after, writes};
ghost use Rattle.model_cut_laws.specs.model_kernel.Parts.{after, part_of, thing_at};
ghost use Rattle.model_cut_laws.specs.model_kernel.Vectors.{StampsBelow};
ghost use Rattle.model_cut_laws.specs.Agreeing.{AreFromStart, HoldsStart};
ghost use Rattle.model_run_laws.specs.StepEntries.{steps_by};
ghost use Rattle.model_run_laws.specs.Versions.{OnlyBelow64};

/// While nobody writes an entity, a wish of it that is not due stays so, and a locus makes no step.
pub fn unwritten_law()
    ensures wish { (s : Supply) (policy : Policy) (script : Script) (w : KernelState) (es fs : List Entry) (x : ℕ)
        → IsLegalRun s policy w script (es ++ fs) → list_any (λ e. writes e x) fs ≡ false
        → is_due policy (run_after s script (start_run w) es) x ≡ false
        → is_due policy (run_after s script (start_run w) (es ++ fs)) x ≡ false }
    ensures steps { (s : Supply) (policy : Policy) (script : Script) (w : KernelState) (es fs : List Entry) (x : ℕ)
        → IsLegalRun s policy w script (es ++ fs) → list_any (λ e. writes e x) fs ≡ false
        → (run_after s script (start_run w) (es ++ fs)).steps x ≡ (run_after s script (start_run w) es).steps x }
{}

/// What an entity was at a version that it has reached stays as entries follow, and so does the part that a choice over the
/// commits so far makes. The first commits stay the first.
pub fn cuts_stay_law()
    ensures things { (s : Supply) (policy : Policy) (script : Script) (w : KernelState) (es fs : List Entry) (x n : ℕ)
        → IsLegalRun s policy w script (es ++ fs) → (w x).version ≤ n → n ≤ (after (event_of s script) w es x).version
        → thing_at (event_of s script) (λ b. b.version) w (es ++ fs) x n ≡ thing_at (event_of s script) (λ b. b.version) w es x n }
    ensures cuts { (s : Supply) (policy : Policy) (script : Script) (w : KernelState) (es fs : List Entry)
        (cs later : List Commit) (q : ℕ → ℕ) → IsLegalRun s policy w script (es ++ fs)
        → tried_commits s script w es ≡ cs ++ later → IsChoice (λ x. (w x).version) cs q
        → part_of q (es ++ fs) ≡ part_of q es }
    ensures first { (s : Supply) (script : Script) (w : KernelState) (es fs : List Entry) (k : ℕ)
        → k ≤ length (commits_in s script w es)
        → take k (tried_commits s script w (es ++ fs)) ≡ take k (tried_commits s script w es) }
{}

/// The cut that the rules look at is always the computed choice over all commits so far. (`model_sound_cuts`: from a sound state that is the
/// greatest closed one, and few commits are at or above it.)
pub fn run_cut_law()
    ensures { (s : Supply) (script : Script) (w : KernelState) (es : List Entry)
        → (run_after s script (start_run w) es).cut ≡ greatest (λ x. (w x).version) (commits_in s script w es) }
{}

/// The records of the opened image are the first commits of a run. No commit is below its entity's version at the start, and
/// each entity that has one there has its record, which rests on no more than the start.
pub fn opened_records_law()
    ensures first { (s : Supply) (script : Script) (w : KernelState) (es : List Entry)
        → (later : List Commit) × (tried_commits s script w es ≡ commits_in s script w [] ++ later) }
    ensures from { (s : Supply) (policy : Policy) (script : Script) (w : KernelState) (es : List Entry)
        → IsLegalRun s policy w script es → AreFromStart (λ x. (w x).version) (tried_commits s script w es) }
    ensures held { (s : Supply) (script : Script) (w : KernelState) (later : List Commit)
        → StampsBelow w → OnlyBelow64 (λ x. (w x).version)
        → HoldsStart (λ x. (w x).version) (commits_in s script w [] ++ later) }
{}

/// What a run keeps, told by its entries: an entity's version rises with each entry that writes it, and a locus's steps are its
/// Step entries. Where the entries that write an entity stay the same as entries follow, none of those writes it.
pub fn run_counts_law()
    ensures versions { (s : Supply) (policy : Policy) (script : Script) (w : KernelState) (es : List Entry) (x : ℕ)
        → IsLegalRun s policy w script es
        → (after (event_of s script) w es x).version ≡ version_after (λ x. (w x).version) es x }
    ensures steps { (s : Supply) (script : Script) (w : KernelState) (es : List Entry) (x : ℕ)
        → (run_after s script (start_run w) es).steps x ≡ count_by (steps_by x) es }
    ensures written { (x : ℕ) (es fs : List Entry)
        → filter (λ e. writes e x) (es ++ fs) ≡ filter (λ e. writes e x) es → list_any (λ e. writes e x) fs ≡ false }
{}
