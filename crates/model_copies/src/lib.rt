//! One more container in a state, as one that is there: what it is, that a sound state stays sound, and that its two records stand or fall
//! together. The functions do nothing: the contract of each is a law.
#![tactic(auto)]

ghost use Rattle.std.specs.Prelude.{◌∷◌, ◌++◌, [], ℕ, List};
ghost use Rattle.model_sound_states.specs.model_kernel.Choices.{Commit, IsGreatest};
ghost use Rattle.model_sound_states.specs.model_kernel.State.{KernelState, Supply, Text};
ghost use Rattle.model_sound_states.specs.States.{IsSoundState};
ghost use Rattle.model_sound_states.specs.model_run_laws.model_cut_laws.Agreeing.{nothing};
ghost use Rattle.model_copies.specs.Copies.{IsCopied};
ghost use Rattle.model_copies.specs.Needing.{AreAtMost, LeavesCopy, NeedEachOther, commit_in};

/// A sound state with a copy of a container is sound, and what the copy leaves of cells, versions and clocks.
pub fn copied_state_law()
    ensures sound { (s : Supply) (name fresh : Text) (v w : KernelState) → IsSoundState s v → IsCopied name fresh v w → IsSoundState s w }
    ensures leaves { (s : Supply) (name fresh : Text) (v w : KernelState) → IsSoundState s v → IsCopied name fresh v w → LeavesCopy name fresh v w }
{}

/// Where no commit is above the greatest closed choice, a commit that needs another one above it changes nothing; with that other one, which
/// needs it, the choice takes both.
pub fn two_commits_law()
    ensures first { (p q : ℕ → ℕ) (cs : List Commit) (a b : Commit) → IsGreatest nothing cs p → AreAtMost p cs → NeedEachOther p q a b
        → IsGreatest nothing (cs ++ a ∷ []) p }
    ensures second { (p q : ℕ → ℕ) (cs : List Commit) (a b : Commit) → IsGreatest nothing cs p → AreAtMost p cs → NeedEachOther p q a b
        → IsGreatest nothing (cs ++ b ∷ []) p }
    ensures both { (p q : ℕ → ℕ) (cs : List Commit) (a b : Commit) → IsGreatest nothing cs p → AreAtMost p cs → NeedEachOther p q a b
        → IsGreatest nothing (cs ++ a ∷ b ∷ []) q }
{}

/// The commits of the atlas and of the copy need each other above the versions of before.
pub fn copy_commits_law()
    ensures { (s : Supply) (name fresh : Text) (v w : KernelState) → IsSoundState s v → IsCopied name fresh v w → (l : LeavesCopy name fresh v w)
        → NeedEachOther (λ x. (v x).version) (λ x. (w x).version) (commit_in w 0) (commit_in w l.number) }
{}
