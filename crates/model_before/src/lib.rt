//! What is before what in a history (Lamport, 1978). The functions do nothing: the contract of each is a law.
#![tactic(auto)]

ghost use Rattle.std.specs.Prelude.{[], ◌∷◌, ◌≡◌, ◌↔◌, ℕ, Bool, List, true};
ghost use Rattle.base_types.specs.declared.histories.Entry.{Entry};
ghost use Rattle.model_kernel.specs.State.{Supply, KernelState};
ghost use Rattle.model_kernel.specs.Scripts.{Script};
ghost use Rattle.model_kernel.specs.Histories.{Policy, IsLegalRun};
ghost use Rattle.model_kernel.specs.Parts.{IsClosed, within};
ghost use Rattle.model_kernel.specs.Pasts.{past};
ghost use Rattle.model_before.specs.Before.{IsAt, IsBefore, IsInPast, picked};

/// A closed part of a legal run contains with an entry each entry that is before it.
pub fn closed_part_law()
    ensures { (s : Supply) (policy : Policy) (script : Script) (w : KernelState) (es : List Entry) (p : ℕ → ℕ) (i j : ℕ) (cause effect : Entry)
        → IsLegalRun s policy w script es → IsClosed p es
        → IsAt es i cause → IsAt es j effect → IsBefore es i j → within p effect ≡ true → within p cause ≡ true }
{}

/// The past of an entity, over which its vector is taken, is the last entry that writes it and all that is before that one.
pub fn past_law()
    ensures { (es : List Entry) (x : ℕ)
        → (f : ℕ → Bool) × ((i : ℕ) → (f i ≡ true) ↔ IsInPast es x i) × (past es (x ∷ []) ≡ picked f es) }
{}
