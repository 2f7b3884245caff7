//! What each state of a legal run keeps beside its cells: versions, clocks and words. The functions do nothing: the contract of
//! each is a law.
#![tactic(auto)]

ghost use Rattle.std.specs.Prelude.{◌≡◌, ◌≤◌, ℕ, List, Some};
ghost use Rattle.model_sound_runs.specs.base_types.declared.histories.Entry.{Entry};
ghost use Rattle.model_sound_runs.specs.model_kernel.State.{Supply, KernelState, empty_state};
ghost use Rattle.model_sound_runs.specs.model_kernel.Births.{next_birth};
ghost use Rattle.model_sound_runs.specs.model_kernel.Histories.{Policy, IsLegalRun, event_of};
ghost use Rattle.model_sound_runs.specs.model_kernel.Parts.{after, part_of};
ghost use Rattle.model_sound_runs.specs.model_kernel.Scripts.{Script};
ghost use Rattle.model_sound_runs.specs.model_kernel.Steps.{step};
ghost use Rattle.model_sound_runs.specs.script_types.Rules.{IsScript};
ghost use Rattle.model_sound_runs.specs.model_run_laws.Versions.{OnlyBelow64};
ghost use Rattle.model_sound_runs.specs.Kinds.{NamesNoLocus};
ghost use Rattle.model_sound_states.specs.States.{IsSoundState};

/// Sound states stay sound through steps; and, with an allowed script none of whose containers has a locus's name in the atlas at the
/// beginning, through births, legal runs and each part of them.
pub fn sound_state_law()
    ensures step { (s : Supply) (me : ℕ) (w : KernelState) (r : Entry × KernelState)
        → IsSoundState s w → step s me w ≡ Some r → IsSoundState s r.1 }
    ensures birth { (s : Supply) (script : Script) (w : KernelState) (r : Entry × KernelState)
        → IsScript script → NamesNoLocus script w → IsSoundState s w → next_birth s script w ≡ Some r → IsSoundState s r.1 }
    ensures run { (s : Supply) (policy : Policy) (script : Script) (w : KernelState) (es : List Entry)
        → IsScript script → NamesNoLocus script w → IsSoundState s w → IsLegalRun s policy w script es
        → IsSoundState s (after (event_of s script) w es) }
    ensures part { (s : Supply) (policy : Policy) (script : Script) (w : KernelState) (es : List Entry) (p : ℕ → ℕ)
        → IsScript script → NamesNoLocus script w → IsSoundState s w → IsLegalRun s policy w script es
        → IsSoundState s (after (event_of s script) w (part_of p es)) }
{}

/// In a sound state nothing from number 64 on has a version, nor has any clock a component there.
pub fn narrow_law()
    ensures versions { (s : Supply) (w : KernelState) → IsSoundState s w → OnlyBelow64 (λ x. (w x).version) }
    ensures stamps { (s : Supply) (w : KernelState) (x y : ℕ) → IsSoundState s w → 64 ≤ y → (w x).stamp y ≡ 0 }
{}

/// The state in which nothing but the atlas is born is sound, and there no container of a script has a locus's name.
pub fn empty_state_law()
    ensures sound { (s : Supply) → IsSoundState s empty_state }
    ensures names { (script : Script) → NamesNoLocus script empty_state }
{}
