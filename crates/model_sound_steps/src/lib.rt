//! Steps keep sound states sound. The function does nothing: its contract is the law.
#![tactic(auto)]

ghost use Rattle.std.specs.Prelude.{◌≡◌, ℕ, Some};
ghost use Rattle.model_kernel.specs.base_types.declared.histories.Entry.{Entry};
ghost use Rattle.model_kernel.specs.State.{Supply, KernelState};
ghost use Rattle.model_kernel.specs.Steps.{step};
ghost use Rattle.model_kernel.specs.Soundness.{IsSound};

/// Soundness is kept: what a step of a locus makes of a sound state is sound.
pub fn sound_law()
    ensures step { (s : Supply) (me : ℕ) (w : KernelState) (r : Entry × KernelState)
        → IsSound (λ x. (w x).cell) → step s me w ≡ Some r → IsSound (λ x. (r.1 x).cell) }
{}
