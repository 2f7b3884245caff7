//! What does not depend on vector clocks. The functions do nothing: the contract of each is a law.
#![tactic(auto)]

ghost use Rattle.std.specs.Prelude.{◌≡◌, ◌↔◌, ℕ, List, Some};
ghost use Rattle.base_types.specs.declared.histories.Entry.{Entry};
ghost use Rattle.model_kernel.specs.State.{Supply, KernelState};
ghost use Rattle.model_kernel.specs.Births.{next_birth};
ghost use Rattle.model_kernel.specs.Histories.{Policy, IsLegalRun, run_after, start_run};
ghost use Rattle.model_kernel.specs.Scripts.{Script};
ghost use Rattle.model_kernel.specs.Steps.{step};
ghost use Rattle.model_kernel.specs.Vectors.{StampsBelow};
ghost use Rattle.model_clocks.specs.Alike.{AreAlike, TouchesAlike};

/// On states that agree in the cells and versions of what a step or birth touches, it gives the same entry, and leaves these
/// entities with the same cells and versions, whatever the clocks.
pub fn unclocked_law()
    ensures step { (s : Supply) (l : ℕ) (w v : KernelState) (r : Entry × KernelState)
        → step s l w ≡ Some r → TouchesAlike w v r.0.touched
        → (q : KernelState) × (step s l v ≡ Some (r.0, q)) × TouchesAlike r.1 q r.0.touched }
    ensures birth { (s : Supply) (script : Script) (w v : KernelState) (r : Entry × KernelState)
        → next_birth s script w ≡ Some r → TouchesAlike w v r.0.touched
        → (q : KernelState) × (next_birth s script v ≡ Some (r.0, q)) × TouchesAlike r.1 q r.0.touched }
{}

/// Which histories are legal does not depend on the clocks of the start, as long as none is above the versions, nor do the cells
/// and versions behind them.
pub fn legal_start_law()
    ensures legal { (s : Supply) (policy : Policy) (script : Script) (w v : KernelState) (es : List Entry)
        → AreAlike w v → StampsBelow w → StampsBelow v
        → IsLegalRun s policy w script es ↔ IsLegalRun s policy v script es }
    ensures behind { (s : Supply) (policy : Policy) (script : Script) (w v : KernelState) (es : List Entry)
        → AreAlike w v → StampsBelow w → StampsBelow v → IsLegalRun s policy w script es
        → AreAlike (run_after s script (start_run w) es).state (run_after s script (start_run v) es).state }
{}
