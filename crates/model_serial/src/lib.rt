//! The history of a run on one thread, as one function of supplier, policy, script and state; its fronts, and where it may have been
//! stopped. The functions do nothing: the contract of each is a law.
#![tactic(auto)]

ghost use Rattle.std.specs.Prelude.{◌≡◌, ◌≤◌, ◌<◌, ◌*◌, ◌++◌, ◌∷◌, [], ◌&&◌, not, false, ℕ, List, None, Some};
ghost use Rattle.base_types.specs.declared.histories.Entry.{Entry};
ghost use Rattle.base_types.specs.declared.histories.Event.TheVariants.{Snap, Stable};
ghost use Rattle.model_births.specs.model_kernel.Histories.{IsLegalRun, May, Policy, Run, births_owed, goes_on, has_wish, is_full, mark, run_after, start_run, version_of};
ghost use Rattle.model_births.specs.model_kernel.Scripts.{Script};
ghost use Rattle.model_births.specs.model_kernel.Soundness.{IsSound};
ghost use Rattle.model_births.specs.model_kernel.State.{KernelState, Supply};
ghost use Rattle.model_births.specs.model_kernel.Steps.{atlas_in, step};
ghost use Rattle.model_births.specs.script_types.Rules.{IsScript};
ghost use Rattle.model_births.specs.Fitting.{Fits};
ghost use Rattle.model_serial.specs.Serial.{IsBehind, IsCalm, IsStopped, IsWhole, serial_history, written_in};

/// From a sound state the serial history of an allowed script that fits, with any number of rounds, is a legal run, behind which nothing
/// is owed and no wish is due.
pub fn serial_run_law()
    ensures legal { (s : Supply) (policy : Policy) (script : Script) (w : KernelState) (n : ℕ)
        → IsScript script → Fits (atlas_in (w 0).cell) script → IsSound (λ x. (w x).cell)
        → IsLegalRun s policy w script (serial_history s policy script w n) }
    ensures calm { (s : Supply) (policy : Policy) (script : Script) (w : KernelState) (n : ℕ)
        → IsScript script → Fits (atlas_in (w 0).cell) script → IsSound (λ x. (w x).cell)
        → IsCalm policy (run_after s script (start_run w) (serial_history s policy script w n)) }
{}

/// There is a whole serial history, by at most as many rounds as the 23 loci have steps in all.
pub fn whole_serial_law()
    ensures { (s : Supply) (policy : Policy) (script : Script) (w : KernelState)
        → IsScript script → Fits (atlas_in (w 0).cell) script → IsSound (λ x. (w x).cell)
        → (n : ℕ) × (n ≤ 23 * script.steps) × IsWhole s policy script w (serial_history s policy script w n) }
{}

/// More rounds go on where fewer ended, and there is at most one whole serial history.
pub fn serial_front_law()
    ensures longer { (s : Supply) (policy : Policy) (script : Script) (w : KernelState) (n m : ℕ) → n ≤ m
        → (rest : List Entry) × (serial_history s policy script w n ++ rest ≡ serial_history s policy script w m) }
    ensures one { (s : Supply) (policy : Policy) (script : Script) (w : KernelState) (es fs : List Entry)
        → IsWhole s policy script w es → IsWhole s policy script w fs → es ≡ fs }
{}

/// From a sound state a serial history of an allowed script that fits is a legal run where it was stopped, too: a front of the serial one, perhaps with the Snaps of the completed records in
/// place of a Stable, and perhaps with one record that was tried.
pub fn stopped_run_law()
    ensures { (s : Supply) (policy : Policy) (script : Script) (w : KernelState) (es : List Entry)
        → IsScript script → Fits (atlas_in (w 0).cell) script → IsSound (λ x. (w x).cell)
        → IsStopped s policy script w es → IsLegalRun s policy w script es }
{}

/// Behind a step of a run at rest a wish may be due for what the step wrote alone. Of each of these, one after another, a Snap closes the
/// wish, and none is due where it isn't open or the entity is full; and a Stable that is owed closes all. So the run is at rest again.
pub fn behind_law()
    ensures step { (s : Supply) (policy : Policy) (script : Script) (r : Run) (me : ℕ) (e : Entry) (v : KernelState)
        → IsCalm policy r → births_owed script r ≡ false → r.steps me < script.steps → step s me r.state ≡ Some (e, v)
        → May s policy script r e × IsBehind policy (goes_on s script r e) (written_in e.touched) }
    ensures snap { (s : Supply) (policy : Policy) (script : Script) (r : Run) (x : ℕ) (xs : List ℕ)
        → r.owed ≡ None → IsBehind policy r (x ∷ xs) → May s policy script r (mark Snap x (version_of r x))
        → IsBehind policy (goes_on s script r (mark Snap x (version_of r x))) xs }
    ensures without { (policy : Policy) (r : Run) (x : ℕ) (xs : List ℕ)
        → IsBehind policy r (x ∷ xs) → (has_wish policy r x && not (is_full r x)) ≡ false → IsBehind policy r xs }
    ensures stable { (s : Supply) (policy : Policy) (script : Script) (r : Run) (actor : ℕ) (xs : List ℕ)
        → IsBehind policy r xs → r.owed ≡ Some actor
        → May s policy script r (mark Stable actor 0) × IsCalm policy (goes_on s script r (mark Stable actor 0)) }
    ensures calm { (policy : Policy) (r : Run) → r.owed ≡ None → IsBehind policy r [] → IsCalm policy r }
{}
