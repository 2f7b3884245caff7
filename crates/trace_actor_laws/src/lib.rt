//! Who acts in a legal run, and what happens to names. The functions do nothing: the contract of each is a law.
#![tactic(auto)]

ghost use Rattle.std.specs.Prelude.{◌≡◌, All, IsTrue, ℕ, List, Some};
ghost use Rattle.base_types.specs.declared.histories.Entry.{Entry};
ghost use Rattle.base_types.specs.declared.histories.Event.TheVariants.{Birth};
ghost use Rattle.plain_states.specs.model_kernel.State.{Supply, KernelState};
ghost use Rattle.plain_states.specs.model_kernel.Histories.{Policy, IsLegalRun, May, goes_on, run_after, start_run};
ghost use Rattle.plain_states.specs.model_kernel.Scripts.{Script};
ghost use Rattle.plain_states.specs.model_kernel.Soundness.{IsSound, is_born};
ghost use Rattle.plain_states.specs.model_kernel.Steps.{atlas_in, step};
ghost use Rattle.model_sound_states.specs.model_sound_runs.Names.{KeepsNames};
ghost use Rattle.plain_states.specs.script_types.Rules.{IsScript};
ghost use Rattle.model_sound_states.specs.model_sound_runs.Kinds.{NamesNoLocus};

/// A step takes no name from the atlas and gives none to another number.
pub fn kept_names_law()
    ensures { (s : Supply) (l : ℕ) (w : KernelState) (r : Entry × KernelState)
        → IsSound (λ x. (w x).cell) → step s l w ≡ Some r → KeepsNames (atlas_in (w 0).cell) (atlas_in (r.1 0).cell) }
{}

/// In a legal run from a sound state each entry that may follow, a birth aside, is of an entity that is born. A newborn is born
/// behind its birth. Each entry, a birth too, leaves each name with its number.
pub fn born_actor_law()
    ensures born { (s : Supply) (policy : Policy) (script : Script) (w : KernelState) (es : List Entry) (e : Entry)
        → IsScript script → NamesNoLocus script w → IsSound (λ x. (w x).cell) → IsLegalRun s policy w script es
        → May s policy script (run_after s script (start_run w) es) e → (e.event ≡ Birth → ⊥)
        → IsTrue (is_born (atlas_in ((run_after s script (start_run w) es).state 0).cell) e.actor) }
    ensures names { (s : Supply) (policy : Policy) (script : Script) (w : KernelState) (es : List Entry) (e : Entry)
        → IsScript script → NamesNoLocus script w → IsSound (λ x. (w x).cell) → IsLegalRun s policy w script es
        → May s policy script (run_after s script (start_run w) es) e
        → KeepsNames (atlas_in ((run_after s script (start_run w) es).state 0).cell)
        (atlas_in ((goes_on s script (run_after s script (start_run w) es) e).state 0).cell) }
    ensures newborn { (s : Supply) (policy : Policy) (script : Script) (w : KernelState) (es : List Entry) (e : Entry)
        → IsScript script → May s policy script (run_after s script (start_run w) es) e → e.event ≡ Birth
        → IsTrue (is_born (atlas_in ((goes_on s script (run_after s script (start_run w) es) e).state 0).cell) e.actor) }
{}

/// In a legal run from a sound state all that an entry touches is born behind it: what it read and wrote, and what it bore.
pub fn touched_born_law()
    ensures { (s : Supply) (policy : Policy) (script : Script) (w : KernelState) (es : List Entry) (e : Entry)
        → IsScript script → NamesNoLocus script w → IsSound (λ x. (w x).cell) → IsLegalRun s policy w script es
        → May s policy script (run_after s script (start_run w) es) e
        → All (λ t. IsTrue (is_born (atlas_in ((goes_on s script (run_after s script (start_run w) es) e).state 0).cell) t.entity)) e.touched }
{}
