//! Legal runs keep sound states sound. The functions do nothing: the contract of each is a law.
#![tactic(auto)]

ghost use Rattle.std.specs.Prelude.{◌≡◌, ◌≤◌, ◌+◌, ◌*◌, ◌++◌, ℕ, List, Some, count_by, false, length, nat_le};
ghost use Rattle.script_types.specs.base_types.declared.histories.Entry.{Entry};
ghost use Rattle.script_types.specs.model_kernel.State.{Supply, KernelState};
ghost use Rattle.script_types.specs.model_kernel.Births.{next_birth};
ghost use Rattle.script_types.specs.model_kernel.Histories.{AllBelow64, Policy, IsLegalRun, births_owed, event_of, run_after, start_run};
ghost use Rattle.script_types.specs.model_kernel.Parts.{after, part_of};
ghost use Rattle.script_types.specs.model_kernel.Scripts.{Script};
ghost use Rattle.script_types.specs.model_kernel.Soundness.{IsSound};
ghost use Rattle.script_types.specs.Rules.{IsScript};
ghost use Rattle.script_types.specs.model_kernel.Vectors.{StampsBelow};
ghost use Rattle.model_run_laws.specs.Versions.{OnlyBelow64};
ghost use Rattle.model_sound_runs.specs.Kinds.{NamesNoLocus};

/// A birth of a script's next name leaves a sound state, in which no name of the script's containers is a locus's either.
pub fn sound_birth_law()
    ensures birth { (s : Supply) (script : Script) (w : KernelState) (r : Entry × KernelState)
        → IsScript script → NamesNoLocus script w → IsSound (λ x. (w x).cell) → next_birth s script w ≡ Some r
        → IsSound (λ x. (r.1 x).cell) }
    ensures kinds { (s : Supply) (script : Script) (w : KernelState) (r : Entry × KernelState)
        → IsScript script → NamesNoLocus script w → IsSound (λ x. (w x).cell) → next_birth s script w ≡ Some r
        → NamesNoLocus script r.1 }
{}

/// After a legal run from a sound state the state is sound, and so is the state of each part of it. Its
/// entries touch entities alone.
pub fn sound_run_law()
    ensures run { (s : Supply) (policy : Policy) (script : Script) (w : KernelState) (es : List Entry)
        → IsScript script → NamesNoLocus script w → IsSound (λ x. (w x).cell) → IsLegalRun s policy w script es
        → IsSound (λ x. (after (event_of s script) w es x).cell) }
    ensures part { (s : Supply) (policy : Policy) (script : Script) (w : KernelState) (es : List Entry) (p : ℕ → ℕ)
        → IsScript script → NamesNoLocus script w → IsSound (λ x. (w x).cell) → IsLegalRun s policy w script es
        → IsSound (λ x. (after (event_of s script) w (part_of p es) x).cell) }
    ensures below { (s : Supply) (policy : Policy) (script : Script) (w : KernelState) (es : List Entry)
        → IsScript script → NamesNoLocus script w → IsSound (λ x. (w x).cell) → IsLegalRun s policy w script es
        → AllBelow64 es }
{}

/// Once no birth is owed none is owed again.
pub fn births_end_law()
    ensures over { (s : Supply) (policy : Policy) (script : Script) (w : KernelState) (es fs : List Entry)
        → IsScript script → NamesNoLocus script w → IsSound (λ x. (w x).cell) → IsLegalRun s policy w script (es ++ fs)
        → births_owed script (run_after s script (start_run w) es) ≡ false
        → births_owed script (run_after s script (start_run w) (es ++ fs)) ≡ false }
{}

/// A legal history has at most four entries for each step of each locus, and 200 more.
pub fn history_length_law()
    ensures bound { (s : Supply) (policy : Policy) (script : Script) (w : KernelState) (es : List Entry)
        → IsScript script → NamesNoLocus script w → IsSound (λ x. (w x).cell) → IsLegalRun s policy w script es
        → length es ≤ 4 * 23 * script.steps + 200 }
{}

/// At most 320 commits are at or above the cut.
pub fn kept_records_law()
    ensures few { (s : Supply) (policy : Policy) (script : Script) (w : KernelState) (es : List Entry)
        → IsScript script → NamesNoLocus script w → IsSound (λ x. (w x).cell)
        → StampsBelow w → OnlyBelow64 (λ x. (w x).version) → IsLegalRun s policy w script es
        → count_by (λ c. nat_le ((run_after s script (start_run w) es).cut c.entity) c.version) (run_after s script (start_run w) es).commits ≤ 320 }
{}
