//! A run's own trace: the lines that it puts with the names of its end are those that a checker asks for. The functions do nothing: the contract
//! of each is a law.
#![tactic(auto)]

ghost use Rattle.std.specs.Prelude.{◌≡◌, ◌==◌, ℕ, List, count_by, length};
ghost use Rattle.trace_checker.specs.model_sound_runs.Kinds.{NamesNoLocus};
ghost use Rattle.trace_checker.specs.script_types.Rules.{IsScript};
ghost use Rattle.base_types.specs.declared.histories.Entry.{Entry};
ghost use Rattle.trace_checker.specs.trace_facts.Traces.{Spells, spelled};
ghost use Rattle.trace_checker.specs.line_entries.Entries.{trace_of};
ghost use Rattle.trace_checker.specs.model_kernel.Histories.{IsLegalRun, Policy, run_after, start_run};
ghost use Rattle.trace_checker.specs.model_kernel.Scripts.{Script};
ghost use Rattle.trace_checker.specs.model_kernel.Soundness.{IsSound};
ghost use Rattle.trace_checker.specs.model_kernel.State.{KernelState, Supply, Text};
ghost use Rattle.trace_checker.specs.model_kernel.Steps.{atlas_in};

/// In a legal run from a sound state each line is the same by the names of the end and by those behind its own entry: an entry names none
/// but entities that are born behind it, and those keep their names.
pub fn own_trace_law()
    ensures { (s : Supply) (policy : Policy) (script : Script) (w : KernelState) (es : List Entry)
        → IsScript script → NamesNoLocus script w → IsSound (λ x. (w x).cell) → IsLegalRun s policy w script es
        → trace_of (atlas_in ((run_after s script (start_run w) es).state 0).cell) es ≡ spelled s script (start_run w) es }
{}

/// So the trace of a legal run by the names of its end spells a legal history of as many entries.
pub fn own_trace_spells_law()
    ensures { (s : Supply) (policy : Policy) (script : Script) (w : KernelState) (es : List Entry)
        → IsScript script → NamesNoLocus script w → IsSound (λ x. (w x).cell) → IsLegalRun s policy w script es
        → Spells s policy w script (trace_of (atlas_in ((run_after s script (start_run w) es).state 0).cell) es) (length es) }
{}

/// A trace that spells a legal history has as many line feeds as the history has entries. So it spells histories of one length alone.
pub fn line_count_law()
    ensures { (s : Supply) (policy : Policy) (script : Script) (w : KernelState) (trace : Text) (lines : ℕ)
        → IsScript script → NamesNoLocus script w → IsSound (λ x. (w x).cell) → Spells s policy w script trace lines
        → count_by (λ b. b == 10) trace ≡ lines }
{}
