//! How who asks each entity in turn for its newest commit finds the new commits of a run, in their order. The function does nothing: its
//! contract is a law.
#![tactic(auto)]

ghost use Rattle.std.specs.Prelude.{◌≡◌, ◌<◌, ◌++◌, [], ℕ, List};
ghost use Rattle.base_types.specs.declared.histories.Entry.{Entry};
ghost use Rattle.model_run_rules.specs.model_kernel.Histories.{IsLegalRun, Policy, commits_in, run_after, start_run};
ghost use Rattle.model_run_rules.specs.model_kernel.Scripts.{Script};
ghost use Rattle.model_run_rules.specs.model_kernel.Soundness.{IsSound};
ghost use Rattle.model_run_rules.specs.model_kernel.State.{KernelState, Supply};
ghost use Rattle.model_sound_runs.specs.script_types.Rules.{IsScript};
ghost use Rattle.model_serial_turns.specs.model_serial.Serial.{look, opening};
ghost use Rattle.model_sound_runs.specs.Kinds.{NamesNoLocus};
ghost use Rattle.model_run_rules.specs.Newest.{newest_in};
ghost use Rattle.model_new_commits.specs.Found.{AreFound};

/// Where each entity's newest commit is known up to some place of a run, the entities below 64, ascending, with a newer one are those of the
/// commits that came since, one of each, in their order, and the newest commit of each is the one that came. It holds of the commits with which
/// a run begins, where none is known; of the births with their Stable; and of each look.
pub fn new_commits_law()
    ensures start { (s : Supply) (script : Script) (w : KernelState) (known : ℕ → ℕ)
        → IsScript script → NamesNoLocus script w → IsSound (λ x. (w x).cell)
        → ((x : ℕ) → x < 64 → known x ≡ 0) → AreFound known [] (commits_in s script w []) }
    ensures births { (s : Supply) (script : Script) (w : KernelState) (known : ℕ → ℕ)
        → IsScript script → NamesNoLocus script w → IsSound (λ x. (w x).cell)
        → ((x : ℕ) → x < 64 → known x ≡ newest_in (commits_in s script w []) x)
        → AreFound known (commits_in s script w []) (commits_in s script w (opening s script w)) }
    ensures look { (s : Supply) (policy : Policy) (script : Script) (w : KernelState) (es : List Entry) (l : ℕ) (known : ℕ → ℕ)
        → IsScript script → NamesNoLocus script w → IsSound (λ x. (w x).cell)
        → IsLegalRun s policy w script (es ++ look s policy script (run_after s script (start_run w) es) l)
        → ((x : ℕ) → x < 64 → known x ≡ newest_in (commits_in s script w es) x)
        → AreFound known (commits_in s script w es) (commits_in s script w (es ++ look s policy script (run_after s script (start_run w) es) l)) }
{}
