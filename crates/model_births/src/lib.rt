//! The births of a script that fits an atlas. The function does nothing: its contract is the law.
#![tactic(auto)]

ghost use Rattle.std.specs.Prelude.{◌≡◌, Some, false};
ghost use Rattle.model_sound_runs.specs.base_types.declared.histories.Entry.{Entry};
ghost use Rattle.model_sound_runs.specs.model_kernel.Births.{next_birth};
ghost use Rattle.model_sound_runs.specs.model_kernel.Histories.{births_owed, run_after, start_run};
ghost use Rattle.model_sound_runs.specs.model_kernel.Scripts.{Script, next_name};
ghost use Rattle.model_sound_runs.specs.model_kernel.Serial.{all_births};
ghost use Rattle.model_sound_runs.specs.model_kernel.Soundness.{IsSound};
ghost use Rattle.model_sound_runs.specs.model_kernel.State.{KernelState, Supply, Text, empty_state};
ghost use Rattle.model_sound_runs.specs.model_kernel.Steps.{atlas_in};
ghost use Rattle.model_sound_runs.specs.script_types.Rules.{IsScript};
ghost use Rattle.model_births.specs.Fitting.{Fits};

/// From a sound state each birth of an allowed script that fits is defined, and behind it the script still fits; so its births come
/// to their end: no name of the script is owed behind them. Every allowed script fits where nothing but the atlas is born.
pub fn fitting_births_law()
    ensures next { (s : Supply) (script : Script) (w : KernelState) (name : Text)
        → IsScript script → Fits (atlas_in (w 0).cell) script → IsSound (λ x. (w x).cell)
        → next_name (atlas_in (w 0).cell) script ≡ Some name
        → (r : Entry × KernelState) × (next_birth s script w ≡ Some r) × Fits (atlas_in (r.1 0).cell) script }
    ensures over { (s : Supply) (script : Script) (w : KernelState)
        → IsScript script → Fits (atlas_in (w 0).cell) script → IsSound (λ x. (w x).cell)
        → births_owed script (run_after s script (start_run w) (all_births s script (start_run w))) ≡ false }
    ensures empty { (script : Script) → IsScript script → Fits (atlas_in (empty_state 0).cell) script }
{}
