// What births leave of the progress of a script: a law, without code.
ghost use Rattle.std.specs.Prelude.{◌≡◌, Some};
ghost use Rattle.base_types.specs.declared.histories.Entry.{Entry as AnEntry};
ghost use Rattle.script_types.specs.model_kernel.Births.{next_birth};
ghost use Rattle.script_types.specs.model_kernel.Scripts.{Script as Tables};
ghost use Rattle.script_types.specs.model_kernel.State.{KernelState, Supply};
ghost use Rattle.script_types.specs.model_kernel.Steps.{atlas_in};
ghost use Rattle.script_types.specs.Rules.{IsScript};
ghost use Rattle.script_fits.specs.NextTables.{AreBornBefore};
ghost use Rattle.script_fits.specs.declared.tables.Progress.{Progress as AProgress};

/// What was born before a birth is born after it, so the next table is looked for from there on.
pub fn births_keep_progress()
    ensures { (s : Supply) (script : Tables) (w : KernelState) (r : AnEntry × KernelState) (p : AProgress)
        → IsScript script → next_birth s script w ≡ Some r
        → AreBornBefore (atlas_in (w 0).cell) script p → AreBornBefore (atlas_in (r.1 0).cell) script p }
{}
