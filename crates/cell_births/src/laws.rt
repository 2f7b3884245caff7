// What a script's next birth asks is met: laws, without code.
ghost use Rattle.std.specs.Prelude.{◌≡◌, ◌+◌, ℕ, Some, length};
ghost use Rattle.script_types.specs.model_kernel.Births.{birth, next_birth};
ghost use Rattle.script_types.specs.model_kernel.Scripts.{ContainerTable, LocusTable, Script, next_name};
ghost use Rattle.script_types.specs.model_kernel.Soundness.{AreSound};
ghost use Rattle.script_types.specs.model_kernel.State.{Cell as ModelCell, KernelState, Supply, Text};
ghost use Rattle.script_types.specs.model_kernel.Steps.{atlas_in};
ghost use Rattle.script_types.specs.Rules.{IsScript};
ghost use Rattle.script_fits.specs.model_births.Fitting.{Fits};
ghost use Rattle.data_atlas.specs.data_atlas_facts.Directory.{Directory};
ghost use Rattle.script_fits.specs.act_calls.Calls.{atlas_state};
ghost use Rattle.script_fits.specs.NextTables.{IsNextContainer, IsNextLocus};
ghost use Rattle.cell_births.specs.Bearing.{MayBearContainer, MayBearLocus};

/// The next table of an allowed script that fits may be born under the lowest free number of its kind, and the host of a locus is born.
pub fn next_births_may_be_made()
    ensures container { (script : Script) (d : Directory) (cells : ℕ → ModelCell) (t : ContainerTable)
        → IsScript script → Fits (atlas_state d) script → AreSound (atlas_state d) cells
        → IsNextContainer (atlas_state d) script t → MayBearContainer d t (length d.containers + 1) }
    ensures locus { (script : Script) (d : Directory) (cells : ℕ → ModelCell) (t : LocusTable)
        → IsScript script → Fits (atlas_state d) script → AreSound (atlas_state d) cells
        → IsNextLocus (atlas_state d) script t → (host : ℕ) × MayBearLocus d t host (length d.loci + 41) }
{}

/// The birth of the script's next name is the next birth.
pub fn next_births_are_named()
    ensures { (s : Supply) (script : Script) (w : KernelState) (name : Text)
        → next_name (atlas_in (w 0).cell) script ≡ Some name → next_birth s script w ≡ birth s script name w }
{}
