// What a sound state says of the cells that a step of a locus touches: laws, without code.
ghost use Rattle.std.specs.Prelude.{◌≡◌, ◌≢◌, ◌<◌, ◌+◌, ℕ, List, length, IsSome};
ghost use Rattle.plain_states.specs.base_types.declared.instructions.Instr.{Instr as AnInstr};
ghost use Rattle.plain_states.specs.model_kernel.Soundness.{AreSound};
ghost use Rattle.plain_states.specs.model_kernel.State.{AtlasState, Cell as ModelCell, ContainerCell, ContainerState, LocusCell, LocusState, Supply};
ghost use Rattle.cell_newborns.specs.data_atlas_facts.Directory.{Directory};
ghost use Rattle.act_atlas_laws.specs.act_alone.declared.loci.Head.{Head as AHead};
ghost use Rattle.act_atlas_laws.specs.act_invoke.Entries.{WantsBeside};
ghost use Rattle.cell_plans.specs.act_look.Looks.{is_look};
ghost use Rattle.act_atlas_laws.specs.act_calls.Calls.{atlas_state};
ghost use Rattle.cell_newborns.specs.cell_states.declared.cells.Part.{Part as APart};
ghost use Rattle.cell_newborns.specs.cell_states.declared.cells.Part.TheVariants as part;
ghost use Rattle.cell_newborns.specs.cell_states.Cells.{part_of};
ghost use Rattle.cell_plans.specs.cell_calls.Besides.{memory_of, FitsBeside};
ghost use Rattle.cell_newborns.specs.Bearing.{IsUnbornContainer};
ghost use Rattle.cell_plans.specs.cell_calls.Mapping.{IsHeadPart, MayMap, WantsMapping};
ghost use Rattle.cell_plans.specs.Plans.{IsCallBeside};

/// The entity beside which a locus calls is born, of a kind on which the call works, and not the locus.
pub fn sound_states_fit_calls()
    ensures { (s : Supply) (words : ℕ → List ℕ) (a : AtlasState) (cells : ℕ → ModelCell) (me x : ℕ) (l : LocusState) (i : AnInstr) (p : APart)
        → AreSound a cells → cells me ≡ LocusCell l → IsCallBeside me l i x → part_of s words p ≡ cells x → FitsBeside i p × (x ≢ me) }
{}

/// A look is at a container that is born.
pub fn sound_states_show_containers()
    ensures born { (a : AtlasState) (cells : ℕ → ModelCell) (me x : ℕ) (l : LocusState)
        → AreSound a cells → cells me ≡ LocusCell l → WantsBeside is_look l x → (c : ContainerState) × (cells x ≡ ContainerCell c) × (0 < x) × (x < me) }
    ensures part { (s : Supply) (words : ℕ → List ℕ) (a : AtlasState) (cells : ℕ → ModelCell) (me x : ℕ) (l : LocusState) (p : APart)
        → AreSound a cells → cells me ≡ LocusCell l → WantsBeside is_look l x → part_of s words p ≡ cells x → (h : AHead) × IsHeadPart p h }
{}

/// A mapping is into a container that is born, and the directory meets what it asks.
pub fn sound_states_may_map()
    ensures { (s : Supply) (words : ℕ → List ℕ) (d : Directory) (cells : ℕ → ModelCell) (me x : ℕ) (l : LocusState) (i : AnInstr) (p : APart)
        → AreSound (atlas_state d) cells → cells me ≡ LocusCell l → WantsMapping l i x → part_of s words p ≡ cells x
        → (h : AHead) × IsHeadPart p h × MayMap d l x h × (0 < x) × (x < me) }
{}

/// The lowest free numbers lie around the locus's.
pub fn sound_states_have_numbers_around()
    ensures container { (a : AtlasState) (cells : ℕ → ModelCell) (me : ℕ) (l : LocusState)
        → AreSound a cells → cells me ≡ LocusCell l → length a.containers < 40 → length a.containers + 1 < me }
    ensures locus { (a : AtlasState) (cells : ℕ → ModelCell) (me : ℕ) (l : LocusState)
        → AreSound a cells → cells me ≡ LocusCell l → me < length a.loci + 41 }
{}

/// The part of the atlas is its directory.
pub fn sound_states_show_directory()
    ensures { (s : Supply) (words : ℕ → List ℕ) (a : AtlasState) (cells : ℕ → ModelCell) (p : APart)
        → AreSound a cells → part_of s words p ≡ cells 0 → (d : Directory) × (p ≡ part.Atlas d) × (atlas_state d ≡ a) }
{}

/// The cell of the lowest free number of a container, which has memory from the start, isn't born.
pub fn sound_states_leave_next_unborn()
    ensures { (s : Supply) (words : ℕ → List ℕ) (a : AtlasState) (cells : ℕ → ModelCell) (p : APart)
        → AreSound a cells → length a.containers < 40 → IsSome (memory_of p) → part_of s words p ≡ cells (length a.containers + 1) → IsUnbornContainer p }
{}
