// What a locus wants is one act, and cells of a table are lent rightly by its plan. The functions do nothing: the contract of each is a law.
ghost use Rattle.std.specs.Prelude.{◌≡◌, List};
ghost use Rattle.base_types.specs.declared.instructions.Instr.{Instr as AnInstr};
ghost use Rattle.page_store.specs.model_kernel.State.{AtlasState, Supply};
ghost use Rattle.table_laws.specs.data_atlas_facts.Directory.{Directory};
ghost use Rattle.table_laws.specs.cell_states.declared.cells.Cell.{Cell as ACell};
ghost use Rattle.table_laws.specs.cell_plans.Plans.{IsPlanned};
ghost use Rattle.table_laws.specs.cell_plans.declared.plans.Reach.{Reach as AReach};
ghost use Rattle.table_laws.specs.Steps.{HasDirectory};
ghost use Rattle.table_laws.specs.Tables.{AreClean, AreFewWrites, IsOrderly};
ghost use Rattle.thread_steps.specs.Lending.{touched_by, IsLentFrom, Lent, MayStep};

use page_store::PageStore;

/// All plans of a cell have one instruction and touch the same entities, so whoever lends by the plan that `next_plan` gives lends rightly.
pub fn one_plan_law()
    ensures { (a : AtlasState) (c : ACell) (i j : AnInstr) (r q : AReach) → IsPlanned c i r → IsPlanned c j q → (i ≡ j) × (touched_by a r ≡ touched_by a q) }
{}

/// Cells of a table in order that are lent by a plan of the locus are those that `step_cells` asks for.
pub fn table_lends_law<B: PageStore>()
    ensures { (s : Supply) (cs : List ACell) (d : Directory) (b : B) (i : AnInstr) (r : AReach) (x : Lent B)
        → IsOrderly (B.held b) cs → AreFewWrites cs → (B.tells → AreClean s (B.words b) cs) → HasDirectory cs d → IsLentFrom cs d b i r x
        → MayStep B.PageStore s x }
{}
