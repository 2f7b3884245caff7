// The step of a locus over lent cells.
ghost use Rattle.std.specs.Prelude.{◌≡◌, ◌↔◌, ℕ, List, [], ◌∷◌, Some, IfErr, IfOk, IsErrOf};
ghost use Rattle.page_store.specs.model_kernel.State.{Supply};
ghost use Rattle.page_store.specs.declared.faults.PageFault.{PageFault as AFault};
ghost use Rattle.table_laws.specs.edge_disk.declared.disk.NoBlocks.{NoBlocks};
ghost use Rattle.table_laws.specs.cell_states.Cells.{part_of};
ghost use Rattle.table_laws.specs.cell_plans.Plans.{idle_of};
ghost use Rattle.table_laws.specs.cell_plans.declared.idle.Idle.{Idle as AnIdle};
ghost use Rattle.table_laws.specs.cell_plans.Plans.{IsPlanned};
ghost use Rattle.table_laws.specs.cell_plans.declared.plans.Reach.TheVariants as reach;
ghost use Rattle.table_laws.specs.Tables.{AreFewWrites};
ghost use Rattle.thread_steps.specs.Lending.{cells_of, left_as, lent_as, numbers_of, AreLent, HoldsPages, MayStep};
ghost use Rattle.thread_steps.specs.Stepping.{FaultsAt, FaultsLent, IsLentShort, IsLookShortOver, LooksAt, StepsLent};

use crate::kinds::{go_alone, go_beside, go_with_atlas, go_with_both};
use base_types::Instr;
use edge_managers::{Gate, Policy, Supplier};
use page_store::{PageFault, PageStore};
use table_laws::{Cell, Plan, Reach, advance_looking, next_plan};
use table_steps::{Made, StepFault};

/// A step that makes one look of a load or a store at a container, by this plan.
pub fn go_look<B: PageStore, S: Supplier, P: Policy>(
    locus: &mut Cell,
    other: &mut Cell,
    store: &mut B,
    instr: Instr,
    gate: &Gate<S, P>,
) -> Result<Made, StepFault>
    requires keeps { S.keeps gate.now.supply }
    requires lent { AreLent locus.old [] (other.old ∷ []) }
    requires few { AreFewWrites (locus.old ∷ other.old ∷ []) }
    requires planned { (x : ℕ) × IsPlanned locus.old instr (reach.Look x) }
    requires holds { HoldsPages B.PageStore (S.word gate.now.supply) store.old other.old.part }
    ensures looks { IfOk result (λ made. LooksAt B.PageStore (S.word gate.now.supply) locus.old other.old locus.new other.new store.old store.new made.entry) }
    ensures instr { IfOk result (λ made. made.instr ≡ instr) }
    ensures pages { IfErr result (λ why. (f : AFault) × (why ≡ StepFault.Paging f) × FaultsAt B.PageStore (S.word gate.now.supply) locus.old other.old locus.new other.new store.old store.new f) }
    ensures no_blocks { (n : NoBlocks) → IsErrOf result (StepFault.Paging (PageFault.NoBlocks n)) ↔ IsLookShortOver B.PageStore locus.old other.old store.old n }
    ensures numbers { numbers_of (locus.new ∷ other.new ∷ []) ≡ numbers_of (locus.old ∷ other.old ∷ []) }
{
    match advance_looking(locus, other, instr, store, gate) {
        Ok(entry) => Ok(Made { entry, instr }),
        Err(fault) => Err(StepFault::Paging(fault)),
    }
}

/// One step of a locus over the cells that are lent: its own, and those that its next step touches, the atlas apart. A load or a store of
/// a word is lent the store of the container's pages.
///
/// `Idle` comes exactly where the locus can't step: it isn't born or no locus, it is halted or stopped, or it has no step left, in this
/// order; then nothing is changed. `Paging` comes of a load or a store alone that reads or writes a word, and changes nothing in the model,
/// so that the same step can be tried again; it is `NoBlocks` exactly where the word's page is short of a block, and then nothing but the
/// clock of the container's frames has moved. It takes no memory, and makes at most one read and one write of a page.
pub fn step_cells<B: PageStore, S: Supplier, P: Policy>(
    locus: &mut Cell,
    atlas: Option<&mut Cell>,
    other: Option<&mut Cell>,
    store: Option<&mut B>,
    gate: &Gate<S, P>,
) -> Result<Made, StepFault>
    requires keeps { S.keeps gate.now.supply }
    requires may { MayStep B.PageStore (S.word gate.now.supply) (lent_as locus.old atlas other store) }
    ensures idle { (s : Supply) → (words : ℕ → List ℕ) → (why : AnIdle)
        → IsErrOf result (StepFault.Idle why) ↔ (idle_of locus.old.left (part_of s words locus.old.part) ≡ Some why) }
    ensures still { (why : AnIdle) → IsErrOf result (StepFault.Idle why)
        → left_as locus.new atlas.exit other.exit store.exit ≡ lent_as locus.old atlas.entry other.entry store.entry }
    ensures step { IfOk result (StepsLent B.PageStore (S.word gate.now.supply) (lent_as locus.old atlas.entry other.entry store.entry) (left_as locus.new atlas.exit other.exit store.exit)) }
    ensures faulted { (f : AFault) → IsErrOf result (StepFault.Paging f)
        → FaultsLent B.PageStore (S.word gate.now.supply) (lent_as locus.old atlas.entry other.entry store.entry) (left_as locus.new atlas.exit other.exit store.exit) f }
    ensures no_blocks { (n : NoBlocks) → IsErrOf result (StepFault.Paging (PageFault.NoBlocks n)) ↔ IsLentShort B.PageStore (lent_as locus.old atlas.entry other.entry store.entry) n }
    ensures numbers { numbers_of (cells_of (left_as locus.new atlas.exit other.exit store.exit)) ≡ numbers_of (cells_of (lent_as locus.old atlas.entry other.entry store.entry)) }
{
    match next_plan(locus) {
        Err(why) => return Err(StepFault::Idle(why)),
        Ok(Plan { instr, reach }) => match atlas {
            Some(atlas) => match other {
                Some(other) => {
                    return Ok(Made {
                        entry: go_with_both(locus, atlas, other, instr, reach),
                        instr,
                    });
                }
                None => {
                    return Ok(Made {
                        entry: go_with_atlas(locus, atlas, instr, reach),
                        instr,
                    });
                }
            },
            None => match other {
                Some(other) => match reach {
                    Reach::Look(_) => match store {
                        Some(store) => return go_look(locus, other, store, instr, gate),
                        None => unreachable!(),
                    },
                    _ => {
                        return Ok(Made {
                            entry: go_beside(locus, other, instr),
                            instr,
                        });
                    }
                },
                None => {
                    return Ok(Made {
                        entry: go_alone(locus, instr, reach),
                        instr,
                    });
                }
            },
        },
    }
}
