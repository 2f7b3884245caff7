// The step of a locus that looks at a container.
ghost use Rattle.std.specs.Prelude.{◌≡◌, ◌↔◌, ◌<◌, ◌^◌, [], ◌∷◌, IfOk, IsErrOf, OnErr};
ghost use Rattle.cell_looks.specs.edge_disk.declared.disk.NoBlocks.{NoBlocks};
ghost use Rattle.cell_looks.specs.page_memory.Calls.{PagesOnce};
ghost use Rattle.cell_looks.specs.cell_states.Cells.{part_of};
ghost use Rattle.cell_looks.specs.Looking.{IsLookShortIn, LeavesMemoryIn, LooksAtWord, MayLookIn, TurnsPart};
ghost use Rattle.cell_plans.specs.Plans.{IsPlanned};
ghost use Rattle.cell_plans.specs.declared.plans.Reach.TheVariants as reach;
ghost use Rattle.cell_steps.specs.Advances.{AdvancesSomehow, StepsCells};

use crate::noting::{named_by_snap, note};
use base_types::{Entry, Instr};
use cell_looks::{Cell, step_look};
use edge_managers::{Gate, Policy, Supplier};
use page_store::{PageFault, PageStore};

/// The step of a locus that makes one look of a load or a store, which is this instruction, at a container. On a fault of
/// paging nothing has changed in the model, so that the same step can be tried again. `NoBlocks` comes exactly where the look
/// comes to a word whose page is short of a block.
pub fn advance_looking<B: PageStore, S: Supplier, P: Policy>(
    locus: &mut Cell,
    other: &mut Cell,
    instr: Instr,
    store: &mut B,
    gate: &Gate<S, P>,
) -> Result<Entry, PageFault>
    requires keeps { S.keeps gate.now.supply }
    requires planned { IsPlanned locus.old instr (reach.Look other.old.clock.entity) }
    requires memory { MayLookIn (S.word gate.now.supply) B.PageStore store.old other.old.part }
    requires lower { other.old.clock.entity < locus.old.clock.entity }
    requires few { (locus.old.clock.version < 2 ^ 63) × (other.old.clock.version < 2 ^ 63) }
    ensures step { B.tells → IfOk result (StepsCells (S.word gate.now.supply) (B.words store.old) (B.words store.new) locus.old.clock.entity (locus.old ∷ other.old ∷ []) (locus.new ∷ other.new ∷ [])) }
    ensures somehow { IfOk result (AdvancesSomehow locus.old locus.new other.old other.new) }
    ensures at_word { OnErr result (LooksAtWord locus.old other.old) }
    ensures no_blocks { (n : NoBlocks) → IsErrOf result (PageFault.NoBlocks n) ↔ IsLookShortIn B.PageStore store.old locus.old.part other.old.part n }
    ensures turned { (n : NoBlocks) → IsErrOf result (PageFault.NoBlocks n) → TurnsPart other.old.part other.new.part }
    ensures locus_stays { OnErr result (locus.new ≡ locus.old) }
    ensures other_stays { OnErr result ((other.new.clock ≡ other.old.clock) × (other.new.wish ≡ other.old.wish) × (other.new.left ≡ other.old.left)) }
    ensures same_part { OnErr result (B.tells → part_of (S.word gate.now.supply) (B.words store.new) other.new.part ≡ part_of (S.word gate.now.supply) (B.words store.old) other.old.part) }
    ensures memory { LeavesMemoryIn (S.word gate.now.supply) B.PageStore other.old.part other.new.part store.old store.new }
    ensures pages { PagesOnce B.PageStore store.old store.new result }
    ensures entities { (locus.new.clock.entity ≡ locus.old.clock.entity) × (other.new.clock.entity ≡ other.old.clock.entity) }
{
    let named = named_by_snap(locus, instr);
    let entry = step_look(locus, other, instr, store, gate)?;
    note(locus, &entry, &named);
    note(other, &entry, &named);
    Ok(entry)
}
