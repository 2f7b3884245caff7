// The step over the store of an image, as the image's books and its disk tell of it.
ghost use Rattle.std.specs.Prelude.{◌≡◌, ◌↔◌, ℕ, List, Some, IfOk, IsErrOf, slice_get};
ghost use Rattle.page_store.specs.declared.faults.PageFault.{PageFault as AFault};
ghost use Rattle.page_store.specs.model_kernel.State.{Supply};
ghost use Rattle.thread_cell_steps.specs.table_laws.edge_disk.declared.disk.NoBlocks.{NoBlocks};
ghost use Rattle.thread_cell_steps.specs.table_laws.cell_plans.Plans.{idle_of};
ghost use Rattle.thread_cell_steps.specs.table_laws.cell_plans.declared.idle.Idle.{Idle as AnIdle};
ghost use Rattle.thread_cell_steps.specs.table_laws.Steps.{GoesOn, StaysAtFault};
ghost use Rattle.thread_cell_steps.specs.table_laws.Tables.{left_of, state_in, AreClean, AreFewWrites, IsOrderly};
ghost use Rattle.thread_cell_steps.specs.table_steps.Wanting.{HasNext, IsStepShort};
ghost use Rattle.kernel_core.specs.kernel_core_facts.kernel_record_facts.Cells.{words_on};
ghost use Rattle.kernel_core.specs.kernel_core_facts.store_books.Books.{free_in, kept_names};
ghost use Rattle.kernel_core.specs.kernel_core_facts.store_facts.State.{books};

use crate::advancing::advance_lent;
use base_types::Entity;
use edge_disk::Disk;
use edge_managers::{Gate, Policy, Supplier};
use kernel_core::Store;
use page_store::PageFault;
use thread_cell_steps::{Cell, Made, StepFault};

/// One step of the locus with this number over the table and the store of an image. `Idle` and want of blocks come exactly where `advance`
/// of `table_steps` tells them, and the step is the model's where the disk tells its content.
///
/// It takes no memory, and makes at most one read and one write of the disk, of a page each.
pub fn advance_over_image<D: Disk, S: Supplier, P: Policy>(
    cells: &mut [Cell],
    me: Entity,
    store: &mut Store<D>,
    gate: &Gate<S, P>,
) -> Result<Made, StepFault>
    requires keeps { S.keeps gate.now.supply }
    requires orderly { IsOrderly (books store.old).held cells.old }
    requires few { AreFewWrites cells.old }
    requires clean { D.tells → AreClean (S.word gate.now.supply) (words_on (D.reading store.old.disk)) cells.old }
    ensures idle { (s : Supply) → (words : ℕ → List ℕ) → (why : AnIdle)
        → IsErrOf result (StepFault.Idle why) ↔ (idle_of (left_of (slice_get cells.old me)) (state_in s words cells.old me).cell ≡ Some why) }
    ensures still { (why : AnIdle) → IsErrOf result (StepFault.Idle why) → (cells.new ≡ cells.old) × (store.new ≡ store.old) }
    ensures step { D.tells → IfOk result (λ made. GoesOn (S.word gate.now.supply) (words_on (D.reading store.old.disk)) (words_on (D.reading store.new.disk)) me cells.old cells.new made.entry) }
    ensures instr { IfOk result (λ made. HasNext me cells.old made.instr) }
    ensures orderly { IsOrderly (books store.new).held cells.new }
    ensures faulted { (f : AFault) → IsErrOf result (StepFault.Paging f)
        → StaysAtFault D.tells (S.word gate.now.supply) (words_on (D.reading store.old.disk)) (words_on (D.reading store.new.disk)) cells.old cells.new }
    ensures no_blocks { (n : NoBlocks) → IsErrOf result (StepFault.Paging (PageFault.NoBlocks n)) ↔ IsStepShort (kept_names (books store.old)) (free_in (books store.old)) me cells.old n }
{
    advance_lent(cells, me, store, gate)
}
