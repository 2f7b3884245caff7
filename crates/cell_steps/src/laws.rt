// Laws of cells at a step. The functions do nothing: the contract of each is a law.
ghost use Rattle.std.specs.Prelude.{◌≡◌, ℕ, Bool, List, Some, false};
ghost use Rattle.base_types.specs.declared.histories.Entry.{Entry as AnEntry};
ghost use Rattle.page_store.specs.model_kernel.Histories.{noting, writes, Run};
ghost use Rattle.page_store.specs.model_kernel.State.{KernelState, Supply};
ghost use Rattle.page_store.specs.model_kernel.Steps.{step};
ghost use Rattle.cell_looks.specs.cell_states.Cells.{HasCell};
ghost use Rattle.cell_looks.specs.cell_states.Wishes.{HasWish};
ghost use Rattle.cell_looks.specs.cell_states.declared.cells.Cell.{Cell as ACell};
ghost use Rattle.cell_looks.specs.cell_states.declared.cells.Part.{Part as APart};
ghost use Rattle.cell_looks.specs.Looking.{MayLook};
ghost use Rattle.cell_plans.specs.cell_calls.Besides.{KeepsMemory};

use page_store::PageStore;

/// A cell whose entity a step doesn't write is as it was.
pub fn unlent_cells_law()
    ensures { (s : Supply) (words : ℕ → List ℕ) (me : ℕ) (w v : KernelState) (e : AnEntry) (c : ACell) → step s me w ≡ Some (e, v)
        → writes e c.clock.entity ≡ false → HasCell s words w c → HasCell s words v c }
{}

/// A wish is the same once it is noted which entities are full.
pub fn noting_law()
    ensures { (steps : ℕ) (r : Run) (c : ACell) → HasWish steps r c → HasWish steps (noting r) c }
{}

/// A part that keeps its memory may be looked at as before.
pub fn kept_memory_law<B: PageStore>()
    ensures { (s : Supply) (held : ℕ → Bool) (words : ℕ → List ℕ) (p q : APart)
        → KeepsMemory p q → MayLook s B.tells held words p → MayLook s B.tells held words q }
{}
