//! What a sound state says of the cells that it has. The functions do nothing: the contract of each is a law.
#![tactic(auto)]

ghost use Rattle.std.specs.Prelude.{◌≤◌, ℕ, Bool, List};
ghost use Rattle.cell_blobs.specs.model_kernel.State.{KernelState, Supply};
ghost use Rattle.cell_blobs.specs.model_kernel.Soundness.{IsSound};
ghost use Rattle.cell_blobs.specs.cell_states.declared.cells.Cell.{Cell as ACell};
ghost use Rattle.cell_blobs.specs.cell_states.declared.cells.Part.{Part as APart};
ghost use Rattle.cell_blobs.specs.cell_states.Cells.{HasCell};
ghost use Rattle.cell_blobs.specs.Blobs.{IsFormed};
ghost use Rattle.cell_blob_laws.specs.Memories.{HasOwnMemory, blocks_named, pages_born};

pub use cell_blobs::{is_recorded, need_cell};

/// Each cell that a sound state has keeps what its blob needs to have a spelling, where a container's memory is its own.
pub fn formed_cell_law()
    ensures { (held : ℕ → Bool) (s : Supply) (words : ℕ → List ℕ) (w : KernelState) (c : ACell)
        → IsSound (λ x. (w x).cell) → HasCell s words w c → HasOwnMemory held c.part → IsFormed c.part }
{}

/// The page table of a container's own memory names no more blocks than the container has pages, and none where it isn't born.
pub fn few_blocks_law()
    ensures { (held : ℕ → Bool) (p : APart) → HasOwnMemory held p → blocks_named p ≤ pages_born p }
{}
