//! The cells of the kernel: a table of 64, each at its entity's number, and what is true of it whatever a page store tells.
//!
//! The table is a slice, so that a caller can lend a cell of it beside other things. The function does nothing: its contract is the law.
#![tactic(auto)]

ghost use Rattle.std.specs.Prelude.{◌≤◌, ℕ, List, length};
ghost use Rattle.cell_steps.specs.base_types.declared.histories.Entry.{Entry};
ghost use Rattle.cell_steps.specs.model_kernel.State.{Supply};
ghost use Rattle.cell_steps.specs.cell_states.declared.cells.Cell.{Cell as ACell};
ghost use Rattle.cell_steps.specs.Advances.{StepsCells};
ghost use Rattle.table_laws.specs.Lending.{ForPairs, Lends};
ghost use Rattle.table_laws.specs.Quiet.{GoesQuietly};
ghost use Rattle.table_laws.specs.Steps.{StepsQuietly};
ghost use Rattle.table_laws.specs.Tables.{AreNumbered};

pub use cell_blob_laws::{is_recorded, need_cell};
pub use cell_steps::{
    Act, Cell, Idle, Part, Plan, Reach, advance_alone, advance_barren, advance_beside,
    advance_looking, advance_making, advance_mapping, advance_spawning, next_plan,
};

/// A step over at most three cells that are lent from a table, which leaves all blocks as they are, is the step over the table, which it leaves in order.
pub fn lent_step_law()
    ensures { (me : ℕ) (cs cs' old new : List ACell) (e : Entry) → ((s : Supply) (words : ℕ → List ℕ) → StepsCells s words words me old new e)
        → Lends cs cs' old new → length old ≤ 3 → AreNumbered cs → ForPairs GoesQuietly old new → StepsQuietly me cs cs' e }
{}
