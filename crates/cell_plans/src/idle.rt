// Loci that make no step.
ghost use Rattle.std.specs.Prelude.{◌≡◌, ℕ, List};
ghost use Rattle.act_look.specs.model_kernel.State.{Supply};
ghost use Rattle.cell_calls.specs.cell_states.Cells.{part_of};
ghost use Rattle.cell_plans.specs.Plans.{idle_by, idle_of};

use base_types::Condition;
use cell_calls::{Cell, Part, Storage};

/// Why a locus can't step.
#[derive(Clone, Copy, PartialEq, Eq, Debug)]
pub enum Idle {
    /// It isn't born, or the entity is no locus.
    Absent,
    Halted,
    Stopped,
    /// It has no step left.
    Spent,
}

fn idle_from(left: u32, condition: Condition) -> Option<Idle>
    ensures { result ≡ idle_by left condition }
{
    match condition {
        Condition::Halted => Some(Idle::Halted),
        Condition::Stopped => Some(Idle::Stopped),
        Condition::Running => { if left == 0 { Some(Idle::Spent) } else { None } }
    }
}

/// Why the locus of the cell can't step, if it can't: absent, halted, stopped or out of steps, in this order.
pub fn why_idle(cell: &Cell) -> Option<Idle>
    ensures { (s : Supply) → (words : ℕ → List ℕ) → result ≡ idle_of cell.now.left (part_of s words cell.now.part) }
{
    match &cell.part {
        Part::Locus(Some(locus)) => idle_from(cell.left, locus.condition),
        Part::Locus(None) => Some(Idle::Absent),
        Part::Container(Storage { head: Some(_), .. }) => Some(Idle::Absent),
        Part::Container(Storage { head: None, .. }) => Some(Idle::Absent),
        Part::Atlas(_) => Some(Idle::Absent),
    }
}
