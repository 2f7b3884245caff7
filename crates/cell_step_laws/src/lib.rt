//! What a step of a locus touches, and what it leaves of wishes: laws, without code.
#![tactic(auto)]

ghost use Rattle.std.specs.Prelude.{◌≡◌, ◌⊎◌, ◌≤◌, ℕ, List, Option, Some, false, true};
ghost use Rattle.plain_states.specs.base_types.declared.histories.Entry.{Entry};
ghost use Rattle.plain_states.specs.base_types.declared.histories.Event.TheVariants.{Step as StepEvent};
ghost use Rattle.plain_states.specs.base_types.declared.instructions.Instr.{Instr as AnInstr};
ghost use Rattle.plain_states.specs.model_kernel.Histories.{after_step, locus_in, writes, Run};
ghost use Rattle.plain_states.specs.model_kernel.Soundness.{IsSound};
ghost use Rattle.plain_states.specs.model_kernel.State.{KernelState, LocusState, Supply};
ghost use Rattle.plain_states.specs.model_kernel.Steps.{atlas_in, step};
ghost use Rattle.cell_newborns.specs.cell_clocks.Clocks.{HasClock};
ghost use Rattle.cell_newborns.specs.cell_states.declared.cells.Cell.{Cell as ACell};
ghost use Rattle.cell_newborns.specs.cell_states.Cells.{HasCell};
ghost use Rattle.cell_newborns.specs.cell_states.Wishes.{HasWish};
ghost use Rattle.cell_plans.specs.Plans.{IsPlanned};
ghost use Rattle.cell_plans.specs.declared.plans.Reach.{Reach as AReach};
ghost use Rattle.cell_wish_laws.specs.Founded.{IsFoundedCell, IsFoundedIn};
ghost use Rattle.cell_step_laws.specs.Touching.{run_with, IsNoted, IsTouchedBy};

mod plans;

pub use plans::{
    sound_states_fit_calls, sound_states_have_numbers_around, sound_states_leave_next_unborn,
    sound_states_may_map, sound_states_show_containers, sound_states_show_directory,
};

/// A step writes its locus, and besides it at most what its plan says that it touches.
pub fn planned_touches_law()
    ensures { (s : Supply) (words : ℕ → List ℕ) (w v : KernelState) (e : Entry) (c : ACell) (i : AnInstr) (r : AReach) (x : ℕ)
        → IsPlanned c i r → HasCell s words w c → step s c.clock.entity w ≡ Some (e, v) → writes e x ≡ true
        → (x ≡ c.clock.entity) ⊎ IsTouchedBy r (atlas_in (w 0).cell) x }
{}

/// The entry of a step names the locus, which the step writes. What a step doesn't write stays, and so does, in a sound state, each
/// number past those of entities.
pub fn step_leaves_law()
    ensures entry { (s : Supply) (me : ℕ) (w v : KernelState) (e : Entry) → step s me w ≡ Some (e, v)
        → (e.actor ≡ me) × (e.event ≡ StepEvent) × (writes e me ≡ true) }
    ensures rest { (s : Supply) (me : ℕ) (w v : KernelState) (e : Entry) → step s me w ≡ Some (e, v)
        → (x : ℕ) → writes e x ≡ false → v x ≡ w x }
    ensures past { (s : Supply) (me : ℕ) (w v : KernelState) (e : Entry) → IsSound (λ x. (w x).cell) → step s me w ≡ Some (e, v)
        → (x : ℕ) → 64 ≤ x → v x ≡ w x }
{}

/// After a step an entity that a step wrote or a snap named since its newest record has changed since, if that was so before; and so
/// has each cell of it.
pub fn founded_step_law()
    ensures runs { (s : Supply) (r : Run) (me : ℕ) (v : KernelState) (e : Entry) (x : ℕ) → step s me r.state ≡ Some (e, v)
        → IsFoundedIn r x → IsFoundedIn (after_step r e (locus_in (r.state me).cell) v) x }
    ensures cells { (s : Supply) (steps : ℕ) (r : Run) (me : ℕ) (v : KernelState) (e : Entry) (c d : ACell) → step s me r.state ≡ Some (e, v)
        → d.clock.entity ≡ c.clock.entity → HasClock r.state c.clock → HasWish steps r c → HasClock v d.clock
        → HasWish steps (after_step r e (locus_in (r.state me).cell) v) d → IsFoundedCell c → IsFoundedCell d }
{}

/// What a step notes in the wish of a cell, and how many steps it leaves.
pub fn noted_wish_law()
    ensures { (steps : ℕ) (r : Run) (e : Entry) (l : Option LocusState) (v : KernelState) (c d : ACell) → d.clock.entity ≡ c.clock.entity
        → HasWish steps r c → HasWish steps (after_step r e l v) d → IsNoted e l c d }
{}

/// There is a run that has the wishes of given cells, one at each number.
pub fn wished_run_law()
    ensures { (count : ℕ) (w : KernelState) (cells : ℕ → ACell) (c : ACell) → cells c.clock.entity ≡ c → c.left ≤ count
        → HasWish count (run_with count w cells) c }
{}
