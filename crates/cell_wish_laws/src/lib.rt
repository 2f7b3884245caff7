//! Laws of wishes for snapshots, in runs and in cells. The functions do nothing: the contract of each is a law.
#![tactic(auto)]

ghost use Rattle.std.specs.Prelude.{◌≡◌, ℕ, List, Some, true, false};
ghost use Rattle.cell_states.specs.base_types.declared.histories.Entry.{Entry};
ghost use Rattle.cell_states.specs.base_types.declared.histories.Event.TheVariants.{Birth as BirthEvent, Snap as SnapEvent, Stable as StableEvent};
ghost use Rattle.model_run_laws.specs.model_kernel.State.{KernelState, Supply};
ghost use Rattle.model_run_laws.specs.model_kernel.Scripts.{Script};
ghost use Rattle.model_run_laws.specs.model_kernel.Steps.{step};
ghost use Rattle.model_run_laws.specs.model_kernel.Histories.{Policy, Run, IsLegalRun, after_step, goes_on, has_changed, has_wish, locus_in, run_after, start_run, writes};
ghost use Rattle.cell_states.specs.declared.cells.Cell.{Cell as ACell};
ghost use Rattle.cell_states.specs.Cells.{HasCell};
ghost use Rattle.cell_states.specs.Wishes.{HasWish};
ghost use Rattle.cell_wish_laws.specs.Founded.{IsFoundedCell, IsFoundedIn, IsRecordMark, IsRecordedNow, TakesBirth};

pub use cell_states::{Cell, Part, Storage, Wish};

/// In a legal run an entity that a step wrote or a snap named since its newest commit has changed since, so each entity with an
/// open wish has; and each cell that the run has says the same.
pub fn founded_wish_law()
    ensures runs { (s : Supply) (policy : Policy) (script : Script) (w : KernelState) (es : List Entry) (x : ℕ)
        → IsLegalRun s policy w script es → IsFoundedIn (run_after s script (start_run w) es) x }
    ensures wishes { (s : Supply) (policy : Policy) (script : Script) (w : KernelState) (es : List Entry) (x : ℕ)
        → IsLegalRun s policy w script es → has_wish policy (run_after s script (start_run w) es) x ≡ true
        → has_changed (run_after s script (start_run w) es) x ≡ true }
    ensures cells { (s : Supply) (policy : Policy) (script : Script) (w : KernelState) (es : List Entry)
        (words : ℕ → List ℕ) (steps : ℕ) (c : ACell) → IsLegalRun s policy w script es
        → HasCell s words (run_after s script (start_run w) es).state c
        → HasWish steps (run_after s script (start_run w) es) c → IsFoundedCell c }
{}

/// A run goes on after a step of a locus: its state is the one that the step leaves, and it has the wish of each cell that the
/// run right after the step has.
pub fn step_run_law()
    ensures state { (s : Supply) (script : Script) (r : Run) (me : ℕ) (e : Entry) (v : KernelState)
        → step s me r.state ≡ Some (e, v) → (goes_on s script r e).state ≡ v }
    ensures wish { (s : Supply) (script : Script) (r : Run) (me : ℕ) (e : Entry) (v : KernelState) (steps : ℕ) (c : ACell)
        → step s me r.state ≡ Some (e, v) → HasWish steps (after_step r e (locus_in (r.state me).cell) v) c
        → HasWish steps (goes_on s script r e) c }
{}

/// A cell that a step doesn't write stays as it is: the run after the step has it, with its wish and its steps left.
pub fn unwritten_cell_law()
    ensures cell { (s : Supply) (script : Script) (r : Run) (me : ℕ) (e : Entry) (v : KernelState) (words : ℕ → List ℕ) (c : ACell)
        → step s me r.state ≡ Some (e, v) → writes e c.clock.entity ≡ false → HasCell s words r.state c
        → HasCell s words (goes_on s script r e).state c }
    ensures wish { (s : Supply) (script : Script) (r : Run) (me : ℕ) (e : Entry) (v : KernelState) (steps : ℕ) (c : ACell)
        → step s me r.state ≡ Some (e, v) → writes e c.clock.entity ≡ false → HasWish steps r c
        → HasWish steps (goes_on s script r e) c }
{}

/// A run goes on after a Snap or a Stable: its state stays. The entity of the Snap, and after a Stable each entity, has its newest
/// record then; other wishes stay, and after a Stable those of cells that haven't changed since their newest record.
pub fn recorded_wish_law()
    ensures state { (s : Supply) (script : Script) (r : Run) (e : Entry) → IsRecordMark e.event
        → (goes_on s script r e).state ≡ r.state }
    ensures snap { (s : Supply) (script : Script) (r : Run) (e : Entry) (words : ℕ → List ℕ) (steps : ℕ) (c d : ACell)
        → e.event ≡ SnapEvent → e.actor ≡ c.clock.entity → HasCell s words r.state c → HasWish steps r c → IsRecordedNow c d
        → HasWish steps (goes_on s script r e) d }
    ensures others { (s : Supply) (script : Script) (r : Run) (e : Entry) (steps : ℕ) (c : ACell)
        → e.event ≡ SnapEvent → (c.clock.entity ≡ e.actor → ⊥) → HasWish steps r c → HasWish steps (goes_on s script r e) c }
    ensures stable { (s : Supply) (script : Script) (r : Run) (e : Entry) (words : ℕ → List ℕ) (steps : ℕ) (c d : ACell)
        → e.event ≡ StableEvent → HasCell s words r.state c → HasWish steps r c → IsRecordedNow c d
        → HasWish steps (goes_on s script r e) d }
    ensures settled { (s : Supply) (script : Script) (r : Run) (e : Entry) (words : ℕ → List ℕ) (steps : ℕ) (c : ACell)
        → e.event ≡ StableEvent → HasCell s words r.state c → HasWish steps r c → IsFoundedCell c
        → c.clock.version ≡ c.wish.newest → HasWish steps (goes_on s script r e) c }
{}

/// A run goes on after a birth: it has the wish of each cell that has taken the birth in.
pub fn birth_wish_law()
    ensures { (s : Supply) (script : Script) (r : Run) (e : Entry) (steps : ℕ) (c d : ACell)
        → e.event ≡ BirthEvent → HasWish steps r c → TakesBirth (writes e c.clock.entity) c d
        → HasWish steps (goes_on s script r e) d }
{}
