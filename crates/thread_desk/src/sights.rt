// A cell under its lock that says what its entity is.
ghost use Rattle.std.specs.Prelude.{◌≡◌, ℕ, List, None, Some, IfErr, IfOk, slice_get};
ghost use mathlib.Core.List.{IsPrefix};
ghost use Rattle.act_look.specs.act_alone.Loci.{locus_of};
ghost use Rattle.act_look.specs.act_alone.declared.loci.Locus.{Locus as ALocus};
ghost use Rattle.act_look.specs.model_acts.Views.{IsReadyLocus};
ghost use Rattle.kernel_core.specs.kernel_core_facts.cell_states.declared.cells.Part.TheVariants as APart;
ghost use Rattle.kernel_core.specs.kernel_core_facts.cell_plans.Plans.{idle_of, IsPlanned};
ghost use Rattle.kernel_core.specs.kernel_core_facts.cell_states.Cells.{part_of};
ghost use Rattle.kernel_core.specs.kernel_core_facts.table_births.model_kernel.Histories.{writes};
ghost use Rattle.kernel_core.specs.kernel_core_facts.table_births.model_kernel.State.{Supply};
ghost use Rattle.thread_history.specs.Rules.{concerning};
ghost use Rattle.thread_desk.specs.Sights.{AreKnown, IsSighted, sighted};

use crate::names::Board;
use base_types::Entry;
use edge_disk::Disk;
use kernel_core::{Cell, Idle, Store};
use std::marker::Model;
use std::snapshot::Snapshot;
use table_laws::{Plan, next_plan};
use thread_cells::LockedCell;
use thread_history::{HistoryAuthority, Run};
use thread_ties::{Authority, Bond};

/// The next step of a lent cell's locus, or why it makes none.
fn plan_of<B: Bond<Cell> + Run<Entry>>(cell: &LockedCell<B>) -> Result<Plan, Idle>
    requires ready { (l : ALocus) → cell.now.cell.part ≡ APart.Locus (Some l) → IsReadyLocus (locus_of l) }
    ensures idle { (s : Supply) → (words : ℕ → List ℕ) → IfErr result (λ why. idle_of cell.now.cell.left (part_of s words cell.now.cell.part) ≡ Some why) }
    ensures goes { (s : Supply) → (words : ℕ → List ℕ) → IfOk result (λ _. idle_of cell.now.cell.left (part_of s words cell.now.cell.part) ≡ None) }
    ensures plans { IfOk result (λ p. IsPlanned cell.now.cell p.instr p.reach) }
{
    next_plan(&cell.cell)
}

/// A cell as it lies under its lock, with its sides of the history and of what the desk knows. Whenever the lock is free the entity is exactly
/// what the front of the history that its share knows makes it: its state, version and clock, with the words in the blocks of the store as it
/// was when the cell was let go. The store takes no room here. Contracts see the number, the cell, the entries after the kept ones that the
/// share knows, and that store.
#[derive(Drop)]
pub struct SightedCell<D: Disk, B: Board<D>> {
    pub locked: LockedCell<B>,
    pub seen: Snapshot<Store<D>>,
}

impl<D: Disk, B: Board<D>> Model for SightedCell<D, B> {
    ghost use Rattle.thread_desk.specs.Sights.{IsSighted, Sighted, sighted};

    ghost Value = { Sighted D };

    ghost view = { λ s. sighted s.locked s.seen.value };

    ghost invariant = { λ s. IsSighted D.Disk B.terms.told B.begin B.kept (sighted s.locked s.seen.value) };
}

impl<D: Disk, B: Board<D>> SightedCell<D, B> {
    /// The number of the cell's entity.
    pub fn number(&self) -> u8
        ensures { result ≡ self.now.number }
    {
        self.locked.cell.clock.entity.number()
    }

    /// The next step of the cell's locus, or why it makes none, under this lock alone. By its plan the cells are lent that the step touches.
    pub fn plan(&self) -> Result<Plan, Idle>
        ensures idle { (s : Supply) → (words : ℕ → List ℕ) → IfErr result (λ why. idle_of self.now.cell.left (part_of s words self.now.cell.part) ≡ Some why) }
        ensures goes { (s : Supply) → (words : ℕ → List ℕ) → IfOk result (λ _. idle_of self.now.cell.left (part_of s words self.now.cell.part) ≡ None) }
        ensures plans { IfOk result (λ p. IsPlanned self.now.cell p.instr p.reach) }
    {
        plan_of(&self.locked)
    }
}

/// Tells a lent cell the present history, of which it is what the cells are that are known: no entry after those that its share knew writes its
/// entity. So the cell may be let go beside this store.
pub fn hear_lent<D: Disk, B: Board<D>>(
    all: &mut Authority<Cell, B>,
    annals: &mut HistoryAuthority<Entry, B>,
    store: &Store<D>,
    cell: &mut LockedCell<B>,
) -> Snapshot<Store<D>>
    requires known { AreKnown D.Disk B.terms.told B.begin B.kept store.now all.old annals.old }
    ensures same { (all.new ≡ all.old) × (annals.new ≡ annals.old) }
    ensures cell { cell.new ≡ record { number = cell.old.number; cell = cell.old.cell; known = annals.old } }
    ensures stands { slice_get all.old cell.old.number ≡ Some cell.old.cell }
    ensures begins { IsPrefix cell.old.known annals.old }
    ensures unwritten { concerning writes cell.old.number cell.old.known ≡ concerning writes cell.old.number annals.old }
    ensures seen { result.value ≡ store.now }
    ensures sighted { IsSighted D.Disk B.terms.told B.begin B.kept (sighted cell.new store.now) }
{
    cell.meet(all);
    annals.note(&mut cell.share);
    Snapshot::of(store)
}
