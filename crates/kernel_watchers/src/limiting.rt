// A run of so many steps.
ghost use Rattle.std.specs.Prelude.{◌≡◌, ◌+◌, ◌-◌, ◌*◌, ◌^◌, ◌<◌, ℕ, [], None, IfErr, cond, count_by, length, nat_lt, slice_get};
ghost use Rattle.kernel_runs.specs.model_births.Fitting.{Fits};
ghost use Rattle.kernel_runs.specs.kernel_commit_facts.Pieces.{CountsWithin};
ghost use Rattle.kernel_runs.specs.kernel_commits.Telling.{Tells, TriesByAnswer};
ghost use Rattle.kernel_runs.specs.kernel_core_facts.Kernels.{Lives, StaysClean};
ghost use Rattle.kernel_runs.specs.kernel_laws.Opening.{empty_script, with_script};
ghost use Rattle.kernel_runs.specs.kernel_invariant.Beginnings.{Beginning};
ghost use Rattle.kernel_runs.specs.kernel_run_facts.Running.{IsCauseOf, look_most};
ghost use Rattle.kernel_runs.specs.kernel_run_facts.Watching.{answer_of};
ghost use Rattle.script_types.specs.Rules.{IsScript};
ghost use Rattle.script_types.specs.Scripts.{tables_of};
ghost use Rattle.kernel_runs.specs.table_births.Births.{atlas_state_in};
ghost use Rattle.kernel_runs.specs.kernel_invariant.Marks.{is_step};
ghost use Rattle.kernel_watchers.specs.Steps.{IsWithin, StepsLeave, steps_at};

use base_types::{Entry, Event};
use edge_disk::Disk;
use edge_managers::{Gate, Policy, Supplier};
use kernel_runs::{Halt, Kernel, Watcher, run_watched};
use script_types::Script;
use std::marker::{Brand, PhantomData};

// How many steps a run may make, as a type: whoever makes the watcher picks it at `Brand`.
trait MostSteps {
    ghost steps: { ℕ };
}

impl MostSteps for Brand {
    ghost steps = { 1 };
}

// Halts a run once so many steps are made.
#[derive(Drop)]
struct StepLimit<N> {
    // the steps that may be made still
    left: u64,
    // the entries that were noted when it was asked last
    noted: usize,
    of: PhantomData<N>,
}

// One for a step, none for another event.
fn step_count(entry: &Entry) -> u64
    ensures { result ≡ cond (is_step entry.now) 1 0 }
{
    match entry.event {
        Event::Step => 1,
        Event::Birth | Event::Snap | Event::Stable | Event::Tried => 0,
    }
}

/// One where a step stands at this place of a history, and none else.
pub fn step_count_at(history: &[Entry], at: usize) -> u64
    ensures { result ≡ steps_at (slice_get history.now at) }
{
    match history.get(at) {
        Some(entry) => step_count(entry),
        None => 0,
    }
}

impl<N: MostSteps> StepLimit<N> {
    fn new(steps: u64) -> Self
        ensures left { result.left ≡ steps }
        ensures noted { result.noted ≡ 0 }
    {
        StepLimit {
            left: steps,
            noted: 0,
            of: PhantomData,
        }
    }

    // A look notes its step first, and the births have none: so one entry tells.
    fn counts(&mut self, history: &[Entry]) -> bool
        ensures left { self.new.left ≡ self.old.left - steps_at (slice_get history.now self.old.noted) }
        ensures noted { self.new.noted ≡ length history.now }
        ensures answer { result ≡ nat_lt 0 self.new.left }
    {
        let made = step_count_at(history, self.noted);
        self.left = self.left.saturating_sub(made);
        self.noted = history.len();
        0 < self.left
    }
}

impl<D: Disk, N: MostSteps> Watcher<D> for StepLimit<N> {
    ghost watches = { λ w b es. IsWithin N.steps w.left w.noted es };

    ghost leaves = { λ w b es. count_by is_step es ≡ N.steps };

    fn after(&mut self, kernel: &mut Kernel<D>) -> bool {
        self.counts(kernel.history())
    }
}

// The same for a number of steps that stands in a type, too.
fn limited<D: Disk, S: Supplier, P: Policy, N: MostSteps>(
    kernel: &mut Kernel<D>,
    script: &Script,
    gate: &Gate<S, P>,
    steps: u64,
) -> Result<(), Halt>
    requires keeps { S.keeps gate.now.supply }
    requires wishes { P.keeps gate.now.policy }
    requires clean { StaysClean D.Disk (S.word gate.now.supply) kernel.old }
    requires allowed { IsScript (tables_of script.now) }
    requires fits { Fits (atlas_state_in kernel.old.parts.cells) (tables_of script.now) }
    requires first { kernel.old.parts.noted.entries ≡ [] }
    requires some { 0 < steps }
    requires same { steps ≡ N.steps }
    ensures ends { kernel.old.stop ≡ None → Tells (answer_of result) kernel.new.stop }
    ensures caused { kernel.old.stop ≡ None → IfErr (answer_of result) (IsCauseOf D.Disk (P.wish gate.now.policy) kernel.old.parts kernel.new.parts) }
    ensures tries { TriesByAnswer (answer_of result) kernel.old.parts.noted.entries kernel.new.parts.noted.entries }
    ensures clean { StaysClean D.Disk (S.word gate.now.supply) kernel.new }
    ensures counts { CountsWithin D.Disk (64 * 1556 + length script.now.order.items * look_most + (2 ^ 22 + 1) * (23 * look_most)) kernel.old.parts.store kernel.new.parts.store }
    ensures run { D.tells → kernel.old.stop ≡ None → (b : Beginning) → b.supply ≡ S.word gate.now.supply → b.policy ≡ P.wish gate.now.policy
        → b.script ≡ tables_of script.now
        → Lives D.Disk (with_script b (empty_script b.script.steps)) kernel.old
        → StepsLeave D.Disk b steps result kernel.new }
{
    let mut limit = StepLimit::<N>::new(steps);
    run_watched(kernel, script, gate, &mut limit)
}

/// Runs a script until so many steps are made, at least one. `Halt::Watcher` comes where they are: the history is the births with their Stable and the
/// looks of a front of the course, and exactly so many steps stand in it. Where the run comes to its end before, fewer are made.
///
/// All else is as for `run`: why the kernel stops, what it notes, and what it costs.
pub fn run_steps<D: Disk, S: Supplier, P: Policy>(
    kernel: &mut Kernel<D>,
    script: &Script,
    gate: &Gate<S, P>,
    steps: u64,
) -> Result<(), Halt>
    requires keeps { S.keeps gate.now.supply }
    requires wishes { P.keeps gate.now.policy }
    requires clean { StaysClean D.Disk (S.word gate.now.supply) kernel.old }
    requires allowed { IsScript (tables_of script.now) }
    requires fits { Fits (atlas_state_in kernel.old.parts.cells) (tables_of script.now) }
    requires first { kernel.old.parts.noted.entries ≡ [] }
    requires some { 0 < steps }
    ensures ends { kernel.old.stop ≡ None → Tells (answer_of result) kernel.new.stop }
    ensures caused { kernel.old.stop ≡ None → IfErr (answer_of result) (IsCauseOf D.Disk (P.wish gate.now.policy) kernel.old.parts kernel.new.parts) }
    ensures tries { TriesByAnswer (answer_of result) kernel.old.parts.noted.entries kernel.new.parts.noted.entries }
    ensures clean { StaysClean D.Disk (S.word gate.now.supply) kernel.new }
    ensures counts { CountsWithin D.Disk (64 * 1556 + length script.now.order.items * look_most + (2 ^ 22 + 1) * (23 * look_most)) kernel.old.parts.store kernel.new.parts.store }
    ensures run { D.tells → kernel.old.stop ≡ None → (b : Beginning) → b.supply ≡ S.word gate.now.supply → b.policy ≡ P.wish gate.now.policy
        → b.script ≡ tables_of script.now
        → Lives D.Disk (with_script b (empty_script b.script.steps)) kernel.old
        → StepsLeave D.Disk b steps result kernel.new }
{
    limited::<D, S, P, Brand>(kernel, script, gate, steps)
}
