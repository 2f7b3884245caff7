//! A board over a kernel, workers on it, and what they leave.
ghost use Rattle.std.specs.Prelude.{◌≡◌, ◌∷◌, []};
ghost use Rattle.edge_disk.specs.MemoryDisk.{faults_of};
ghost use Rattle.edge_managers.specs.Managers.{counted_word, is_due};
ghost use Rattle.test_boards.specs.Caused.{HasCause, counts_before};

use crate::looks::Look;
use crate::quiet_disk::QuietDisk;
use crate::workers::{LookPass, QuietBoard, Work, finish, work_on};
use edge_managers::{CountedWords, EveryVersions, Gate};
use edge_streams::MemorySink;
use kernel_core::{Ended, Kernel};
use line_runs::put_traced;
use std::alloc::Global;
use std::marker::Brand;
use std::sync::Wait;
use std::test::Fail;
use std::thread;
use std::thread::Threads;
use thread_board::Bench;
use thread_workers::{Board, Opening, StepGate};

/// What workers left: the kernel's history, marks, stop and disk, the lines of the history, and the items of each worker's pass, behind which are
/// those of the one that finished.
#[derive(Drop)]
pub(crate) struct Left {
    pub(crate) ended: Ended<QuietDisk>,
    pub(crate) trace: Vec<u8>,
    pub(crate) items: Vec<Vec<Look>>,
}

impl Left {
    /// The items of a worker.
    pub(crate) fn of(&self, worker: usize) -> &[Look] {
        match self.items.get(worker) {
            Some(items) => items,
            None => &[],
        }
    }
}

/// The items of a pass.
fn items_of<B: Bench>(alloc: Global, pass: &LookPass<B>) -> Option<Vec<Look>> {
    let mut items = Vec::new(alloc);
    for line in pass.items() {
        items.push(Look::of(&line.item)).ok()?;
    }
    Some(items)
}

/// The lines of a kernel's history.
fn trace_of(alloc: Global, kernel: &Kernel<QuietDisk>) -> Option<Vec<u8>> {
    let mut sink = MemorySink::new(alloc, 1_000_000, Vec::new(alloc)).ok()?;
    put_traced(&mut sink, kernel.atlas(), kernel.history()).ok()?;
    sink.held().to_vec(alloc).ok()
}

/// What these passes leave of a board.
fn left_by<B: Board<QuietDisk> + Bench>(
    alloc: Global,
    board: QuietBoard<B>,
    passes: Vec<LookPass<B>>,
) -> Option<Left> {
    let mut items = Vec::new(alloc);
    for i in 0..passes.len() {
        items.push(items_of(alloc, &passes[i])?).ok()?;
    }
    let closed = board.close(passes);
    let trace = trace_of(alloc, &closed.kernel)?;
    Some(Left {
        ended: closed.kernel.into_ended(),
        trace,
        items,
    })
}

/// Workers on a board over a kernel, each in a thread of its own; behind them the caller goes on until no locus can step.
fn driven<B: Board<QuietDisk> + Bench + Send + Sync, R: Threads + Wait + Sync, G: StepGate + Sync>(
    rt: &R,
    alloc: Global,
    opening: Opening<QuietDisk>,
    gate: &G,
    work: Work<'_>,
) -> Option<Left>
    requires cells { (opening.cells ≡ B.values_table) × (B.first_values ≡ opening.kernel.parts.cells) }
    requires stores { (opening.stores ≡ B.store_table) × (B.first_stores ≡ opening.kernel.parts.store ∷ []) }
    requires history { (opening.history ≡ B.table) × (B.kept ≡ opening.kernel.parts.noted.entries) }
    requires bench { (opening.slate ≡ B.slate) × (opening.ledger ≡ B.name) × (B.all ≡ 1) × (B.parts ≡ 1) }
    requires managers { (B.begin.supply ≡ counted_word) × (B.begin.policy ≡ is_due) }
    requires cause { HasCause opening.kernel (λ d. faults_of d.memory) }
    requires counts { B.terms.counts ≡ counts_before opening.kernel (λ d. faults_of d.memory) }
    requires told { B.terms.told → ⊥ }
{
    let managers = Gate::new(CountedWords, EveryVersions);
    let Ok(board) = opening.named::<CountedWords, EveryVersions, B>(alloc, managers) else {
        return None;
    };
    let shared = &board;
    let each = |worker: usize| work_on(rt, shared, gate, work, worker);
    let mut passes = thread::map_indices(rt, alloc, work.workers, &each).ok()?;
    passes.push(finish(rt, &board)).ok()?;
    left_by(alloc, board, passes)
}

/// What workers leave of a kernel, which may have stopped before.
pub(crate) fn on_board<R: Threads + Wait + Sync, G: StepGate + Sync>(
    rt: &R,
    alloc: Global,
    kernel: Kernel<QuietDisk>,
    gate: &G,
    work: Work<'_>,
) -> Result<Left, Fail>
    requires cause { HasCause kernel (λ d. faults_of d.memory) }
{
    let Ok(opening) = Opening::new(alloc, kernel) else {
        return Err("memory".into());
    };
    Ok(driven::<Brand, R, G>(rt, alloc, opening, gate, work).ok_or("a board")?)
}
