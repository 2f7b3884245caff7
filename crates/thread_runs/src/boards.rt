// A board over a kernel, workers on it, and the kernel that it gives back.
ghost use Rattle.std.specs.Prelude.{◌≡◌, ◌<◌, ◌^◌, ◌∷◌, [], None, false, map};
ghost use Rattle.kernel_runs.specs.kernel_core_facts.Kernels.{Lives, StaysClean};
ghost use Rattle.kernel_runs.specs.kernel_invariant.Beginnings.{Beginning};
ghost use Rattle.kernel_runs.specs.kernel_run_facts.Alongs.{IsAlong};
ghost use Rattle.thread_workers.specs.thread_desk.Desks.{IsCountedFrom};
ghost use Rattle.thread_board.specs.Items.{Each};
ghost use Rattle.thread_runs.specs.Parts.{ArePartsOf, HaveWorked, IsPart};
ghost use Rattle.thread_runs.specs.Ran.{IsSpokenOf, counts_of};

use crate::workers::{LookPass, Worked, Worker};
use edge_disk::Disk;
use edge_managers::{Gate, Policy, Supplier};
use kernel_runs::Kernel;
use std::alloc::Global;
use std::marker::Brand;
use std::sync::{Mutex, Wait};
use std::thread;
use std::thread::Threads;
use thread_board::Bench;
use thread_workers::{Board, BoardFault, Locks, ManagedFault, Opening, StepGate};

/// What workers on a board leave: the kernel with its managers, and whether a worker or the board met want of memory.
#[derive(Drop)]
pub(crate) struct Left<D: Disk, S: Supplier, P: Policy> {
    pub(crate) kernel: Kernel<D>,
    pub(crate) gate: Gate<S, P>,
    pub(crate) lacked: bool,
}

/// The passes of workers.
#[derive(Drop)]
struct Passes<B: Bench> {
    passes: Vec<LookPass<B>>,
    lacked: bool,
}

/// The passes of what workers left, as many as there is room for, and whether one of them met want of memory.
fn passes_of<B: Bench>(alloc: Global, worked: Vec<Worked<B>>) -> Passes<B>
    ensures { result.lacked ≡ false → (result.passes.items ≡ map (λ w. w.pass) worked.items) × Each (λ w. w.lacked ≡ false) worked.items }
{
    let mut passes = Vec::new(alloc);
    let mut lacked = false;
    for one in worked {
        let Worked { pass, lacked: cut } = one;
        let kept = passes.push(pass).is_ok();
        lacked = lacked || cut || !kept;
    }
    Passes { passes, lacked }
}

/// All workers on a board, each in a thread of its own where one can be made. Where there is no memory for what they leave their passes are lost.
fn all_work<
    D: Disk + Send,
    S: Supplier + Send + Sync,
    P: Policy + Send + Sync,
    B: Board<D> + Bench + Send + Sync,
    R: Threads + Wait + Sync,
    G: StepGate + Sync,
>(rt: &R, alloc: Global, board: &Locks<D, S, P, B>, workers: u8, steps: &G) -> Passes<B>
    ensures { result.lacked ≡ false → ArePartsOf workers result.passes.items }
{
    let turns = Mutex::new(());
    let work = |number: usize| -> Worked<B>
        requires { (number < workers) × (workers < 2 ^ 8) }
        ensures { IsPart number workers result.lacked result.pass.items }
    {
        let worker = Worker {
            board,
            steps,
            number: number as u32,
            workers: u32::from(workers),
            turns: &turns,
        };
        worker.work(rt)
    };
    match thread::map_indices(rt, alloc, usize::from(workers), &work) {
        Ok(worked) => passes_of(alloc, worked),
        Err(_) => Passes {
            passes: Vec::new(alloc),
            lacked: true,
        },
    }
}

/// Workers on the board of an opening, under its name, until each has ended; and the kernel again. Where there is no memory for the board the kernel
/// is as it was. `b` is the beginning of the board's run: with a ghost value of its own the call owes its caller one fact, and the prover takes the
/// others apart no further.
fn on_board<
    D: Disk + Send,
    S: Supplier + Send + Sync,
    P: Policy + Send + Sync,
    R: Threads + Wait + Sync,
    G: StepGate + Sync,
    B: Board<D> + Bench + Send + Sync,
>(
    rt: &R,
    alloc: Global,
    opening: Opening<D>,
    gate: Gate<S, P>,
    workers: u8,
    steps: &G,
) -> Left<D, S, P>
    ghost b: { Beginning }
    requires begins { B.begin ≡ b }
    requires names { ((opening.cells ≡ B.values_table) × (B.first_values ≡ opening.kernel.parts.cells))
        × (((opening.stores ≡ B.store_table) × (B.first_stores ≡ opening.kernel.parts.store ∷ []))
        × (((opening.history ≡ B.table) × (B.kept ≡ opening.kernel.parts.noted.entries))
        × ((opening.slate ≡ B.slate) × ((opening.ledger ≡ B.name) × ((B.all ≡ 1) × (B.parts ≡ 1)))))) }
    requires keeps { S.keeps gate.supply × P.keeps gate.policy }
    requires managers { (B.begin.supply ≡ S.word gate.supply) × (B.begin.policy ≡ P.wish gate.policy) }
    requires counted { IsCountedFrom D.Disk B.terms.counts opening.kernel }
    requires clean { StaysClean D.Disk B.begin.supply opening.kernel }
    requires spoken { B.terms.told → IsSpokenOf D.Disk B.begin opening.kernel }
    ensures counted { IsCountedFrom D.Disk B.terms.counts result.kernel }
    ensures clean { StaysClean D.Disk B.begin.supply result.kernel }
    ensures run { B.terms.told → Lives D.Disk B.begin result.kernel }
    ensures along { B.terms.told → IsAlong D.Disk B.begin result.kernel }
    ensures worked { result.lacked ≡ false → HaveWorked B.terms.told B.begin workers result.kernel }
    ensures gate { result.gate ≡ gate }
{
    match opening.named::<S, P, B>(alloc, gate) {
        Ok(board) => {
            let Passes { passes, lacked } = all_work(rt, alloc, &board, workers, steps);
            let closed = board.close(passes);
            Left {
                kernel: closed.kernel,
                gate: closed.gate,
                lacked,
            }
        }
        Err(ManagedFault { kernel, gate }) => Left {
            kernel,
            gate,
            lacked: true,
        },
    }
}

/// Workers on a board over a kernel that goes on, behind looks at some loci. Where there is no memory for the board the kernel is as it was.
pub(crate) fn work_on_board<
    D: Disk + Send,
    S: Supplier + Send + Sync,
    P: Policy + Send + Sync,
    R: Threads + Wait + Sync,
    G: StepGate + Sync,
>(
    rt: &R,
    alloc: Global,
    kernel: Kernel<D>,
    gate: Gate<S, P>,
    workers: u8,
    steps: &G,
) -> Left<D, S, P>
    ghost b: { Beginning }
    requires keeps { S.keeps gate.supply × P.keeps gate.policy }
    requires managers { (b.supply ≡ S.word gate.supply) × (b.policy ≡ P.wish gate.policy) }
    requires going { kernel.stop ≡ None }
    requires clean { StaysClean D.Disk b.supply kernel }
    ensures counted { IsCountedFrom D.Disk (counts_of D.Disk kernel) result.kernel }
    ensures clean { StaysClean D.Disk b.supply result.kernel }
    ensures run { IsSpokenOf D.Disk b kernel → Lives D.Disk b result.kernel }
    ensures along { IsSpokenOf D.Disk b kernel → IsAlong D.Disk b result.kernel }
    ensures worked { result.lacked ≡ false → HaveWorked (IsSpokenOf D.Disk b kernel) b workers result.kernel }
    ensures gate { result.gate ≡ gate }
{
    match Opening::new(alloc, kernel) {
        Ok(opening) => on_board::<D, S, P, R, G, Brand>(rt, alloc, opening, gate, workers, steps),
        Err(BoardFault { kernel }) => Left {
            kernel,
            gate,
            lacked: true,
        },
    }
}
