//! Workers on a board, each of which makes rounds over its loci.
use crate::looks::{Went, went_of};
use crate::quiet_disk::QuietDisk;
use base_types::Entity;
use edge_managers::{CountedWords, EveryVersions};
use std::sync::Wait;
use thread_board::{Bench, Pass};
use thread_workers::{Board, Locks, LookItem, OpenGate, StepGate, Unwritten, step};

pub(crate) type QuietBoard<B> = Locks<QuietDisk, CountedWords, EveryVersions, B>;

pub(crate) type LookPass<B> = Pass<Unwritten, LookItem, B>;

/// The numbers of all loci.
pub(crate) const LOCI: &[u8] = &[
    41, 42, 43, 44, 45, 46, 47, 48, 49, 50, 51, 52, 53, 54, 55, 56, 57, 58, 59, 60, 61, 62, 63,
];

/// So many workers share these loci, each of which is looked at so many times.
#[derive(Clone, Copy)]
pub(crate) struct Work<'a> {
    pub(crate) workers: usize,
    pub(crate) loci: &'a [u8],
    pub(crate) rounds: u32,
}

impl<'a> Work<'a> {
    /// All loci, shared by so many workers.
    pub(crate) fn of(workers: usize, rounds: u32) -> Work<'a> {
        Work {
            workers,
            loci: LOCI,
            rounds,
        }
    }
}

/// How the last look of a pass went.
fn last_went<B: Bench>(pass: &LookPass<B>) -> Option<Went> {
    let last = pass.items().last()?;
    Some(went_of(&last.item))
}

/// One look at each of a worker's loci: whether a step was made; none where the kernel has stopped, or for want of memory.
fn round<B: Board<QuietDisk> + Bench, R: Wait, G: StepGate>(
    rt: &R,
    board: &QuietBoard<B>,
    pass: &mut LookPass<B>,
    gate: &G,
    work: Work<'_>,
    worker: usize,
) -> Option<bool> {
    let mut made = false;
    for at in 0..work.loci.len() {
        if at.checked_rem(work.workers) == Some(worker) {
            let locus = Entity::new(work.loci[at])?;
            step(board, rt, pass, (worker % 16) as u32, gate, locus).ok()?;
            match last_went(pass)? {
                Went::Made => made = true,
                Went::Idle(_) => {}
                Went::Stopped(_) | Went::StoppedBehind(_) => return None,
            }
        }
    }
    Some(made)
}

/// A worker's rounds, until the kernel has stopped.
pub(crate) fn work_on<B: Board<QuietDisk> + Bench, R: Wait, G: StepGate>(
    rt: &R,
    board: &QuietBoard<B>,
    gate: &G,
    work: Work<'_>,
    worker: usize,
) -> LookPass<B> {
    let mut pass = board.pass(rt);
    for _ in 0..work.rounds {
        if round(rt, board, &mut pass, gate, work, worker).is_none() {
            return pass;
        }
    }
    pass
}

/// Rounds over all loci by one worker, until in one of them none could step, or the kernel has stopped.
pub(crate) fn finish<B: Board<QuietDisk> + Bench, R: Wait>(
    rt: &R,
    board: &QuietBoard<B>,
) -> LookPass<B> {
    let mut pass = board.pass(rt);
    for _ in 0..40_000_u64 {
        match round(rt, board, &mut pass, &OpenGate, Work::of(1, 1), 0) {
            Some(true) => {}
            Some(false) | None => return pass,
        }
    }
    pass
}
