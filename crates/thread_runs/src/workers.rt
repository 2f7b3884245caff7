// Workers, each of which makes rounds over its loci until none of them can step.
ghost use Rattle.std.specs.Prelude.{◌≡◌, ◌<◌, ◌%◌, ◌==◌, ◌++◌, ◌∷◌, [], List};
ghost use Rattle.thread_board.specs.declared.views.PassItem.{PassItem as AnItem};
ghost use Rattle.thread_items.specs.declared.items.LookItem.{LookItem as ALook};
ghost use Rattle.thread_runs.specs.Parts.{AreRounds, IsLook, IsPart, IsRound, WentOn, went_by};

use base_types::{Entity, FIRST_LOCUS, MOST_ENTITIES};
use edge_disk::Disk;
use edge_managers::{Policy, Supplier};
use std::sync::{Mutex, Wait};
use thread_board::{Bench, Pass};
use thread_workers::{Board, Came, Locks, LookItem, StepGate, Unwritten, step};

/// A worker's pass on the board.
pub(crate) type LookPass<B> = Pass<Unwritten, LookItem, B>;

/// How a look went, or a round of looks.
#[derive(Clone, Copy, PartialEq, Eq, Debug)]
enum Went {
    /// A step was made.
    Made,
    /// No locus that was looked at could step.
    Idle,
    /// The kernel has stopped.
    Stopped,
    /// There was no memory, or a cell lies under another's lock.
    Lacked,
}

/// How a look went that came to this.
fn went_of(came: &Came) -> Went
    ensures { result ≡ went_by came.now }
{
    match came {
        Came::Made(_) => Went::Made,
        Came::Idle(_) => Went::Idle,
        Came::Stopped(_) | Came::StoppedBehind(_, _) => Went::Stopped,
    }
}

/// How the look went whose item is the last of the pass.
fn went_last<B: Bench>(pass: &LookPass<B>) -> Went
    ensures { (xs : List (AnItem ALook)) (x : AnItem ALook) → pass.now.items ≡ xs ++ x ∷ [] → result ≡ went_by x.item.came }
{
    match pass.items().last() {
        Some(last) => went_of(&last.item.came),
        None => Went::Lacked,
    }
}

/// How many rounds a worker's turn has: some hundredths of a second of steps for all workers together. The waking of the next costs some 50
/// microseconds, which with fewer rounds would be felt.
const TURN: u32 = 4096;

/// A worker on a board: its number, below that of all workers, what is told of its steps, and whose turn it is.
#[derive(Drop)]
pub(crate) struct Worker<'a, D: Disk, S: Supplier, P: Policy, B: Board<D> + Bench, G: StepGate> {
    pub(crate) board: &'a Locks<D, S, P, B>,
    pub(crate) steps: &'a G,
    pub(crate) number: u32,
    pub(crate) workers: u32,
    pub(crate) turns: &'a Mutex<()>,
    ghost one: { number < workers },
}

/// What a worker leaves: its pass, and whether it met want of memory.
#[derive(Drop)]
pub(crate) struct Worked<B: Bench> {
    pub(crate) pass: LookPass<B>,
    pub(crate) lacked: bool,
}

impl<'a, D: Disk, S: Supplier, P: Policy, B: Board<D> + Bench, G: StepGate> Worker<
    'a,
    D,
    S,
    P,
    B,
    G,
> {
    /// Whether the locus of this number is the worker's: what is left of it by the number of workers is the worker's own.
    fn has(&self, number: u8) -> bool
        ensures { result ≡ (number % self.now.workers == self.now.number) }
    {
        u32::from(number) % self.workers == self.number
    }

    /// One look at a locus.
    fn look<R: Wait>(&self, rt: &R, pass: &mut LookPass<B>, locus: Entity) -> Went
        ensures { IsLook locus result pass.old.items pass.new.items }
    {
        match step(self.board, rt, pass, self.number, self.steps, locus) {
            Ok(()) => went_last(pass),
            Err(_) => Went::Lacked,
        }
    }

    /// One look at each of the worker's loci, until one is answered that the kernel has stopped, or met want of memory.
    fn round<R: Wait>(&self, rt: &R, pass: &mut LookPass<B>) -> Went
        ensures { IsRound self.now.number self.now.workers result pass.old.items pass.new.items }
    {
        let mut made = false;
        for number in FIRST_LOCUS..MOST_ENTITIES {
            if self.has(number) {
                match self.look(rt, pass, Entity::of(number)) {
                    Went::Idle => {}
                    Went::Made => made = true,
                    Went::Stopped => return Went::Stopped,
                    Went::Lacked => return Went::Lacked,
                }
            }
        }
        if made { Went::Made } else { Went::Idle }
    }

    /// Rounds of a turn, until in one none of the worker's loci could step, or one ended early.
    fn rounds<R: Wait>(&self, rt: &R, pass: &mut LookPass<B>) -> Went
        ensures { AreRounds self.now.number self.now.workers pass.old.items → WentOn self.now.number self.now.workers result pass.new.items }
    {
        for _ in 0..TURN {
            match self.round(rt, pass) {
                Went::Made => {}
                Went::Idle => return Went::Idle,
                Went::Stopped => return Went::Stopped,
                Went::Lacked => return Went::Lacked,
            }
        }
        Went::Made
    }

    /// The rounds of a turn, while no other worker makes any; where what is told of steps may wait, rounds beside those of the others.
    fn turn<R: Wait>(&self, rt: &R, pass: &mut LookPass<B>) -> Went
        ensures { AreRounds self.now.number self.now.workers pass.old.items → WentOn self.now.number self.now.workers result pass.new.items }
    {
        if self.steps.may_wait() {
            return self.rounds(rt, pass);
        }
        let mine = self.turns.lock(rt);
        let went = self.rounds(rt, pass);
        drop(mine);
        went
    }

    /// The worker's part of a run: rounds over its loci until in one none of them could step, or one ended early.
    pub(crate) fn work<R: Wait>(&self, rt: &R) -> Worked<B>
        ensures { IsPart self.now.number self.now.workers result.lacked result.pass.items }
    {
        let mut pass = self.board.pass(rt);
        for _ in rt.forever() {
            match self.turn(rt, &mut pass) {
                Went::Made => {}
                Went::Idle | Went::Stopped => {
                    return Worked {
                        pass,
                        lacked: false,
                    };
                }
                Went::Lacked => return Worked { pass, lacked: true },
            }
        }
        unreachable!()
    }
}
