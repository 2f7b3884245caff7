// A step of a locus by a worker.
ghost use Rattle.std.specs.Prelude.{◌≡◌, ◌<◌, OnErr, OnOk};
ghost use Rattle.thread_workers.specs.Trying.{NotesOne};

use crate::gates::StepGate;
use crate::trying::Tried;
use crate::turns::Turn;
use base_types::Entity;
use edge_disk::Disk;
use edge_managers::{Policy, Supplier};
use std::alloc::AllocError;
use std::sync::Wait;
use thread_board::{Bench, Pass};
use thread_locks::{Board, Locks, LookItem, Unwritten};

/// One look at a locus by a worker, whose item is noted as the last of the pass: the step that was made, or why none was, or why the kernel has
/// stopped, and after how many entries of the history. What it says is true of the history that the board gives back
/// (`thread_locks::Locks::close`), in which the entry of the step stands at its place.
///
/// The locks of what the step touches are taken in the board's order, the store's and the desk's last; it waits for each. A spawn takes those of all
/// loci and the atlas's, a stabilise those of all 64 cells. Where the plan that was read under the locus's lock has changed by then, it begins anew.
/// Where 2^62 items are noted it waits for ever. The gate is told of each entity that the step touches while their locks are held, and of the
/// answer when none is.
///
/// `Err` is want of memory, for the item or for the guards of a spawn or a stabilise; or under a lock lies another's cell. Then nothing was done, no
/// item is noted, and no lock is held.
pub fn step<D: Disk, S: Supplier, P: Policy, B: Board<D> + Bench, R: Wait, G: StepGate>(
    locks: &Locks<D, S, P, B>,
    rt: &R,
    pass: &mut Pass<Unwritten, LookItem, B>,
    worker: u32,
    gate: &G,
    locus: Entity,
) -> Result<(), AllocError>
    ensures item { OnOk result (NotesOne locus pass.old pass.new) }
    ensures number { pass.new.number ≡ pass.old.number }
    ensures memory { OnErr result (pass.new.items ≡ pass.old.items) }
{
    pass.reserve()?;
    let turn = Turn {
        locks,
        gate,
        worker,
        locus,
    };
    for _ in rt.forever() {
        match turn.try_step(rt, pass) {
            Tried::Noted => {
                gate.answered(rt, worker, locus);
                return Ok(());
            }
            Tried::Again => {}
            Tried::Refused => return Err(AllocError),
        }
    }
    unreachable!()
}
