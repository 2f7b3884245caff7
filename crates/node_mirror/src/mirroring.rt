// A standby that follows a run, as the run's watcher.
ghost use Rattle.std.specs.Prelude.{◌≡◌, ℕ, List, None, [], length};
ghost use Rattle.drawn_words.specs.Words.{Words};
ghost use Rattle.node_mirror.specs.Mirrors.{IsMirroring, Watches};
ghost use Rattle.node_rounds.specs.node_standby.Following.{Follows};
ghost use Rattle.node_rounds.specs.node_standby.node_shipments.kernel_invariant.Beginnings.{Beginning as ABeginning};

use crate::following::follow;
use crate::lines::Line;
use crate::stops::MirrorStop;
use edge_disk::Disk;
use node_looks::{Kernel, Watcher};
use std::alloc::Global;
use std::marker::{Brand, PhantomData};

/// What a mirrored run began with, as members of a type: whoever makes one picks them at `Brand`.
pub(crate) trait Since {
    // in which runs the standby followed at first
    ghost began: { ABeginning → Type 0 };

    // the words to draw from
    ghost words: { Words };

    // so many packets and counts in a hundred are lost
    ghost loss: { ℕ };

    // the count of faults of the second disk
    ghost faults: { ℕ };
}

impl Since for Brand {
    ghost began = { λ _. Unit {0} };

    ghost words = { λ k. k };

    ghost loss = { 0 };

    ghost faults = { 0 };
}

/// A standby behind a running kernel.
#[derive(Drop)]
pub(crate) struct Mirroring<E: Disk, N: Since> {
    pub(crate) alloc: Global,
    // the version of each entity's newest commit that was offered
    pub(crate) known: [u64; 64],
    // the entries that were noted when it was asked last
    pub(crate) noted: usize,
    pub(crate) line: Line<E>,
    pub(crate) stop: Option<MirrorStop>,
    pub(crate) of: PhantomData<N>,
    ghost kept: { IsMirroring E.Disk N.faults N.loss line stop },
}

impl<D: Disk, E: Disk, N: Since> Watcher<D> for Mirroring<E, N> {
    ghost watches = { λ w b es. Watches E.Disk N.began N.words b es w.known w.noted w.line };

    ghost leaves = { λ w b es. N.began b → Follows b es E.Disk w.line.standby };

    fn after(&mut self, kernel: &mut Kernel<D>) -> bool {
        let went = follow(
            kernel,
            self.alloc,
            &mut self.known,
            self.noted,
            &mut self.line,
        );
        self.noted = kernel.history().len();
        match went {
            Ok(()) => {
                self.stop = None;
                true
            }
            Err(why) => {
                self.stop = Some(why);
                false
            }
        }
    }
}
