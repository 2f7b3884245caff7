//! The watched disk.
ghost use Rattle.std.specs.Prelude.{◌≡◌};

use edge_disk::{Disk, DiskFault};
use std::marker::{Brand, Model, PhantomData};

/// How a disk was handed in, as a type: whoever hands one in picks it at `Brand`.
pub trait Handed {
    ghost use Rattle.edge_watched.specs.Watching.{Start};

    ghost start: { Start };
}

impl Handed for Brand {
    ghost start = { record { blocks = 0; clock = 0; faults = 0; may = λ c. ⊥; left = λ t c. ⊥ } };
}

/// A disk that was handed in so. Contracts see the disk itself.
#[derive(Drop)]
pub struct WatchedDisk<D: Disk, N: Handed> {
    disk: D,
    of: PhantomData<N>,
}

impl<D: Disk, N: Handed> Model for WatchedDisk<D, N> {
    ghost use Rattle.edge_watched.specs.Watching.{HasGoneOn};

    ghost Value = { D };

    ghost view = { λ w. w.disk };

    ghost invariant = { λ w. HasGoneOn D.Disk N.start w.disk };
}

impl<D: Disk, N: Handed> WatchedDisk<D, N> {
    ghost use Rattle.edge_watched.specs.Watching.{HasGoneOn, IsAsAtStart};

    /// The disk is watched from now on.
    pub fn new(disk: D) -> WatchedDisk<D, N>
        requires { IsAsAtStart D.Disk N.start disk }
        ensures { result ≡ disk }
    {
        WatchedDisk {
            disk,
            of: PhantomData,
        }
    }

    /// The disk again, and how it has gone on.
    pub fn into_disk(self) -> D
        ensures same { result ≡ self }
        ensures gone_on { HasGoneOn D.Disk N.start result }
    {
        self.disk
    }
}

impl<D: Disk, N: Handed> Disk for WatchedDisk<D, N> {
    ghost tells = { D.tells };

    ghost block_count = { D.block_count };

    ghost reading = { D.reading };

    ghost may_leave = { D.may_leave };

    ghost left_since = { D.left_since };

    ghost clock = { D.clock };

    ghost faults = { D.faults };

    ghost countable = { D.countable };

    ghost reads_now = { D.reads_now };

    ghost counts_now = { D.counts_now };

    ghost only_now = { D.only_now };

    ghost counts_later = { D.counts_later };

    ghost whole = { D.whole };

    fn blocks(&self) -> u32 {
        self.disk.blocks()
    }

    fn read(&mut self, at: u32, out: &mut [u8; 1024]) -> Result<(), DiskFault> {
        self.disk.read(at, out)
    }

    fn write(&mut self, at: u32, from: &[u8; 1024]) -> Result<(), DiskFault> {
        self.disk.write(at, from)
    }

    fn sync(&mut self) -> Result<(), DiskFault> {
        self.disk.sync()
    }
}
