// A disk in memory of whose content nothing is proved, so that a test need not prove what it compares.
ghost use Rattle.std.specs.Prelude.{[], length};

use edge_disk::{Disk, DiskFault, MemoryDisk};

// A disk in memory that tells nothing of its content.
#[derive(Drop)]
pub(crate) struct QuietDisk {
    pub(crate) memory: MemoryDisk,
}

impl Disk for QuietDisk {
    ghost use Rattle.edge_disk.specs.MemoryDisk.{faults_of, moments_of, reading_of};

    ghost tells = { ⊥ };

    ghost block_count = { λ d. length (reading_of d.memory) };

    ghost reading = { λ d. [] };

    ghost may_leave = { λ d c. ⊥ };

    ghost left_since = { λ d t c. ⊥ };

    ghost clock = { λ d. moments_of d.memory };

    ghost faults = { λ d. faults_of d.memory };

    ghost countable = { λ d. d.memory.tape.countable };

    ghost reads_now = { λ d told. told };

    ghost counts_now = { λ d t c told le may. may };

    ghost only_now = { λ d c told left. left };

    ghost counts_later = { λ d s t c told le left. left };

    ghost whole = { λ d t c told left. absurd told };

    fn blocks(&self) -> u32 {
        self.memory.blocks()
    }

    fn read(&mut self, at: u32, out: &mut [u8; 1024]) -> Result<(), DiskFault> {
        self.memory.read(at, out)
    }

    fn write(&mut self, at: u32, from: &[u8; 1024]) -> Result<(), DiskFault> {
        self.memory.write(at, from)
    }

    fn sync(&mut self) -> Result<(), DiskFault> {
        self.memory.sync()
    }
}
