// A disk in memory that gives another byte once, and of whose content nothing is proved.
ghost use Rattle.std.specs.Prelude.{[], length};

use edge_disk::{Disk, DiskFault, MemoryDisk};

// Which byte a read gives otherwise: that of the call with this number, at this place of its block.
#[derive(Clone, Copy)]
pub(crate) struct Turn {
    pub(crate) call: u64,
    pub(crate) place: u16,
    pub(crate) byte: u8,
}

// A disk in memory that turns a byte of one read.
#[derive(Drop)]
pub(crate) struct TurnedDisk {
    pub(crate) memory: MemoryDisk,
    pub(crate) turn: Turn,
}

// Turns the byte, if this is the call.
fn turn_in(turn: Turn, call: u64, block: &mut [u8; 1024]) {
    if call == turn.call
        && let Some(byte) = block.get_mut(usize::from(turn.place))
    {
        *byte = turn.byte;
    }
}

impl Disk for TurnedDisk {
    ghost use Rattle.edge_disk.specs.MemoryDisk.{faults_of, moments_of, reading_of};

    ghost tells = { ⊥ };

    ghost block_count = { λ d. length (reading_of d.memory) };

    ghost reading = { λ d. [] };

    ghost may_leave = { λ d c. ⊥ };

    ghost left_since = { λ d t c. ⊥ };

    ghost clock = { λ d. moments_of d.memory };

    ghost faults = { λ d. faults_of d.memory };

    ghost countable = { λ d. d.memory.tape.countable };

    ghost reads_now = { λ d told. told };

    ghost counts_now = { λ d t c told le may. may };

    ghost only_now = { λ d c told left. left };

    ghost counts_later = { λ d s t c told le left. left };

    ghost whole = { λ d t c told left. absurd told };

    fn blocks(&self) -> u32 {
        self.memory.blocks()
    }

    fn read(&mut self, at: u32, out: &mut [u8; 1024]) -> Result<(), DiskFault> {
        let read = self.memory.read(at, out);
        turn_in(self.turn, self.memory.calls(), out);
        read
    }

    fn write(&mut self, at: u32, from: &[u8; 1024]) -> Result<(), DiskFault> {
        self.memory.write(at, from)
    }

    fn sync(&mut self) -> Result<(), DiskFault> {
        self.memory.sync()
    }
}
