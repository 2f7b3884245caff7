// A file as a disk.
ghost use Rattle.std.specs.Prelude.{◌≡◌, []};
ghost use Rattle.edge_disk.specs.Disk.{HasCause};

use crate::standard::{read_some, write_whole};
use edge_disk::{BLOCK_BYTES, Disk, DiskFault};
use std::fs::File;
use std::io;
use std::io::{Seek, SeekFrom};

/// How many blocks a file shows.
const FILE_BLOCKS: u32 = 65_536;

/// A file as a disk of 65,536 blocks, each at 1,024 times its number. What lies past the file's end reads as zeros. It
/// tells nothing of its content: what a file holds, and what a stop of the machine leaves of it, is trusted to the system.
/// A call that a signal interrupts is made again; any other error is a fault.
#[derive(Debug, Drop)]
pub struct FileDisk {
    file: File,
    begun: u64,
    faults: u64,
}

impl FileDisk {
    ghost use Rattle.edge_streams.specs.Files.{begun_on, faults_of_disk};

    /// The file has to be open for reading and writing.
    pub fn new(file: File) -> FileDisk
        ensures begun { begun_on result ≡ 0 }
        ensures faults { faults_of_disk result ≡ 0 }
    {
        FileDisk {
            file,
            begun: 0,
            faults: 0,
        }
    }
}

impl Disk for FileDisk {
    ghost use Rattle.edge_streams.specs.Files.{begun_on, faults_of_disk};
    ghost use Rattle.edge_streams.specs.FileLaws.{file_countable};
    ghost use Rattle.edge_streams.specs.declared.files.TheConstants.{FILE_BLOCKS};

    ghost tells = { ⊥ };

    ghost block_count = { λ d. FILE_BLOCKS };

    ghost reading = { λ d. [] };

    ghost may_leave = { λ d c. ⊥ };

    ghost left_since = { λ d t c. ⊥ };

    ghost clock = { begun_on };

    ghost faults = { faults_of_disk };

    ghost countable = { λ d. file_countable };

    ghost reads_now = { λ d told. told };

    ghost counts_now = { λ d t c told le may. may };

    ghost only_now = { λ d c told left. left };

    ghost counts_later = { λ d s t c told le left. left };

    ghost whole = { λ d t c told left. absurd told };

    fn blocks(&self) -> u32 {
        FILE_BLOCKS
    }

    fn read(&mut self, at: u32, out: &mut [u8; 1024]) -> Result<(), DiskFault> {
        match read_block(&mut self.file, at, out) {
            Ok(()) => Ok(()),
            Err(_) => self.fail(),
        }
    }

    fn write(&mut self, at: u32, from: &[u8; 1024]) -> Result<(), DiskFault> {
        self.begun = self.begun.saturating_add(1);
        match write_block(&mut self.file, at, from) {
            Ok(()) => Ok(()),
            Err(_) => self.fail(),
        }
    }

    fn sync(&mut self) -> Result<(), DiskFault> {
        self.begun = self.begun.saturating_add(1);
        match self.file.sync_all() {
            Ok(()) => Ok(()),
            Err(_) => self.fail(),
        }
    }
}

impl FileDisk {
    ghost use Rattle.edge_streams.specs.Files.{begun_on, faults_of_disk};

    /// Counts a fault.
    fn fail(&mut self) -> Result<(), DiskFault>
        ensures begun { begun_on self.new ≡ begun_on self.old }
        ensures cause { HasCause (faults_of_disk self.old) (faults_of_disk self.new) result }
    {
        self.faults = self.faults.saturating_add(1);
        Err(DiskFault)
    }
}

/// Where a block begins in the file.
fn start_of(at: u32) -> SeekFrom {
    SeekFrom::Start(u64::from(at) * BLOCK_BYTES as u64)
}

/// Reads a block; what lies past the file's end is zeros.
fn read_block(file: &mut File, at: u32, out: &mut [u8; 1024]) -> io::Result<()> {
    file.seek(start_of(at))?;
    let mut filled = 0;
    while filled < out.len() {
        let n = read_some(file, &mut out[filled..])?;
        if n == 0 {
            break;
        }
        filled += n;
    }
    out[filled..].fill(0);
    Ok(())
}

/// Writes a block.
fn write_block(file: &mut File, at: u32, from: &[u8; 1024]) -> io::Result<()> {
    file.seek(start_of(at))?;
    write_whole(file, from)
}
