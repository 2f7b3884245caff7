// A disk as its callers see it: blocks of 1,024 bytes, and what a stop of the machine may leave of them.
ghost use Rattle.std.specs.Prelude.{◌≡◌, ◌<◌, ◌≤◌, ◌^◌, ℕ, OnOk, OnErr, slice_set};
ghost use Rattle.edge_disk.specs.Disk.{Ticks, HasCause, Only, LeavesNoMore, Tears, Elapses};
ghost use Rattle.edge_disk.specs.Image.{Image, IsImage, SameOutside, block_at};

/// The bytes of a block.
pub const BLOCK_BYTES: usize = 1024;

/// A read, a write or a sync failed.
#[derive(Clone, Copy, Debug, PartialEq, Eq)]
pub struct DiskFault;

/// Too few blocks are free.
#[derive(Clone, Copy, Debug, PartialEq, Eq)]
pub struct NoBlocks {
    pub need: u32,
    pub free: u32,
}

/// A disk of blocks of 1,024 bytes, numbered from 0.
///
/// Between two syncs a block that was written may hold any bytes after a stop of the machine. Stops are told by a
/// clock that counts the writes and syncs begun: a stop inside a call leaves what it could leave before or after it.
pub trait Disk {
    /// Whether disks of this type tell their content. The clauses on content hold for those that do.
    ghost tells: { Type 0 };

    /// How many blocks it has, which never changes.
    ghost block_count: { Self → ℕ };

    /// The blocks as a read gives them.
    ghost reading: { Self → Image };

    /// What a stop now may leave.
    ghost may_leave: { Self → Image → Type 0 };

    /// What a stop at some moment from that one on might have left, during a call or between two.
    ghost left_since: { Self → ℕ → Image → Type 0 };

    /// The moment: how many writes and syncs were begun. It stands still at 2^64 - 1.
    ghost clock: { Self → ℕ };

    /// How often a call has failed. It stands still at 2^64 - 1, which counts as having risen.
    ghost faults: { Self → ℕ };

    /// The number of blocks.
    fn blocks(&self) -> u32
        ensures { result ≡ block_count self.now };

    /// Reads a block. Where it fails, `out` holds any bytes.
    fn read(&mut self, at: u32, out: &mut [u8; 1024]) -> Result<(), DiskFault>
        requires { at < block_count self.old }
        ensures count { block_count self.new ≡ block_count self.old }
        ensures clock { clock self.new ≡ clock self.old }
        ensures cause { HasCause (faults self.old) (faults self.new) result }
        ensures block { tells → OnOk result (out.new ≡ block_at (reading self.old) at) }
        ensures reading { tells → reading self.new ≡ reading self.old }
        ensures stop { tells → LeavesNoMore may_leave self.old self.new }
        ensures time { tells → Elapses clock may_leave left_since self.old self.new };

    /// Writes a block. Where it fails, the block may read as any bytes.
    fn write(&mut self, at: u32, from: &[u8; 1024]) -> Result<(), DiskFault>
        requires { at < block_count self.old }
        ensures count { block_count self.new ≡ block_count self.old }
        ensures clock { Ticks (clock self.old) (clock self.new) }
        ensures cause { HasCause (faults self.old) (faults self.new) result }
        ensures block { tells → OnOk result (reading self.new ≡ slice_set (reading self.old) at from.now) }
        ensures reading { tells → SameOutside (λ n. n ≡ at) (reading self.old) (reading self.new) }
        ensures stop { tells → Tears may_leave at self.old self.new }
        ensures time { tells → Elapses clock may_leave left_since self.old self.new };

    /// After a sync that succeeded a stop leaves what a read gives. One that fails makes nothing stable.
    fn sync(&mut self) -> Result<(), DiskFault>
        ensures count { block_count self.new ≡ block_count self.old }
        ensures clock { Ticks (clock self.old) (clock self.new) }
        ensures cause { HasCause (faults self.old) (faults self.new) result }
        ensures stable { tells → OnOk result (Only (reading self.old) (may_leave self.new)) }
        ensures unstable { tells → OnErr result (LeavesNoMore may_leave self.new self.old) }
        ensures reading { tells → reading self.new ≡ reading self.old }
        ensures stop { tells → LeavesNoMore may_leave self.old self.new }
        ensures time { tells → Elapses clock may_leave left_since self.old self.new };

    /// A block's number has 32 bits.
    ghost countable: { (disk : Self) → block_count disk < 2 ^ 32 };

    /// What it reads as is one of the images that a stop now may leave.
    ghost reads_now: { (disk : Self) → tells → may_leave disk (reading disk) };

    /// This moment is one of those since an earlier one.
    ghost counts_now: { (disk : Self) (t : ℕ) (c : Image) → tells → t ≤ clock disk → may_leave disk c → left_since disk t c };

    /// Since this moment there is no other.
    ghost only_now: { (disk : Self) (c : Image) → tells → left_since disk (clock disk) c → may_leave disk c };

    /// The moments since a later one are among those since an earlier one.
    ghost counts_later: { (disk : Self) (s t : ℕ) (c : Image) → tells → s ≤ t → left_since disk t c → left_since disk s c };

    /// Whatever a stop leaves is as many whole blocks.
    ghost whole: { (disk : Self) (t : ℕ) (c : Image) → tells → left_since disk t c → IsImage (block_count disk) c };
}
