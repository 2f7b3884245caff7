// Making an empty image.
ghost use Rattle.std.specs.Prelude.{◌≡◌, ◌<◌, ◌≤◌, ◌+◌, IfOk, IfErr, OnOk, MatchResult};
ghost use Rattle.edge_disk.specs.Disks.{IsStable};
ghost use Rattle.edge_disk.specs.Disk.{HasCause};
ghost use Rattle.edge_disk.specs.Image.{Image, SameOutside};
ghost use Rattle.edge_disk.specs.Moments.{LeavesOnly, Quiet};
ghost use Rattle.image_meaning.specs.model_kernel.State.{Supply, empty_state};
ghost use Rattle.image_blocks.specs.image_facts.Layout.{least_blocks, most_blocks, pool_at};
ghost use Rattle.image_meaning.specs.Meaning.{Means};
ghost use Rattle.image_format.specs.Formats.{HasEmptyFront, IsAreaGate, IsClosed, IsFormatting, IsFrontBlock, IsMade};

use edge_disk::{Disk, DiskFault, NoBlocks, write_and_sync, write_run};
use image_blocks::{
    Area, body_of, closed_gate, gate_of, header_block, header_of, open_gate, superblock,
};
use image_meaning::empty_image_law;

/// Why an empty image was not made.
#[derive(Clone, Copy, Debug, PartialEq, Eq, Drop)]
pub enum FormatWhy {
    /// The disk has too few blocks. Nothing was written.
    Small(NoBlocks),
    /// A write or a sync failed.
    WriteFault,
}

/// Why an empty image was not made, and the disk.
#[derive(Drop)]
pub struct FormatFault<D: Disk> {
    pub why: FormatWhy,
    pub disk: D,
}

// Writes the gates of both areas closed, and makes that stable.
fn close_areas<D: Disk>(disk: &mut D) -> Result<(), DiskFault>
    requires { pool_at ≤ D.block_count disk.old }
    ensures count { D.block_count disk.new ≡ D.block_count disk.old }
    ensures clock { D.clock disk.new ≤ D.clock disk.old + 3 }
    ensures cause { HasCause (D.faults disk.old) (D.faults disk.new) result }
    ensures closed { D.tells → OnOk result (IsClosed (D.reading disk.new)) }
    ensures reading { D.tells → SameOutside IsAreaGate (D.reading disk.old) (D.reading disk.new) }
    ensures stable { D.tells → OnOk result (IsStable D.Disk disk.new) }
    ensures any_moment { D.tells → Quiet D.Disk IsAreaGate disk.old disk.new }
{
    disk.write(gate_of(Area::A), &closed_gate())?;
    write_and_sync(disk, gate_of(Area::B), &closed_gate())?;
    Ok(())
}

// Writes the superblock, the headers of both areas and the gate of area A's first slot, and makes that stable.
fn write_front<D: Disk>(disk: &mut D, blocks: u32) -> Result<(), DiskFault>
    requires { pool_at ≤ D.block_count disk.old }
    ensures count { D.block_count disk.new ≡ D.block_count disk.old }
    ensures clock { D.clock disk.new ≤ D.clock disk.old + 5 }
    ensures cause { HasCause (D.faults disk.old) (D.faults disk.new) result }
    ensures front { D.tells → OnOk result (HasEmptyFront blocks (D.reading disk.new)) }
    ensures reading { D.tells → SameOutside IsFrontBlock (D.reading disk.old) (D.reading disk.new) }
    ensures stable { D.tells → OnOk result (IsStable D.Disk disk.new) }
    ensures any_moment { D.tells → Quiet D.Disk IsFrontBlock disk.old disk.new }
{
    write_run(disk, 0, &[superblock(blocks), header_block(1)])?;
    disk.write(header_of(Area::B), &header_block(0))?;
    write_and_sync(disk, body_of(Area::A, 0) + 1, &closed_gate())?;
    Ok(())
}

// Makes the empty image: the areas are closed, the front is written, area A is opened, with a sync behind each.
fn make_empty<D: Disk>(disk: &mut D, blocks: u32) -> Result<(), DiskFault>
    requires least { least_blocks ≤ blocks }
    requires most { blocks ≤ most_blocks }
    requires enough { blocks ≤ D.block_count disk.old }
    ensures count { D.block_count disk.new ≡ D.block_count disk.old }
    ensures clock { D.clock disk.new ≤ D.clock disk.old + 10 }
    ensures cause { HasCause (D.faults disk.old) (D.faults disk.new) result }
    ensures made { D.tells → OnOk result (IsMade blocks (D.reading disk.old) (D.reading disk.new)) }
    ensures stable { D.tells → OnOk result (IsStable D.Disk disk.new) }
    ensures any_moment { D.tells → LeavesOnly D.Disk disk.old disk.new (IsFormatting D.may_leave blocks disk.old) }
{
    close_areas(disk)?;
    write_front(disk, blocks)?;
    write_and_sync(disk, gate_of(Area::A), &open_gate())?;
    Ok(())
}

ghost use Rattle.image_format.specs.Faults.{IsSmall, IsWriteFault};

/// Makes the empty image of so many blocks on a disk: the gates of both areas are written closed, and synced; the superblock,
/// epoch 1 in area A's header, epoch 0 in area B's and the gate of A's first slot, closed, are written, and synced; A's gate is
/// opened, and synced. Every other block is left as it is. These are ten writes and syncs at most.
///
/// `Small` comes exactly where the disk has fewer blocks, with both numbers, and then nothing was written. `WriteFault` comes
/// only where a call of the disk failed.
pub fn format<D: Disk>(disk: D, blocks: u32) -> Result<D, FormatFault<D>>
    requires least { least_blocks ≤ blocks }
    requires most { blocks ≤ most_blocks }

    ensures made { D.tells → IfOk result (λ d. IsMade blocks (D.reading disk) (D.reading d)) }
    // Whatever a stop then leaves means the state in which nothing but the atlas is born.
    ensures means { D.tells → IfOk result (λ d. (s : Supply) (image : Image) → D.may_leave d image → Means s image empty_state) }
    ensures stable { D.tells → IfOk result (λ d. IsStable D.Disk d) }
    ensures any_moment { D.tells → MatchResult result
        (λ d. LeavesOnly D.Disk disk d (IsFormatting D.may_leave blocks disk))
        (λ fault. LeavesOnly D.Disk disk fault.disk (IsFormatting D.may_leave blocks disk)) }

    ensures enough { OnOk result (blocks ≤ D.block_count disk) }
    ensures too_few { D.block_count disk < blocks → IfErr result (IsSmall blocks (D.block_count disk) disk) }
    ensures write_fault { blocks ≤ D.block_count disk → IfErr result (IsWriteFault D.faults disk) }

    ensures count { MatchResult result (λ d. D.block_count d ≡ D.block_count disk) (λ fault. D.block_count fault.disk ≡ D.block_count disk) }
    ensures clock { MatchResult result (λ d. D.clock d ≤ D.clock disk + 10) (λ fault. D.clock fault.disk ≤ D.clock disk + 10) }
    ensures later { IfOk result (λ d. D.faults disk ≤ D.faults d) }
{
    let found = disk.blocks();
    if found < blocks {
        let why = FormatWhy::Small(NoBlocks {
            need: blocks,
            free: found,
        });
        return Err(FormatFault { why, disk });
    }
    empty_image_law();
    let mut disk = disk;
    match make_empty(&mut disk, blocks) {
        Ok(()) => Ok(disk),
        Err(_) => Err(FormatFault {
            why: FormatWhy::WriteFault,
            disk,
        }),
    }
}
