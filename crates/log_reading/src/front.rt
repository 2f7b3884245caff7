// The superblock, and which area is active.
ghost use Rattle.std.specs.Prelude.{◌≡◌, ◌≤◌, None, Some, IfOk, IfErr, MatchResult};
ghost use Rattle.edge_disk.specs.Disk.{HasCause};
ghost use Rattle.image_blocks.specs.Checks.{active_area, active_by, check_1, check_2, no_area};
ghost use Rattle.image_blocks.specs.image_facts.Checks.{count_in};
ghost use Rattle.image_blocks.specs.Layout.{epoch_in};
ghost use Rattle.image_blocks.specs.image_facts.Layout.{last_number, most_blocks, pool_at};
ghost use Rattle.log_facts.specs.Reads.{ReadsOnly};

use crate::looks::{area_epoch, block_of, is_area_open};
use edge_disk::{Disk, DiskFault};
use image_blocks::{Area, Bad, header_of, read_header, read_superblock};

// How many blocks the image has; or the first bad place of its superblock.
pub(crate) fn front_of<D: Disk>(disk: &mut D) -> Result<Result<u32, Bad>, DiskFault>
    ensures front { D.tells → IfOk result (λ r. MatchResult r (λ count. (check_1 (D.reading disk.old) ≡ None) × (count ≡ count_in (D.reading disk.old)))
        (λ bad. check_1 (D.reading disk.old) ≡ Some bad)) }
    ensures enough { IfOk result (λ r. IfOk r (λ count. (pool_at ≤ count) × (count ≤ D.block_count disk.old) × (count ≤ most_blocks))) }
    ensures cause { HasCause (D.faults disk.old) (D.faults disk.new) result }
    ensures same { ReadsOnly D.Disk disk.old disk.new }
{
    let blocks = disk.blocks();
    if blocks == 0 {
        return Ok(Err(Bad { block: 0, place: 0 }));
    }
    let block = block_of(disk, 0)?;
    match read_superblock(&block, blocks) {
        Ok(count) => Ok(Ok(count)),
        Err(place) => Ok(Err(Bad { block: 0, place })),
    }
}

// The active area, by which gates are open and by the epochs; or the bad place where there is none.
fn chosen(a_open: bool, b_open: bool, a_epoch: u64, b_epoch: u64) -> Result<Area, Bad>
    ensures area { IfOk result (λ area. active_by a_open b_open a_epoch b_epoch ≡ Some area) }
    ensures none { IfErr result (λ bad. (active_by a_open b_open a_epoch b_epoch ≡ None) × (no_area a_open ≡ Some bad)) }
{
    match (a_open, b_open) {
        (false, false) => Err(Bad { block: 2, place: 0 }),
        (true, false) => Ok(Area::A),
        (false, true) => Ok(Area::B),
        (true, true) => {
            if b_epoch < a_epoch {
                Ok(Area::A)
            } else if a_epoch < b_epoch {
                Ok(Area::B)
            } else {
                Err(Bad { block: 3, place: 0 })
            }
        }
    }
}

// The active area; or the bad place where there is none.
fn active_of<D: Disk>(disk: &mut D) -> Result<Result<Area, Bad>, DiskFault>
    requires { pool_at ≤ D.block_count disk.old }
    ensures active { D.tells → IfOk result (λ r. MatchResult r (λ area. active_area (D.reading disk.old) ≡ Some area) (λ bad. check_2 (D.reading disk.old) ≡ Some bad)) }
    ensures cause { HasCause (D.faults disk.old) (D.faults disk.new) result }
    ensures same { ReadsOnly D.Disk disk.old disk.new }
{
    let a_open = is_area_open(disk, Area::A)?;
    let b_open = is_area_open(disk, Area::B)?;
    let a_epoch = area_epoch(disk, Area::A)?;
    let b_epoch = area_epoch(disk, Area::B)?;
    Ok(chosen(a_open, b_open, a_epoch, b_epoch))
}

// The active area and its epoch; or the first bad place of gates and header.
pub(crate) fn place_of<D: Disk>(disk: &mut D) -> Result<Result<(Area, u64), Bad>, DiskFault>
    requires { pool_at ≤ D.block_count disk.old }
    ensures place { D.tells → IfOk result (λ r. MatchResult r (λ p. (active_area (D.reading disk.old) ≡ Some p.0) × (check_2 (D.reading disk.old) ≡ None) × (p.1 ≡ epoch_in (D.reading disk.old) p.0))
        (λ bad. check_2 (D.reading disk.old) ≡ Some bad)) }
    ensures epoch { IfOk result (λ r. IfOk r (λ p. p.1 ≤ last_number)) }
    ensures cause { HasCause (D.faults disk.old) (D.faults disk.new) result }
    ensures same { ReadsOnly D.Disk disk.old disk.new }
{
    let area = match active_of(disk)? {
        Ok(area) => area,
        Err(bad) => return Ok(Err(bad)),
    };
    let at = header_of(area);
    let block = block_of(disk, at)?;
    match read_header(&block) {
        Ok(epoch) => Ok(Ok((area, epoch))),
        Err(place) => Ok(Err(Bad { block: at, place })),
    }
}
