//! One chosen record's blob, read and told.
ghost use Rattle.std.specs.Prelude.{◌≡◌, ◌≤◌, ◌<◌, All, IfOk, IfErr, length};
ghost use Rattle.edge_disk.specs.Disk.{HasCause};
ghost use Rattle.edge_disk.specs.Image.{Image};
ghost use Rattle.log_reading.specs.image_facts.Bodies.{blob_blocks, blob_room, blocks_for};
ghost use Rattle.image_fits.specs.image_meaning.Parts.{IsFormed, IsSpelt};
ghost use Rattle.log_reading.specs.log_facts.Reads.{ReadsOnly};
ghost use Rattle.image_fits.specs.Chosen.{part_of};
ghost use Rattle.image_blobs.specs.Loading.{IsBadRecord};

use crate::parsing::parse;
use crate::places::{bad_of, first_rest};
use crate::rooms::read_room;
use base_bytes::{Blob, MOST_BLOB_BYTES};
use base_types::Rec;
use edge_disk::{Disk, DiskFault};
use image_fits::ChosenPart;
use log_reading::Bad;

// The blocks of a record's blob.
fn blocks_of(rec: &Rec) -> &[u32]
    requires { rec.now.length ≤ MOST_BLOB_BYTES }
    ensures blocks { result.now ≡ blob_blocks rec.now }
    ensures needed { length result.now ≡ blocks_for rec.now.length }
{
    let needed = (rec.length as usize + 1023) / 1024;
    &rec.blocks[..needed]
}

// What the bytes in a record's blocks spell, or where they are bad.
fn told(rec: &Rec, body: u32, room: &[u8]) -> Result<ChosenPart, Bad>
    requires some { 1 ≤ rec.now.length }
    requires within { rec.now.length ≤ length room.now }
    requires few { length room.now ≤ MOST_BLOB_BYTES }
    ensures formed { IfOk result (λ part. IsFormed rec.now.entity (part_of part)) }
    ensures spelt { (image : Image) → room.now ≡ blob_room image rec.now → IfOk result (λ part. IsSpelt image rec.now.entity rec.now (part_of part)) }
    ensures foreign { (image : Image) → room.now ≡ blob_room image rec.now → IfErr result (IsBadRecord image rec.now body) }
{
    let length = rec.length as usize;
    let part = match parse(rec.entity.kind(), &room[..length]) {
        Ok(part) => part,
        Err(bad) => return Err(bad_of(rec, body, bad)),
    };
    match first_rest(room, length) {
        Some(place) => Err(Bad {
            block: rec.blocks[place / 1024],
            place: (place % 1024) as u16,
        }),
        None => Ok(part),
    }
}

/// Reads what a chosen record's blob spells, or tells its first bad place. `body` is the block of the record's body; `room` holds
/// anything afterwards. It reads 8 blocks at most, and begins no write and no sync.
pub fn load<D: Disk>(
    disk: &mut D,
    rec: &Rec,
    body: u32,
    room: &mut Blob,
) -> Result<Result<ChosenPart, Bad>, DiskFault>
    requires some { 1 ≤ rec.now.length }
    requires few { rec.now.length ≤ MOST_BLOB_BYTES }
    requires there { All (λ b. b < D.block_count disk.old) (blob_blocks rec.now) }
    ensures formed { IfOk result (λ r. IfOk r (λ part. IsFormed rec.now.entity (part_of part))) }
    ensures spelt { D.tells → IfOk result (λ r. IfOk r (λ part. IsSpelt (D.reading disk.old) rec.now.entity rec.now (part_of part))) }
    ensures foreign { D.tells → IfOk result (λ r. IfErr r (IsBadRecord (D.reading disk.old) rec.now body)) }
    ensures cause { HasCause (D.faults disk.old) (D.faults disk.new) result }
    ensures same { ReadsOnly D.Disk disk.old disk.new }
{
    read_room(disk, blocks_of(rec), room)?;
    Ok(told(rec, body, room.as_slice()))
}
