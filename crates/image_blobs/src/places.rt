//! Where a chosen blob is bad.
ghost use Rattle.std.specs.Prelude.{◌≡◌, ◌≤◌, ◌<◌, ◌+◌, ◌*◌, IfSome, IfNone, All, drop, length};
ghost use Rattle.image_fits.specs.image_meaning.Foreign.{IsFirstRest, blob_bad, index_for};
ghost use Rattle.image_blobs.specs.Loading.{bad_for, place_in};

use base_bytes::MOST_BLOB_BYTES;
use base_types::Rec;
use edge_disk::BLOCK_BYTES;
use image_fits::BadBlob;
use log_reading::Bad;

/// The bytes of a block.
const BLOCK: u32 = BLOCK_BYTES as u32;

/// The place of the length in a body.
const LENGTH_PLACE: u16 = 4;

// The first byte from a place on that isn't 0.
pub(crate) fn first_rest(room: &[u8], from: usize) -> Option<usize>
    requires { from ≤ length room.now }
    ensures some { IfSome result (IsFirstRest room.now from) }
    ensures none { IfNone result (All (λ b. b ≡ 0) (drop from room.now)) }
{
    for place in from..room.len() {
        if room[place] != 0 {
            return Some(place);
        }
    }
    None
}

// Which block of a blob a place stands in; a place at the end of a whole block stands in that block.
fn index_of(length: u32, place: u32) -> u32
    requires some { 1 ≤ length }
    requires few { length ≤ MOST_BLOB_BYTES }
    requires within { place ≤ length }
    ensures index { result ≡ index_for length place }
    ensures small { result < 8 }
    ensures from { BLOCK * result ≤ place }
    ensures to { place ≤ BLOCK * result + BLOCK }
{
    if place == length && place % BLOCK == 0 {
        length / BLOCK - 1
    } else {
        place / BLOCK
    }
}

// A place of a blob in the image.
fn place_of(rec: &Rec, place: u32) -> Bad
    requires some { 1 ≤ rec.now.length }
    requires few { rec.now.length ≤ MOST_BLOB_BYTES }
    requires within { place ≤ rec.now.length }
    ensures { result ≡ blob_bad rec.now place }
{
    let index = index_of(rec.length, place);
    Bad {
        block: rec.blocks[index as usize],
        place: (place - BLOCK * index) as u16,
    }
}

// Where a blob is told to be bad; where bytes follow a whole spelling it is the length in the body that is bad.
pub(crate) fn bad_of(rec: &Rec, body: u32, bad: BadBlob) -> Bad
    requires some { 1 ≤ rec.now.length }
    requires few { rec.now.length ≤ MOST_BLOB_BYTES }
    requires within { place_in bad ≤ rec.now.length }
    ensures { result ≡ bad_for rec.now body bad }
{
    match bad {
        BadBlob::Malformed(place) => place_of(rec, place),
        BadBlob::TooLong(_) => Bad {
            block: body,
            place: LENGTH_PLACE,
        },
    }
}
