// That numbers are those of their types, as the form of a spelling asks: each is read once.
ghost use Rattle.std.specs.Prelude.{◌<◌, ◌^◌, All};
ghost use Rattle.std.specs.Option.{ForSome};
ghost use Rattle.base_types.specs.declared.instructions.Walk.{Walk as AWalk};
ghost use Rattle.cell_blobs.specs.Ranges.{HasByteRights};

use base_types::{Cap, Walk};

/// A number of 64 bits.
pub(crate) fn fits_word(value: u64)
    ensures { value < 2 ^ 64 }
{
    let _read = value;
}

/// A number of 32 bits.
pub(crate) fn fits_number(value: u32)
    ensures { value < 2 ^ 32 }
{
    let _read = value;
}

/// A byte.
fn fits_byte(value: u8)
    ensures { value < 256 }
{
    let _read = value;
}

/// Registers.
pub(crate) fn read_words(values: &[u64])
    ensures { All (λ value. value < 2 ^ 64) values.now }
{
    for value in values {
        let _read = *value;
    }
}

/// Numbers of blocks.
pub(crate) fn read_blocks(blocks: &[u32])
    ensures { All (λ block. block < 2 ^ 32) blocks.now }
{
    for block in blocks {
        let _read = *block;
    }
}

/// Rights of capabilities.
pub(crate) fn read_rights(caps: &[Option<Cap>])
    ensures { All HasByteRights caps.now }
{
    for held in caps {
        match held {
            Some(cap) => fits_byte(cap.rights.0),
            None => {}
        }
    }
}

/// The address of a walk.
pub(crate) fn read_walk(walk: &Option<Walk>)
    ensures { ForSome walk.now (λ (w : AWalk). w.address < 2 ^ 64) }
{
    match walk {
        Some(walk) => fits_word(walk.address),
        None => {}
    }
}
