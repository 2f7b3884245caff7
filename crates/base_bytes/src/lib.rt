//! Numbers in bytes, the lowest byte first: fields of 1, 2, 4 or 8 bytes at a place of a block, and blobs that are
//! written one number behind another.
#![tactic(auto)]

ghost use Rattle.std.specs.Prelude.{◌≡◌, ◌≤◌, ◌+◌, length, drop, IfOk, IfErr, OnOk, OnErr};
ghost use Rattle.base_bytes.specs.Fields.{HasNumber, PutsNumber, EndsPast};

mod blob;

pub use blob::{Blob, MOST_BLOB_BYTES};
use byteorder::{ByteOrder, LittleEndian};

/// A field that ends past the bytes: where it begins, and how many bytes it has.
#[derive(Clone, Copy, Debug, PartialEq, Eq)]
pub struct Past {
    pub at: usize,
    pub width: usize,
}

/// Reads the byte at `at`.
pub fn get_u8(bytes: &[u8], at: usize) -> Result<u8, Past>
    ensures ok { IfOk result (HasNumber at 1 bytes.now) }
    ensures past { IfErr result (EndsPast at 1 (length bytes.now)) }
{
    Ok(field(bytes, at, 1)?[0])
}

/// Reads a number of 16 bits.
pub fn get_u16(bytes: &[u8], at: usize) -> Result<u16, Past>
    ensures ok { IfOk result (HasNumber at 2 bytes.now) }
    ensures past { IfErr result (EndsPast at 2 (length bytes.now)) }
{
    Ok(LittleEndian::read_u16(field(bytes, at, 2)?))
}

/// Reads a number of 32 bits.
pub fn get_u32(bytes: &[u8], at: usize) -> Result<u32, Past>
    ensures ok { IfOk result (HasNumber at 4 bytes.now) }
    ensures past { IfErr result (EndsPast at 4 (length bytes.now)) }
{
    Ok(LittleEndian::read_u32(field(bytes, at, 4)?))
}

/// Reads a number of 64 bits.
pub fn get_u64(bytes: &[u8], at: usize) -> Result<u64, Past>
    ensures ok { IfOk result (HasNumber at 8 bytes.now) }
    ensures past { IfErr result (EndsPast at 8 (length bytes.now)) }
{
    Ok(LittleEndian::read_u64(field(bytes, at, 8)?))
}

/// Writes the byte at `at`.
pub fn put_u8(bytes: &mut [u8], at: usize, value: u8) -> Result<(), Past>
    ensures ok { OnOk result (PutsNumber at 1 value bytes.old bytes.new) }
    ensures past { IfErr result (EndsPast at 1 (length bytes.old)) }
    ensures err { OnErr result (bytes.new ≡ bytes.old) }
{
    within(bytes.len(), at, 1)?;
    bytes[at] = value;
    Ok(())
}

/// Writes a number of 16 bits.
pub fn put_u16(bytes: &mut [u8], at: usize, value: u16) -> Result<(), Past>
    ensures ok { OnOk result (PutsNumber at 2 value bytes.old bytes.new) }
    ensures past { IfErr result (EndsPast at 2 (length bytes.old)) }
    ensures err { OnErr result (bytes.new ≡ bytes.old) }
{
    within(bytes.len(), at, 2)?;
    LittleEndian::write_u16(&mut bytes[at..], value);
    Ok(())
}

/// Writes a number of 32 bits.
pub fn put_u32(bytes: &mut [u8], at: usize, value: u32) -> Result<(), Past>
    ensures ok { OnOk result (PutsNumber at 4 value bytes.old bytes.new) }
    ensures past { IfErr result (EndsPast at 4 (length bytes.old)) }
    ensures err { OnErr result (bytes.new ≡ bytes.old) }
{
    within(bytes.len(), at, 4)?;
    LittleEndian::write_u32(&mut bytes[at..], value);
    Ok(())
}

/// Writes a number of 64 bits.
pub fn put_u64(bytes: &mut [u8], at: usize, value: u64) -> Result<(), Past>
    ensures ok { OnOk result (PutsNumber at 8 value bytes.old bytes.new) }
    ensures past { IfErr result (EndsPast at 8 (length bytes.old)) }
    ensures err { OnErr result (bytes.new ≡ bytes.old) }
{
    within(bytes.len(), at, 8)?;
    LittleEndian::write_u64(&mut bytes[at..], value);
    Ok(())
}

// Whether a field ends within `len` bytes.
fn within(len: usize, at: usize, width: usize) -> Result<(), Past>
    ensures ok { OnOk result (at + width ≤ len) }
    ensures past { IfErr result (EndsPast at width len) }
{
    if at <= len && width <= len - at {
        Ok(())
    } else {
        Err(Past { at, width })
    }
}

// The bytes from a field's first on, where the field is within them.
fn field(bytes: &[u8], at: usize, width: usize) -> Result<&[u8], Past>
    ensures ok { IfOk result (λ rest. rest.now ≡ drop at bytes.now) }
    ensures room { OnOk result (at + width ≤ length bytes.now) }
    ensures past { IfErr result (EndsPast at width (length bytes.now)) }
{
    within(bytes.len(), at, width)?;
    Ok(&bytes[at..])
}
