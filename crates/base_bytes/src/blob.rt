// Bytes that are written one behind another, in room that is taken once.
ghost use Rattle.std.specs.Prelude.{◌≡◌, ◌≤◌, ◌<◌, ◌+◌, ◌++◌, [], ◌∷◌, length, IfOk};
ghost use Rattle.byteorder.specs.Endian.{little_bytes};
ghost use Rattle.base_bytes.specs.Blobs.{HasRoom};

use std::alloc::{AllocError, Global};
use std::marker::Model;

/// The bytes of a blob at most.
pub const MOST_BLOB_BYTES: usize = 8192;

/// At most 8,192 bytes. Memory is taken when it is made, and never again.
#[derive(Drop, Debug)]
pub struct Blob {
    bytes: Vec<u8>,
    len: usize,
}

impl Model for Blob {
    ghost use Rattle.std.specs.Prelude.{◌≡◌, ◌≤◌, List, ℕ, length, take};
    ghost use Rattle.base_bytes.specs.declared.blob.TheConstants.{MOST_BLOB_BYTES};

    ghost Value = { List ℕ };

    ghost view = { λ blob. take blob.len blob.bytes.items };

    ghost invariant = { λ blob. (length blob.bytes.items ≡ MOST_BLOB_BYTES) × (blob.len ≤ MOST_BLOB_BYTES) };
}

impl Blob {
    /// An empty blob.
    pub fn new(alloc: Global) -> Result<Blob, AllocError>
        ensures { IfOk result (λ blob. blob ≡ []) }
    {
        Ok(Blob {
            bytes: vec![in alloc; 0; MOST_BLOB_BYTES]?,
            len: 0,
        })
    }

    /// How many bytes there are.
    pub fn len(&self) -> usize
        ensures len { result ≡ length self.now }
        ensures most { length self.now ≤ MOST_BLOB_BYTES }
    {
        self.len
    }

    pub fn as_slice(&self) -> &[u8]
        ensures bytes { result.now ≡ self.now }
        ensures most { length self.now ≤ MOST_BLOB_BYTES }
    {
        &self.bytes[..self.len]
    }

    /// Takes out all bytes.
    pub fn clear(&mut self)
        ensures { self.new ≡ [] }
    {
        self.len = 0;
    }

    /// Adds a byte at the end.
    pub fn push(&mut self, byte: u8)
        requires { HasRoom self.old 1 }
        ensures { self.new ≡ self.old ++ byte ∷ [] }
    {
        self.bytes[self.len] = byte;
        self.len += 1;
    }

    /// Adds the bytes at the end.
    pub fn put_bytes(&mut self, bytes: &[u8])
        requires { HasRoom self.old (length bytes.now) }
        ensures { self.new ≡ self.old ++ bytes.now }
    {
        for byte in bytes {
            self.push(*byte);
        }
    }

    /// Adds a number of 16 bits at the end, the lowest byte first.
    pub fn put_u16(&mut self, value: u16)
        requires { HasRoom self.old 2 }
        ensures { self.new ≡ self.old ++ little_bytes 2 value }
    {
        self.put_bytes(&value.to_le_bytes());
    }

    /// Adds a number of 32 bits at the end, the lowest byte first.
    pub fn put_u32(&mut self, value: u32)
        requires { HasRoom self.old 4 }
        ensures { self.new ≡ self.old ++ little_bytes 4 value }
    {
        self.put_bytes(&value.to_le_bytes());
    }

    /// Adds a number of 64 bits at the end, the lowest byte first.
    pub fn put_u64(&mut self, value: u64)
        requires { HasRoom self.old 8 }
        ensures { self.new ≡ self.old ++ little_bytes 8 value }
    {
        self.put_bytes(&value.to_le_bytes());
    }
}
