// Numbers of one width, one behind another, of which no byte tells how many there are.
ghost use Rattle.std.specs.Prelude.{◌≡◌, ◌≤◌, ◌+◌, ◌++◌, length};
ghost use Rattle.std.specs.List.{flat_map};
ghost use Rattle.byteorder.specs.Endian.{little_bytes};
ghost use Rattle.base_bytes.specs.Blobs.{HasRoom};

use base_bytes::Blob;

/// The bytes of the registers.
const REGISTERS_BYTES: usize = 64;

/// Each number in 4 bytes.
pub(crate) fn put_blocks(blocks: &[u32], blob: &mut Blob)
    requires { HasRoom blob.old (length (flat_map (little_bytes 4) blocks.now)) }
    ensures { blob.new ≡ blob.old ++ flat_map (little_bytes 4) blocks.now }
{
    for block in blocks {
        blob.put_u32(*block);
    }
}

/// Each register in 8 bytes.
pub(crate) fn put_registers(registers: &[u64; 8], blob: &mut Blob)
    requires { HasRoom blob.old REGISTERS_BYTES }
    ensures registers { blob.new ≡ blob.old ++ flat_map (little_bytes 8) registers.now }
    ensures most { length blob.new ≤ length blob.old + REGISTERS_BYTES }
{
    for value in registers {
        blob.put_u64(*value);
    }
}
