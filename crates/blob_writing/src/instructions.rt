// Instructions as 16 bytes.
ghost use Rattle.std.specs.Prelude.{◌≡◌, ◌++◌, length};
ghost use Rattle.base_bytes.specs.Blobs.{HasRoom};
ghost use Rattle.blob_grammar.specs.Spelling.{entry_number, instr_bytes};
ghost use Rattle.blob_writing.specs.Pieces.{packed_bytes};

use base_bytes::Blob;
use base_types::Instr;

/// The fields of an instruction: its code, five bytes for registers, its rights, and a number.
#[derive(Clone, Copy)]
struct Packed {
    code: u8,
    registers: [u8; 5],
    rights: u8,
    number: u64,
}

fn fields(code: u8, registers: [u8; 5], rights: u8, number: u64) -> Packed
    ensures { result ≡ record { code = code; registers = registers; rights = rights; number = number } }
{
    Packed {
        code,
        registers,
        rights,
        number,
    }
}

/// The place of an entry, or the greatest number for none.
fn entry_number(entry: Option<u8>) -> u64
    ensures { result ≡ entry_number entry }
{
    match entry {
        Some(place) => u64::from(place),
        None => u64::MAX,
    }
}

/// Registers stand in the order of the spelling, and what has none is 0.
fn pack(instr: &Instr) -> Packed
    ensures { packed_bytes result ≡ instr_bytes instr.now }
{
    match *instr {
        Instr::Set(d, n) => fields(0, [d, 0, 0, 0, 0], 0, n),
        Instr::Copy(d, s) => fields(1, [d, s, 0, 0, 0], 0, 0),
        Instr::Add(d, s) => fields(2, [d, s, 0, 0, 0], 0, 0),
        Instr::Sub(d, s) => fields(3, [d, s, 0, 0, 0], 0, 0),
        Instr::Jump(p) => fields(4, [0; 5], 0, u64::from(p)),
        Instr::Jz(s, p) => fields(5, [s, 0, 0, 0, 0], 0, u64::from(p)),
        Instr::Load(d, a) => fields(6, [d, a, 0, 0, 0], 0, 0),
        Instr::Store(a, s) => fields(7, [a, s, 0, 0, 0], 0, 0),
        Instr::Invoke(c) => fields(8, [c, 0, 0, 0, 0], 0, 0),
        Instr::Leave(c) => fields(9, [c, 0, 0, 0, 0], 0, 0),
        Instr::Return => fields(10, [0; 5], 0, 0),
        Instr::Map(d, a, c, b, n, rights) => fields(11, [d, a, c, b, n], rights.0, 0),
        Instr::Unmap(d, a) => fields(12, [d, a, 0, 0, 0], 0, 0),
        Instr::Lmap(a, c, b, n, rights) => fields(13, [a, c, b, n, 0], rights.0, 0),
        Instr::Lunmap(a) => fields(14, [a, 0, 0, 0, 0], 0, 0),
        Instr::Take(d, c, y) => fields(15, [d, c, y, 0, 0], 0, 0),
        Instr::Give(d, c, s, rights) => fields(16, [d, c, s, 0, 0], rights.0, 0),
        Instr::Drop(s) => fields(17, [s, 0, 0, 0, 0], 0, 0),
        Instr::Make(d, n, t, entry) => fields(18, [d, n, t, 0, 0], 0, entry_number(entry)),
        Instr::Spawn(d, p) => fields(19, [d, 0, 0, 0, 0], 0, u64::from(p)),
        Instr::Stop(c) => fields(20, [c, 0, 0, 0, 0], 0, 0),
        Instr::Go(c) => fields(21, [c, 0, 0, 0, 0], 0, 0),
        Instr::Snap(c) => fields(22, [c, 0, 0, 0, 0], 0, 0),
        Instr::Stabilise(c) => fields(23, [c, 0, 0, 0, 0], 0, 0),
        Instr::Print(s) => fields(24, [s, 0, 0, 0, 0], 0, 0),
        Instr::Halt => fields(25, [0; 5], 0, 0),
    }
}

pub(crate) fn put_instr(instr: &Instr, blob: &mut Blob)
    requires { HasRoom blob.old (length (instr_bytes instr.now)) }
    ensures { blob.new ≡ blob.old ++ instr_bytes instr.now }
{
    let packed = pack(instr);
    blob.push(packed.code);
    blob.put_bytes(&packed.registers);
    blob.push(packed.rights);
    blob.push(0);
    blob.put_u64(packed.number);
}
