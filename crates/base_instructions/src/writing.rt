//! Writing a line.
ghost use Rattle.std.specs.Prelude.{◌≡◌, ◌+◌, ◌<◌, ◌≤◌, [], ◌∷◌, ◌++◌, length, IsTrue, nat_lt};
ghost use Rattle.std.specs.List.{list_all};
ghost use Rattle.std.specs.Fmt.{decimal};
ghost use Rattle.arrayvec.specs.ArrayString.{array_string_len};
ghost use Rattle.base_types.specs.Instructions.{IsInstruction};
ghost use Rattle.base_instructions.specs.Spelling.{letters_of, place, rights, spelling};
ghost use Rattle.base_instructions.specs.Forms.{token};

use crate::building::parts;
use crate::forms::{Operand, form_at};
use arrayvec::ArrayString;
use base_types::{Instr, Rights};

/// A length that no spelling exceeds.
const SPELLING: usize = 96;

fn push_byte(byte: u8, out: &mut ArrayString<SPELLING>)
    requires ascii { byte < 128 }
    requires room { array_string_len out.old + 1 ≤ SPELLING }
    ensures { out.new.bytes ≡ out.old.bytes ++ byte ∷ [] }
{
    out.push(char::from(byte));
}

fn push_decimal(n: u64, out: &mut ArrayString<SPELLING>)
    requires { array_string_len out.old + length (decimal n) ≤ SPELLING }
    ensures { out.new.bytes ≡ out.old.bytes ++ decimal n }
{
    if n < 10 {
        push_byte(b'0' + n as u8, out);
        return;
    }
    push_decimal(n / 10, out);
    push_byte(b'0' + (n % 10) as u8, out);
}

fn push_place(at: u8, out: &mut ArrayString<SPELLING>)
    requires { array_string_len out.old + length (place at) ≤ SPELLING }
    ensures { out.new.bytes ≡ out.old.bytes ++ place at }
{
    push_byte(b'@', out);
    push_decimal(u64::from(at), out);
}

fn push_letters(letters: &[u8], set: u8, out: &mut ArrayString<SPELLING>)
    requires ascii { IsTrue (list_all (λ letter. nat_lt letter 128) letters.now) }
    requires room { array_string_len out.old + length (letters_of letters.now set) ≤ SPELLING }
    ensures { out.new.bytes ≡ out.old.bytes ++ letters_of letters.now set }
{
    let Some((letter, letters)) = letters.split_first() else {
        return;
    };
    if set % 2 == 1 {
        push_byte(*letter, out);
    }
    push_letters(letters, set / 2, out);
}

fn push_rights(set: u8, out: &mut ArrayString<SPELLING>)
    requires { array_string_len out.old + length (rights set) ≤ SPELLING }
    ensures { out.new.bytes ≡ out.old.bytes ++ rights set }
{
    if set == 0 {
        push_byte(b'-', out);
    } else {
        push_letters(b"rwimcskt", set, out);
    }
}

fn push_operand(operand: Operand, out: &mut ArrayString<SPELLING>)
    requires { array_string_len out.old + length (token operand) ≤ SPELLING }
    ensures { out.new.bytes ≡ out.old.bytes ++ token operand }
{
    match operand {
        Operand::Register(register) => {
            push_byte(b'r', out);
            push_decimal(u64::from(register), out);
        }
        Operand::Number(number) => push_decimal(number, out),
        Operand::Place(place) => push_place(place, out),
        Operand::Rights(rights) => push_rights(rights.0, out),
        Operand::Entry(None) => push_byte(b'-', out),
        Operand::Entry(Some(place)) => push_place(place, out),
    }
}

/// Writes the letters of a set of rights in place of what `out` holds, a dash for the empty set.
pub fn write_rights(set: Rights, out: &mut ArrayString<SPELLING>)
    ensures { out.new.bytes ≡ rights set.0 }
{
    *out = ArrayString::new();
    push_rights(set.0, out);
}

/// Writes the spelling of the instruction in place of what `out` holds.
pub fn write_line(instr: &Instr, out: &mut ArrayString<SPELLING>)
    requires { IsInstruction instr.now }
    ensures { out.new.bytes ≡ spelling instr.now }
{
    let (code, operands) = parts(instr);
    out.clear();
    out.push_str(form_at(code).word);
    for operand in operands.as_slice() {
        push_byte(b' ', out);
        push_operand(*operand, out);
    }
}
