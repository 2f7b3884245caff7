//! Reading operands.
ghost use Rattle.std.specs.Prelude.{◌≡◌, ◌+◌, ◌<◌, ◌≤◌, ◌∷◌, length, IsTrue, MatchOption, OnOk, IfErr, ◌≢◌, slice_index};
ghost use Rattle.std.specs.Fmt.{decimal};
ghost use Rattle.arrayvec.specs.ArrayVec.{array_vec_len};
ghost use Rattle.base_instructions.specs.declared.forms.OperandKind.TheVariants as kinds;
ghost use Rattle.base_instructions.specs.Fronts.{Reads, IsBadPlace};
ghost use Rattle.base_instructions.specs.Spelling.{differ, ReadsLetters};
ghost use Rattle.base_instructions.specs.Forms.{token, IsOperand, IsTail, ReadsAll};

use crate::forms::{Operand, OperandKind};
use crate::numbers::read_number;
use arrayvec::ArrayVec;
use base_types::Rights;

/// The most operands that an instruction has.
pub(crate) const MOST_OPERANDS: usize = 6;

const LAST_REGISTER: u64 = 7;

const LAST_PLACE: u64 = 127;

/// What follows the byte, where the bytes begin with it.
pub(crate) fn strip_byte(byte: u8, bytes: &[u8]) -> Option<&[u8]>
    ensures { MatchOption result (0 < length bytes.now → slice_index bytes.now 0 ≢ byte) (λ rest. bytes.now ≡ byte ∷ rest.now) }
{
    match bytes.split_first() {
        Some((first, rest)) if *first == byte => Some(rest),
        _ => None,
    }
}

/// The longest front of the bytes that begins this byte and a number up to the greatest, and the number.
fn read_prefixed(prefix: u8, bytes: &[u8], greatest: u64) -> (usize, Option<u64>)
    ensures { Reads (λ n. n ≤ greatest) (λ n. prefix ∷ decimal n) bytes.now result.0 result.1 }
{
    match strip_byte(prefix, bytes) {
        Some(digits) => {
            let (length, number) = read_number(digits, greatest);
            (length + 1, number)
        }
        None => (0, None),
    }
}

/// The longest front of the bytes that begins the letters of a set, and the set.
fn read_letters(letters: &[u8], bytes: &[u8]) -> (usize, u8)
    requires few { length letters.now ≤ 8 }
    requires differ { IsTrue (differ letters.now) }
    ensures { ReadsLetters letters.now bytes.now result.0 result.1 }
{
    let Some((letter, letters)) = letters.split_first() else {
        return (0, 0);
    };
    match strip_byte(*letter, bytes) {
        Some(rest) => {
            let (length, set) = read_letters(letters, rest);
            (length + 1, 2 * set + 1)
        }
        None => {
            let (length, set) = read_letters(letters, bytes);
            (length, 2 * set)
        }
    }
}

fn read_register(bytes: &[u8]) -> (usize, Option<Operand>)
    ensures { Reads (IsOperand kinds.Register) token bytes.now result.0 result.1 }
{
    match read_prefixed(b'r', bytes, LAST_REGISTER) {
        (length, Some(register)) => (length, Some(Operand::Register(register as u8))),
        (length, None) => (length, None),
    }
}

fn read_any_number(bytes: &[u8]) -> (usize, Option<Operand>)
    ensures { Reads (IsOperand kinds.Number) token bytes.now result.0 result.1 }
{
    match read_number(bytes, u64::MAX) {
        (length, Some(number)) => (length, Some(Operand::Number(number))),
        (length, None) => (length, None),
    }
}

fn read_place(bytes: &[u8]) -> (usize, Option<Operand>)
    ensures { Reads (IsOperand kinds.Place) token bytes.now result.0 result.1 }
{
    match read_prefixed(b'@', bytes, LAST_PLACE) {
        (length, Some(place)) => (length, Some(Operand::Place(place as u8))),
        (length, None) => (length, None),
    }
}

fn read_entry(bytes: &[u8]) -> (usize, Option<Operand>)
    ensures { Reads (IsOperand kinds.Entry) token bytes.now result.0 result.1 }
{
    if let Some(_rest) = strip_byte(b'-', bytes) {
        return (1, Some(Operand::Entry(None)));
    }
    match read_prefixed(b'@', bytes, LAST_PLACE) {
        (length, Some(place)) => (length, Some(Operand::Entry(Some(place as u8)))),
        (length, None) => (length, None),
    }
}

fn read_access(bytes: &[u8]) -> (usize, Option<Operand>)
    ensures { Reads (IsOperand kinds.Access) token bytes.now result.0 result.1 }
{
    let (length, set) = read_letters(b"rw", bytes);
    if length == 0 {
        return (0, None);
    }
    (length, Some(Operand::Rights(Rights(set))))
}

fn read_rights(bytes: &[u8]) -> (usize, Option<Operand>)
    ensures { Reads (IsOperand kinds.Rights) token bytes.now result.0 result.1 }
{
    if let Some(_rest) = strip_byte(b'-', bytes) {
        return (1, Some(Operand::Rights(Rights(0))));
    }
    let (length, set) = read_letters(b"rwimcskt", bytes);
    if length == 0 {
        return (0, None);
    }
    (length, Some(Operand::Rights(Rights(set))))
}

/// The longest front of the bytes that begins an operand of this kind, and the operand.
fn read_operand(kind: OperandKind, bytes: &[u8]) -> (usize, Option<Operand>)
    ensures { Reads (IsOperand kind) token bytes.now result.0 result.1 }
{
    match kind {
        OperandKind::Register => read_register(bytes),
        OperandKind::Number => read_any_number(bytes),
        OperandKind::Place => read_place(bytes),
        OperandKind::Access => read_access(bytes),
        OperandKind::Rights => read_rights(bytes),
        OperandKind::Entry => read_entry(bytes),
    }
}

/// Reads a blank and an operand for each kind, up to the end of the bytes, behind the operands that are there.
/// An error is the first byte where that doesn't go on.
pub(crate) fn read_operands(
    kinds: &[OperandKind],
    bytes: &[u8],
    operands: &mut ArrayVec<Operand, MOST_OPERANDS>,
) -> Result<(), usize>
    requires { array_vec_len operands.old + length kinds.now ≤ MOST_OPERANDS }
    ensures ok { OnOk result (ReadsAll kinds.now bytes.now operands.old.items operands.new.items) }
    ensures err { IfErr result (λ n. IsBadPlace (IsTail kinds.now) bytes.now n) }
{
    let Some((kind, kinds)) = kinds.split_first() else {
        return if bytes.is_empty() { Ok(()) } else { Err(0) };
    };
    let Some(bytes) = strip_byte(b' ', bytes) else {
        return Err(0);
    };
    let (length, operand) = read_operand(*kind, bytes);
    let Some(operand) = operand else {
        return Err(1 + length);
    };
    operands.push(operand);
    match read_operands(kinds, &bytes[length..], operands) {
        Ok(()) => Ok(()),
        Err(place) => Err(1 + length + place),
    }
}
