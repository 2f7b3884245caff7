//! Instructions, 16 bytes each.
ghost use Rattle.std.specs.Prelude.{◌≡◌, ◌≤◌, slice_index, IfOk, IfErr};
ghost use Rattle.blob_facts.specs.Fields.{IsByteIn, IsFound, IsRefused, Spells};
ghost use Rattle.blob_facts.specs.Instrs.{IsOperand, IsOperandSpelled, built, entry_of as entry_number_of, least_rights, make_code, most_number, most_register, most_rights};
ghost use Rattle.blob_facts.specs.Parts.{IsInstrSpelled};

use crate::fields::{Parsed, read_byte, read_number};
use base_types::{Instr, Rights};

/// The greatest code.
const LAST_CODE: u8 = 25;

/// The code of `make`, whose number may stand for no place.
const MAKE: u8 = 18;

/// How many registers the instruction of each code names.
const REGISTER_COUNTS: [u8; 26] = [
    1, 2, 2, 2, 0, 1, 2, 2, 1, 1, 0, 5, 2, 4, 1, 3, 3, 1, 3, 1, 1, 1, 1, 1, 1, 0,
];

/// The greatest register at a place of the five: 0 where the instruction names none there.
fn greatest_register(code: u8, place: u8) -> u8
    requires { code ≤ LAST_CODE }
    ensures { result ≡ most_register code place }
{
    if place < REGISTER_COUNTS[code as usize] {
        7
    } else {
        0
    }
}

/// The least and the greatest set of rights.
fn rights_bounds(code: u8) -> (u8, u8)
    ensures least { result.0 ≡ least_rights code }
    ensures most { result.1 ≡ most_rights code }
{
    match code {
        11 | 13 => (1, 3),
        16 => (0, 255),
        _ => (0, 0),
    }
}

/// The greatest number, but for the one that stands for no place.
fn greatest_number(code: u8) -> u64
    ensures { result ≡ most_number code }
{
    match code {
        0 => u64::MAX,
        4 | 5 | MAKE | 19 => 127,
        _ => 0,
    }
}

/// The number of an instruction.
fn read_operand<'a>(bytes: &'a [u8], code: u8) -> Parsed<'a, u64>
    ensures read { IfOk result (λ r. IsFound (IsOperandSpelled code) bytes.now r.0 r.1.now) }
    ensures refused { IfErr result (λ stuck. IsRefused (Spells (IsOperandSpelled code)) bytes.now stuck.rest.now) }
{
    let first = bytes.first().copied().unwrap_or(0);
    if code == MAKE && first == u8::MAX {
        return read_number(bytes, 8, u64::MAX, u64::MAX);
    }
    read_number(bytes, 8, 0, greatest_number(code))
}

/// The register at a place of the five.
fn read_register<'a>(bytes: &'a [u8], code: u8, place: u8) -> Parsed<'a, u8>
    requires { code ≤ LAST_CODE }
    ensures read { IfOk result (λ r. IsFound (IsByteIn 0 (most_register code place)) bytes.now r.0 r.1.now) }
    ensures refused { IfErr result (λ stuck. IsRefused (Spells (IsByteIn 0 (most_register code place))) bytes.now stuck.rest.now) }
{
    read_byte(bytes, 0, greatest_register(code, place))
}

/// The rights of an instruction.
fn read_rights<'a>(bytes: &'a [u8], code: u8) -> Parsed<'a, u8>
    ensures read { IfOk result (λ r. IsFound (IsByteIn (least_rights code) (most_rights code)) bytes.now r.0 r.1.now) }
    ensures refused { IfErr result (λ stuck. IsRefused (Spells (IsByteIn (least_rights code) (most_rights code))) bytes.now stuck.rest.now) }
{
    let (least, most) = rights_bounds(code);
    read_byte(bytes, least, most)
}

/// The entry that a number stands for.
fn entry_of(number: u64) -> Option<u8>
    requires { IsOperand make_code number }
    ensures { result ≡ entry_number_of number }
{
    if number == u64::MAX {
        None
    } else {
        Some(number as u8)
    }
}

/// The instruction of these fields.
fn build(code: u8, registers: [u8; 5], rights: Rights, number: u64) -> Instr
    requires { IsOperand code number }
    ensures { result ≡ built code (slice_index registers 0) (slice_index registers 1) (slice_index registers 2) (slice_index registers 3) (slice_index registers 4) rights.0 number }
{
    let [a, b, c, d, e] = registers;
    match code {
        0 => Instr::Set(a, number),
        1 => Instr::Copy(a, b),
        2 => Instr::Add(a, b),
        3 => Instr::Sub(a, b),
        4 => Instr::Jump(number as u8),
        5 => Instr::Jz(a, number as u8),
        6 => Instr::Load(a, b),
        7 => Instr::Store(a, b),
        8 => Instr::Invoke(a),
        9 => Instr::Leave(a),
        10 => Instr::Return,
        11 => Instr::Map(a, b, c, d, e, rights),
        12 => Instr::Unmap(a, b),
        13 => Instr::Lmap(a, b, c, d, rights),
        14 => Instr::Lunmap(a),
        15 => Instr::Take(a, b, c),
        16 => Instr::Give(a, b, c, rights),
        17 => Instr::Drop(a),
        MAKE => Instr::Make(a, b, c, entry_of(number)),
        19 => Instr::Spawn(a, number as u8),
        20 => Instr::Stop(a),
        21 => Instr::Go(a),
        22 => Instr::Snap(a),
        23 => Instr::Stabilise(a),
        24 => Instr::Print(a),
        _ => Instr::Halt,
    }
}

/// An instruction.
pub(crate) fn read_instr<'a>(bytes: &'a [u8]) -> Parsed<'a, Instr>
    ensures read { IfOk result (λ r. IsFound IsInstrSpelled bytes.now r.0 r.1.now) }
    ensures refused { IfErr result (λ stuck. IsRefused (Spells IsInstrSpelled) bytes.now stuck.rest.now) }
{
    let (code, rest) = read_byte(bytes, 0, LAST_CODE)?;
    let (a, rest) = read_register(rest, code, 0)?;
    let (b, rest) = read_register(rest, code, 1)?;
    let (c, rest) = read_register(rest, code, 2)?;
    let (d, rest) = read_register(rest, code, 3)?;
    let (e, rest) = read_register(rest, code, 4)?;
    let (rights, rest) = read_rights(rest, code)?;
    let (zero, rest) = read_byte(rest, 0, 0)?;
    let (number, rest) = read_operand(rest, code)?;
    let instr = build(code, [a, b, c, d, e], Rights(rights), number);
    Ok((instr, rest))
}
