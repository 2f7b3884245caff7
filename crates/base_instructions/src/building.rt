//! From a code and operands to an instruction, and back.
ghost use Rattle.std.specs.Prelude.{◌≡◌, ◌<◌, ◌≤◌, length};
ghost use Rattle.base_instructions.specs.Forms.{register_at, number_at, place_at, rights_at, entry_at, build_at, code_of, operands_of};

use crate::forms::{CODES, Operand};
use crate::operands::MOST_OPERANDS;
use arrayvec::ArrayVec;
use base_types::{Instr, Rights};

/// The register at a place of the operands, 0 where there is none.
fn register_at(operands: &[Operand], at: usize) -> u8
    ensures { result ≡ register_at operands.now at }
{
    match operands.get(at) {
        Some(Operand::Register(register)) => *register,
        _ => 0,
    }
}

fn number_at(operands: &[Operand], at: usize) -> u64
    ensures { result ≡ number_at operands.now at }
{
    match operands.get(at) {
        Some(Operand::Number(number)) => *number,
        _ => 0,
    }
}

fn place_at(operands: &[Operand], at: usize) -> u8
    ensures { result ≡ place_at operands.now at }
{
    match operands.get(at) {
        Some(Operand::Place(place)) => *place,
        _ => 0,
    }
}

fn rights_at(operands: &[Operand], at: usize) -> Rights
    ensures { result ≡ rights_at operands.now at }
{
    match operands.get(at) {
        Some(Operand::Rights(rights)) => *rights,
        _ => Rights(0),
    }
}

fn entry_at(operands: &[Operand], at: usize) -> Option<u8>
    ensures { result ≡ entry_at operands.now at }
{
    match operands.get(at) {
        Some(Operand::Entry(entry)) => *entry,
        _ => None,
    }
}

/// The instruction that operands of the form with this code make.
pub(crate) fn build(code: usize, operands: &[Operand]) -> Instr
    requires { code < CODES }
    ensures { result ≡ build_at code operands.now }
{
    let a = register_at(operands, 0);
    let b = register_at(operands, 1);
    let c = register_at(operands, 2);
    let d = register_at(operands, 3);
    let e = register_at(operands, 4);
    match code {
        0 => Instr::Set(a, number_at(operands, 1)),
        1 => Instr::Copy(a, b),
        2 => Instr::Add(a, b),
        3 => Instr::Sub(a, b),
        4 => Instr::Jump(place_at(operands, 0)),
        5 => Instr::Jz(a, place_at(operands, 1)),
        6 => Instr::Load(a, b),
        7 => Instr::Store(a, b),
        8 => Instr::Invoke(a),
        9 => Instr::Leave(a),
        10 => Instr::Return,
        11 => Instr::Map(a, b, c, d, e, rights_at(operands, 5)),
        12 => Instr::Unmap(a, b),
        13 => Instr::Lmap(a, b, c, d, rights_at(operands, 4)),
        14 => Instr::Lunmap(a),
        15 => Instr::Take(a, b, c),
        16 => Instr::Give(a, b, c, rights_at(operands, 3)),
        17 => Instr::Drop(a),
        18 => Instr::Make(a, b, c, entry_at(operands, 3)),
        19 => Instr::Spawn(a, place_at(operands, 1)),
        20 => Instr::Stop(a),
        21 => Instr::Go(a),
        22 => Instr::Snap(a),
        23 => Instr::Stabilise(a),
        24 => Instr::Print(a),
        _ => Instr::Halt,
    }
}

/// The operand that is this register.
fn r(register: u8) -> Operand
    ensures { result ≡ Operand.Register register }
{
    Operand::Register(register)
}

/// The list of these operands.
fn list(operands: &[Operand]) -> ArrayVec<Operand, MOST_OPERANDS>
    requires { length operands.now ≤ MOST_OPERANDS }
    ensures { result.items ≡ operands.now }
{
    let mut list = ArrayVec::new();
    for operand in operands {
        list.push(*operand);
    }
    list
}

/// The code of an instruction: its place in the table of forms, from 0 for `set` to 25 for `halt`.
pub fn code(instr: &Instr) -> u8
    ensures { result ≡ code_of instr.now }
{
    match *instr {
        Instr::Set(_, _) => 0,
        Instr::Copy(_, _) => 1,
        Instr::Add(_, _) => 2,
        Instr::Sub(_, _) => 3,
        Instr::Jump(_) => 4,
        Instr::Jz(_, _) => 5,
        Instr::Load(_, _) => 6,
        Instr::Store(_, _) => 7,
        Instr::Invoke(_) => 8,
        Instr::Leave(_) => 9,
        Instr::Return => 10,
        Instr::Map(_, _, _, _, _, _) => 11,
        Instr::Unmap(_, _) => 12,
        Instr::Lmap(_, _, _, _, _) => 13,
        Instr::Lunmap(_) => 14,
        Instr::Take(_, _, _) => 15,
        Instr::Give(_, _, _, _) => 16,
        Instr::Drop(_) => 17,
        Instr::Make(_, _, _, _) => 18,
        Instr::Spawn(_, _) => 19,
        Instr::Stop(_) => 20,
        Instr::Go(_) => 21,
        Instr::Snap(_) => 22,
        Instr::Stabilise(_) => 23,
        Instr::Print(_) => 24,
        Instr::Halt => 25,
    }
}

/// The operands of an instruction in the order of the spelling.
fn operands(instr: &Instr) -> ArrayVec<Operand, MOST_OPERANDS>
    ensures { result.items ≡ operands_of instr.now }
{
    match *instr {
        Instr::Set(d, n) => list(&[r(d), Operand::Number(n)]),
        Instr::Copy(d, s) => list(&[r(d), r(s)]),
        Instr::Add(d, s) => list(&[r(d), r(s)]),
        Instr::Sub(d, s) => list(&[r(d), r(s)]),
        Instr::Jump(p) => list(&[Operand::Place(p)]),
        Instr::Jz(s, p) => list(&[r(s), Operand::Place(p)]),
        Instr::Load(d, a) => list(&[r(d), r(a)]),
        Instr::Store(a, s) => list(&[r(a), r(s)]),
        Instr::Invoke(c) => list(&[r(c)]),
        Instr::Leave(c) => list(&[r(c)]),
        Instr::Return => list(&[]),
        Instr::Map(d, a, c, b, n, access) => list(&[
            r(d),
            r(a),
            r(c),
            r(b),
            r(n),
            Operand::Rights(access),
        ]),
        Instr::Unmap(d, a) => list(&[r(d), r(a)]),
        Instr::Lmap(a, c, b, n, access) => list(&[r(a), r(c), r(b), r(n), Operand::Rights(access)]),
        Instr::Lunmap(a) => list(&[r(a)]),
        Instr::Take(d, c, y) => list(&[r(d), r(c), r(y)]),
        Instr::Give(d, c, s, rights) => list(&[r(d), r(c), r(s), Operand::Rights(rights)]),
        Instr::Drop(s) => list(&[r(s)]),
        Instr::Make(d, n, t, entry) => list(&[r(d), r(n), r(t), Operand::Entry(entry)]),
        Instr::Spawn(d, p) => list(&[r(d), Operand::Place(p)]),
        Instr::Stop(c) => list(&[r(c)]),
        Instr::Go(c) => list(&[r(c)]),
        Instr::Snap(c) => list(&[r(c)]),
        Instr::Stabilise(c) => list(&[r(c)]),
        Instr::Print(s) => list(&[r(s)]),
        Instr::Halt => list(&[]),
    }
}

/// The code of an instruction, and its operands in the order of the spelling.
pub(crate) fn parts(instr: &Instr) -> (usize, ArrayVec<Operand, MOST_OPERANDS>)
    ensures code { result.0 ≡ code_of instr.now }
    ensures operands { result.1.items ≡ operands_of instr.now }
{
    (code(instr) as usize, operands(instr))
}
