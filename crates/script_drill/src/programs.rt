//! Programs of a drill.
ghost use Rattle.std.specs.Prelude.{◌≡◌, ◌<◌, ◌%◌, IfOk};
ghost use Rattle.script_drill.specs.Draws.{rest, words_of};
ghost use Rattle.script_drill.specs.Drill.{instruction, of_kind, program};

use crate::draws::{draw, draw_two};
use base_types::Instr;
use rand_pcg::Lcg64Xsh32;
use std::alloc::{AllocError, Global};

/// The instructions of a program before the jump to the first.
const DRAWN: u32 = 39;

/// The register in which programs hold the slot of a capability.
const SLOT: u8 = 6;

/// The operands of the instructions with two registers, each below 6.
fn draw_registers(words: &mut Lcg64Xsh32) -> (u8, u8)
    ensures first { result.0 ≡ words_of words.old 0 % 6 }
    ensures second { result.1 ≡ words_of words.old 1 % 6 }
    ensures left { words_of words.new ≡ rest (rest (words_of words.old)) }
{
    let (x, y) = draw_two(words, 6, 6);
    (x as u8, y as u8)
}

/// The operands of a kind of instruction, and the instruction with them.
#[tactic(auto, unfolding(crate::specs::Drill::of_kind))]
fn draw_kind(words: &mut Lcg64Xsh32, kind: u32) -> Instr
    requires { kind < 10 }
    ensures value { result ≡ (of_kind kind (words_of words.old)).0 }
    ensures left { words_of words.new ≡ (of_kind kind (words_of words.old)).1 }
{
    match kind {
        0 => {
            let (x, v) = draw_two(words, 6, 2048);
            Instr::Set(x as u8, u64::from(v))
        }
        1 => {
            let (x, y) = draw_registers(words);
            Instr::Add(x, y)
        }
        2 => {
            let (x, y) = draw_registers(words);
            Instr::Load(x, y)
        }
        3 => {
            let (x, y) = draw_registers(words);
            Instr::Store(x, y)
        }
        4 => Instr::Set(SLOT, u64::from(draw(words, 13))),
        5 => Instr::Invoke(SLOT),
        6 => Instr::Return,
        7 => Instr::Print(draw(words, 6) as u8),
        8 => Instr::Snap(SLOT),
        _ => Instr::Stabilise(SLOT),
    }
}

/// An instruction of any kind.
fn draw_instruction(words: &mut Lcg64Xsh32) -> Instr
    ensures value { result ≡ (instruction (words_of words.old)).0 }
    ensures left { words_of words.new ≡ (instruction (words_of words.old)).1 }
{
    let kind = draw(words, 10);
    draw_kind(words, kind)
}

/// A program: instructions, and the jump to the first.
pub fn draw_program(alloc: Global, words: &mut Lcg64Xsh32) -> Result<Vec<Instr>, AllocError>
    ensures value { IfOk result (λ code. code.items ≡ (program (words_of words.old)).0) }
    ensures left { IfOk result (λ _. words_of words.new ≡ (program (words_of words.old)).1) }
{
    let mut code = Vec::new(alloc);
    for _ in 0..DRAWN {
        code.push(draw_instruction(words))?;
    }
    code.push(Instr::Jump(0))?;
    Ok(code)
}
