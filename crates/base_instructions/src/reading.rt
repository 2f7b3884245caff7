//! Reading a line.
ghost use Rattle.std.specs.Prelude.{◌≡◌, IfOk, IfErr};
ghost use Rattle.base_types.specs.declared.instructions.Instr.{Instr as AnInstr};
ghost use Rattle.base_types.specs.Instructions.{IsInstruction};
ghost use Rattle.base_instructions.specs.Fronts.{IsBadPlace};
ghost use Rattle.base_instructions.specs.Spelling.{spelling, IsSpelling};

use crate::building::build;
use crate::forms::form_at;
use crate::operands::read_operands;
use crate::words::read_word;
use arrayvec::ArrayVec;
use base_types::Instr;
use std::error::Error;
use std::fmt;

/// A text that is no spelling of an instruction.
#[derive(Clone, Copy, PartialEq, Eq, Debug)]
pub struct BadInstr {
    /// The first byte at which no spelling goes on, or the text's length where more is wanted.
    pub place: u16,
}

impl fmt::Display for BadInstr {
    fn fmt<W: fmt::Write>(&self, f: &mut fmt::Formatter<W>) -> fmt::Result {
        let place = self.place;
        write!(f, "no instruction is spelled so from byte {place} on")
    }
}

impl Error for BadInstr {}

/// The instruction that the bytes spell, or the first byte at which no spelling goes on.
fn read_bytes(bytes: &[u8]) -> Result<Instr, usize>
    ensures read { IfOk result (λ i. IsInstruction i × (spelling i ≡ bytes.now)) }
    ensures bad { IfErr result (λ place. IsBadPlace IsSpelling bytes.now place) }
{
    let (length, code) = read_word(bytes);
    let Some(code) = code else {
        return Err(length);
    };
    let mut operands = ArrayVec::new();
    match read_operands(form_at(code).kinds, &bytes[length..], &mut operands) {
        Ok(()) => Ok(build(code, operands.as_slice())),
        Err(place) => Err(length + place),
    }
}

/// The instruction that the text spells.
pub fn read_line(text: &str) -> Result<Instr, BadInstr>
    ensures read { IfOk result (λ i. IsInstruction i × (spelling i ≡ text.now)) }
    ensures spelled { (i : AnInstr) → IsInstruction i → spelling i ≡ text.now → result ≡ Ok i }
    ensures bad { IfErr result (λ e. IsBadPlace IsSpelling text.now e.place) }
{
    match read_bytes(text.as_bytes()) {
        Ok(instr) => Ok(instr),
        Err(place) => Err(BadInstr {
            place: place as u16,
        }),
    }
}
