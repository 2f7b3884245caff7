//! The table of forms: each instruction's word and the kinds of its operands.
ghost use Rattle.std.specs.Prelude.{◌≡◌, ◌<◌};
ghost use Rattle.base_instructions.specs.Forms.{word_at, kinds_at};

use OperandKind::{Access, Entry, Number, Place, Register};
use base_types::Rights;

/// What may stand at an operand's place.
#[derive(Clone, Copy)]
pub(crate) enum OperandKind {
    Register,
    /// Any u64.
    Number,
    Place,
    /// Read, Write or both.
    Access,
    /// Any set of rights.
    Rights,
    /// A place, or none.
    Entry,
}

/// An operand with its value.
#[derive(Clone, Copy)]
pub(crate) enum Operand {
    Register(u8),
    Number(u64),
    Place(u8),
    Rights(Rights),
    Entry(Option<u8>),
}

impl Default for Operand {
    fn default() -> Operand {
        Operand::Register(0)
    }
}

/// An instruction's word, and the kinds of the operands that follow it.
#[derive(Clone, Copy)]
pub(crate) struct WordAndKinds {
    pub word: &'static str,
    pub kinds: &'static [OperandKind],
}

fn form(word: &'static str, kinds: &'static [OperandKind]) -> WordAndKinds
    ensures word { result.word.now ≡ word.now }
    ensures kinds { result.kinds.now ≡ kinds.now }
{
    WordAndKinds { word, kinds }
}

/// The number of forms.
pub(crate) const CODES: usize = 26;

/// The form of the instructions with this code: the one table of words and operands.
pub(crate) fn form_at(code: usize) -> WordAndKinds
    requires { code < CODES }
    ensures word { result.word.now ≡ word_at code }
    ensures kinds { result.kinds.now ≡ kinds_at code }
{
    match code {
        0 => form("set", &[Register, Number]),
        1 => form("copy", &[Register, Register]),
        2 => form("add", &[Register, Register]),
        3 => form("sub", &[Register, Register]),
        4 => form("jump", &[Place]),
        5 => form("jz", &[Register, Place]),
        6 => form("load", &[Register, Register]),
        7 => form("store", &[Register, Register]),
        8 => form("invoke", &[Register]),
        9 => form("leave", &[Register]),
        10 => form("return", &[]),
        11 => form(
            "map",
            &[Register, Register, Register, Register, Register, Access],
        ),
        12 => form("unmap", &[Register, Register]),
        13 => form("lmap", &[Register, Register, Register, Register, Access]),
        14 => form("lunmap", &[Register]),
        15 => form("take", &[Register, Register, Register]),
        16 => form("give", &[Register, Register, Register, OperandKind::Rights]),
        17 => form("drop", &[Register]),
        18 => form("make", &[Register, Register, Register, Entry]),
        19 => form("spawn", &[Register, Place]),
        20 => form("stop", &[Register]),
        21 => form("go", &[Register]),
        22 => form("snap", &[Register]),
        23 => form("stabilise", &[Register]),
        24 => form("print", &[Register]),
        _ => form("halt", &[]),
    }
}
