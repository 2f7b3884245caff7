//! Managers that a script brings as programs: their numbers, their code, and the instructions that it may have.
#![tactic(auto)]

ghost use Rattle.std.specs.Prelude.{◌≡◌};
ghost use Rattle.base_managers.specs.Managing.{is_managing};

use base_types::Instr;

/// The most suppliers, and the most policies, that a script brings.
pub const MOST_MANAGERS: usize = 16;

/// The greatest tag for which a script brings a supplier. The least is 1.
pub const GREATEST_TAG: u64 = 9_223_372_036_854_775_807;

/// The greatest `every` for which a script brings a policy. The least is 1.
pub const GREATEST_EVERY: u64 = 1_000_000;

/// A manager as a program.
#[derive(Drop, Debug)]
pub struct ScriptManager {
    /// The tag whose words it supplies, or the `every` for which it is the policy.
    pub number: u64,
    /// What answers. Its first registers are the question, and register 3 is the answer.
    pub code: Vec<Instr>,
}

/// The managers of a script, in the script's order. Each list has at most 16, and each number once: `AreScriptManagers` in specs/.
#[derive(Drop, Debug)]
pub struct ScriptManagers {
    pub supply: Vec<ScriptManager>,
    pub policy: Vec<ScriptManager>,
}

/// Whether a manager's program may have the instruction: one of those that change nothing but registers and the place, and `halt`.
pub fn manages(instr: Instr) -> bool
    ensures { result ≡ is_managing instr }
{
    matches!(
        instr,
        Instr::Set(..)
            | Instr::Copy(..)
            | Instr::Add(..)
            | Instr::Sub(..)
            | Instr::Jump(..)
            | Instr::Jz(..)
            | Instr::Halt
    )
}
