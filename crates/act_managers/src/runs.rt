ghost use Rattle.std.specs.Prelude.{◌≡◌};
ghost use Rattle.base_managers.specs.Managing.{IsManagerCode};
ghost use Rattle.act_managers.specs.Answering.{manager_answer};

use act_alone::Locus;
use base_types::{Condition, Entity, Instr};

/// The most acts of one answer.
pub const MOST_ACTS: u32 = 1_000;

/// What the program answers to these registers: register 3 after it has halted, or after 1,000 acts. Costs a locus, some 3 KiB on the
/// stack, and the acts that are made.
pub fn run_manager(code: &[Instr], start: [u64; 8]) -> u64
    requires { IsManagerCode code.now }
    ensures { result ≡ manager_answer code.now start }
{
    let mut locus = Locus::new(Entity::ATLAS, 0, 0, code);
    locus.registers = start;
    for _ in 0..MOST_ACTS {
        match locus.condition {
            Condition::Running => locus.local(),
            _ => break,
        };
    }
    locus.register(3)
}
