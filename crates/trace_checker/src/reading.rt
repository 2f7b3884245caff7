//! The entry that a line names.
ghost use Rattle.std.specs.Prelude.{◌≡◌, ◌<◌, ◌^◌, ℕ, Bool, IfNone, IfOk, IfSome};
ghost use Rattle.script_types.specs.Scripts.{tables_of};
ghost use Rattle.trace_facts.specs.Reading.{NamesAlone, NamesBirth, NamesNoBirth, NamesNone, WantsFrom};
ghost use Rattle.trace_facts.specs.trace_steps.Standing.{IsStanding};
ghost use Rattle.trace_facts.specs.trace_step_facts.Standing.{Managers};

use crate::naming::{entity_named, is_named};
use crate::words::{before, behind, event_named};
use base_types::{Entry, Event};
use script_types::Script;
use std::alloc::{AllocError, Global};
use trace_facts::{Checker, birth, next};

/// The next birth, if it is of this name. After None or want of memory the checker stands nowhere.
fn birth_named(
    alloc: Global,
    checker: &mut Checker,
    script: &Script,
    name: &[u8],
) -> Result<Option<Entry>, AllocError>
    ghost gate: { Managers }
    requires stands { IsStanding gate.word gate.wish (tables_of script.now) checker.old }
    ensures some { IfOk result (λ o. IfSome o (λ e. NamesBirth gate.word gate.wish (tables_of script.now) checker.old name.now e checker.new)) }
    ensures none { IfOk result (λ o. IfNone o (NamesNoBirth gate.word gate.wish (tables_of script.now) checker.old name.now)) }
{
    if checker.tried {
        return Ok(None);
    }
    let Some(entry) = birth(alloc, checker, script)? else {
        return Ok(None);
    };
    if !is_named(&checker.state.atlas, entry.actor, name) {
        return Ok(None);
    }
    Ok(Some(entry))
}

/// The entry that may be next and with whose event and name the line begins. After None or want of memory the checker stands
/// nowhere.
pub fn wanted<S: Fn(u64, u32, u16) -> u64, P: Fn(u32, u64) -> bool>(
    alloc: Global,
    checker: &mut Checker,
    script: &Script,
    supply: &S,
    policy: &P,
    line: &[u8],
) -> Result<Option<Entry>, AllocError>
    ghost gate: { Managers }
    requires words { (t p a : ℕ) → t < 2 ^ 64 → p < 256 → a < 128 → S.pre supply.now t p a }
    requires supplied { (t p a r : ℕ) → t < 2 ^ 64 → p < 256 → a < 128 → S.post supply.now t p a r → r ≡ gate.word t p a }
    requires callable { (every since : ℕ) → every < 2 ^ 32 → since < 2 ^ 64 → P.pre policy.now every since }
    requires answers { (every since : ℕ) (r : Bool) → every < 2 ^ 32 → since < 2 ^ 64 → P.post policy.now every since r → r ≡ gate.wish every since }
    requires stands { IsStanding gate.word gate.wish (tables_of script.now) checker.old }
    ensures some { IfOk result (λ o. IfSome o (λ e. WantsFrom gate.word gate.wish (tables_of script.now) checker.old line.now e checker.new)) }
    ensures alone { IfOk result (λ o. IfSome o (λ e. NamesAlone gate.word gate.wish (tables_of script.now) checker.old line.now e)) }
    ensures none { IfOk result (λ o. IfNone o (NamesNone gate.word gate.wish (tables_of script.now) checker.old line.now)) }
{
    let Some(event) = event_named(before(line, b' ')) else {
        return Ok(None);
    };
    let name = before(behind(line, b' '), b' ');
    match event {
        Event::Birth => birth_named(alloc, checker, script, name),
        _ => match entity_named(&checker.state.atlas, name) {
            Some(actor) => next(alloc, checker, script, supply, policy, event, actor),
            None => Ok(None),
        },
    }
}
