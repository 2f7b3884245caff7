//! The entry that follows, by its event and actor.
ghost use Rattle.std.specs.Prelude.{◌≡◌, ◌<◌, ◌^◌, ℕ, Bool, IfNone, IfOk, IfSome, false};
ghost use Rattle.base_types.specs.declared.histories.Event.TheVariants.{Birth as BirthEvent};
ghost use Rattle.script_types.specs.Scripts.{tables_of};
ghost use Rattle.trace_steps.specs.Standing.{GoesOn, IsStanding, Refuses};
ghost use Rattle.trace_step_facts.specs.Standing.{Managers};

use crate::births::birth;
use crate::checker::Checker;
use crate::snaps::{snap, try_record};
use crate::stables::stable;
use crate::steps::step;
use base_types::{Entity, Entry, Event};
use script_types::Script;
use std::alloc::{AllocError, Global};

/// The birth of this entity, if it is the next one.
fn birth_of(
    alloc: Global,
    checker: &mut Checker,
    script: &Script,
    actor: Entity,
) -> Result<Option<Entry>, AllocError>
    ghost gate: { Managers }
    requires tried { checker.old.tried ≡ false }
    requires stands { IsStanding gate.word gate.wish (tables_of script.now) checker.old }
    ensures some { IfOk result (λ o. IfSome o (λ e. GoesOn gate.word gate.wish (tables_of script.now) checker.old BirthEvent actor e checker.new)) }
    ensures none { IfOk result (λ o. IfNone o (Refuses gate.word gate.wish (tables_of script.now) checker.old BirthEvent actor)) }
{
    let Some(entry) = birth(alloc, checker, script)? else {
        return Ok(None);
    };
    if entry.actor.number() != actor.number() {
        return Ok(None);
    }
    Ok(Some(entry))
}

/// The entry with this event and actor. None exactly where it can't be next. After None or want of memory the checker stands
/// nowhere.
///
/// What it costs doesn't grow with the history, but for the commits that the cut has not passed.
pub fn next<S: Fn(u64, u32, u16) -> u64, P: Fn(u32, u64) -> bool>(
    alloc: Global,
    checker: &mut Checker,
    script: &Script,
    supply: &S,
    policy: &P,
    event: Event,
    actor: Entity,
) -> Result<Option<Entry>, AllocError>
    ghost gate: { Managers }
    requires words { (t p a : ℕ) → t < 2 ^ 64 → p < 256 → a < 128 → S.pre supply.now t p a }
    requires supplied { (t p a r : ℕ) → t < 2 ^ 64 → p < 256 → a < 128 → S.post supply.now t p a r → r ≡ gate.word t p a }
    requires callable { (every since : ℕ) → every < 2 ^ 32 → since < 2 ^ 64 → P.pre policy.now every since }
    requires answers { (every since : ℕ) (r : Bool) → every < 2 ^ 32 → since < 2 ^ 64 → P.post policy.now every since r → r ≡ gate.wish every since }
    requires stands { IsStanding gate.word gate.wish (tables_of script.now) checker.old }
    ensures some { IfOk result (λ o. IfSome o (λ e. GoesOn gate.word gate.wish (tables_of script.now) checker.old event actor e checker.new)) }
    ensures none { IfOk result (λ o. IfNone o (Refuses gate.word gate.wish (tables_of script.now) checker.old event actor)) }
{
    if checker.tried {
        return Ok(None);
    }
    match event {
        Event::Birth => birth_of(alloc, checker, script, actor),
        Event::Step => step(checker, script, supply, policy, actor),
        Event::Snap => snap(checker, actor, policy),
        Event::Stable => stable(checker, actor),
        Event::Tried => Ok(try_record(checker, actor, policy)),
    }
}
