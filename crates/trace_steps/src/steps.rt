//! A step of a locus.
ghost use Rattle.std.specs.Prelude.{◌≡◌, ◌+◌, ◌<◌, ◌^◌, ◌↔◌, ℕ, Bool, IfNone, IfOk, IfSome, IsTrue, false, slice_index};
ghost use Rattle.base_types.specs.declared.histories.Event.TheVariants.{Step as StepEvent};
ghost use Rattle.plain_states.specs.model_kernel.Words.{put};
ghost use Rattle.script_types.specs.Scripts.{tables_of};
ghost use Rattle.trace_steps.specs.Standing.{CanStep, GoesOn, IsStanding, Refuses};
ghost use Rattle.trace_step_facts.specs.Standing.{Managers};

use crate::checker::Checker;
use crate::wants::{asked_at, intervals, is_any_due, owed_at, where_ok};
use base_types::{Entity, Entry, FIRST_LOCUS};
use script_types::Script;
use std::alloc::AllocError;
use trace_step_facts::plain_step;

/// Counts one more step of the locus.
fn count_step(made: &mut [u32; 64], x: usize)
    requires entity { x < 64 }
    requires room { slice_index made.old x + 1 < 2 ^ 32 }
    ensures { (y : ℕ) → slice_index made.new y ≡ put (slice_index made.old) x (slice_index made.old x + 1) y }
{
    made[x] += 1;
}

/// Whether a step of the locus may be next, if it is running and no wish forbids it.
fn may_step(checker: &Checker, steps: u32, locus: Entity) -> bool
    ensures { IsTrue result ↔ CanStep checker.now steps locus }
{
    !checker.births_left
        && checker.owed.is_none()
        && locus.number() >= FIRST_LOCUS
        && checker.made[locus.number() as usize] < steps
}

/// The step of a locus. None exactly where it can't be next. After None or want of memory the checker stands nowhere.
///
/// What it costs doesn't grow with the history: one step of the plain kernel, and a few passes over the 64 entities.
pub fn step<S: Fn(u64, u32, u16) -> u64, P: Fn(u32, u64) -> bool>(
    checker: &mut Checker,
    script: &Script,
    supply: &S,
    policy: &P,
    locus: Entity,
) -> Result<Option<Entry>, AllocError>
    ghost gate: { Managers }
    requires words { (t p a : ℕ) → t < 2 ^ 64 → p < 256 → a < 128 → S.pre supply.now t p a }
    requires supplied { (t p a r : ℕ) → t < 2 ^ 64 → p < 256 → a < 128 → S.post supply.now t p a r → r ≡ gate.word t p a }
    requires callable { (every since : ℕ) → every < 2 ^ 32 → since < 2 ^ 64 → P.pre policy.now every since }
    requires answers { (every since : ℕ) (r : Bool) → every < 2 ^ 32 → since < 2 ^ 64 → P.post policy.now every since r → r ≡ gate.wish every since }
    requires tried { checker.old.tried ≡ false }
    requires stands { IsStanding gate.word gate.wish (tables_of script.now) checker.old }
    ensures some { IfOk result (λ o. IfSome o (λ e. GoesOn gate.word gate.wish (tables_of script.now) checker.old StepEvent locus e checker.new)) }
    ensures none { IfOk result (λ o. IfNone o (Refuses gate.word gate.wish (tables_of script.now) checker.old StepEvent locus)) }
{
    if !may_step(checker, script.steps, locus) {
        return Ok(None);
    }
    let everies = intervals(&checker.state);
    let versions = checker.versions;
    let asked = asked_at(&checker.state, locus);
    let owed = owed_at(&checker.state, locus);
    let Some(entry) = plain_step(&mut checker.state, &mut checker.versions, locus, supply)? else {
        return Ok(None);
    };
    let touched = entry.touched;
    if is_any_due(
        &checker.wishes,
        &everies,
        &versions,
        touched.as_slice(),
        policy,
    ) {
        return Ok(None);
    }
    checker.clocks.take_in(touched);
    checker
        .wishes
        .take_step(touched, where_ok(entry.answer, asked));
    count_step(&mut checker.made, locus.number() as usize);
    checker.began = false;
    checker.owed = where_ok(entry.answer, owed);
    Ok(Some(entry))
}
