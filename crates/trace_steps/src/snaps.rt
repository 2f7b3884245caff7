//! Entries that touch nothing: a record of one entity, and one that was tried.
ghost use Rattle.std.specs.Prelude.{◌≡◌, ◌<◌, ◌^◌, ◌++◌, ◌∷◌, [], ℕ, Bool, false, List, IfNone, IfOk, IfSome, OnOk, slice_index};
ghost use Rattle.base_types.specs.declared.histories.Entry.{Entry as AnEntry};
ghost use Rattle.base_types.specs.declared.histories.Event.TheVariants.{Snap as SnapEvent, Tried as TriedEvent};
ghost use Rattle.plain_states.specs.model_kernel.Histories.{MayCommit, Policy as AnyPolicy, mark as model_mark};
ghost use Rattle.plain_states.specs.model_kernel.Scripts.{Script};
ghost use Rattle.plain_states.specs.model_kernel.State.{KernelState, Supply};
ghost use Rattle.trace_steps.specs.Standing.{CanCommit, GoesOn, IsStanding, Refuses, Stands};
ghost use Rattle.trace_step_facts.specs.Standing.{run_of};

use crate::checker::Checker;
use crate::commits::{commit_one, record_of};
use crate::queries::may_commit;
use base_types::{Answer, Entity, Entry, Event, Touched};
use std::alloc::AllocError;

/// An entry that touches nothing.
pub(crate) fn mark(event: Event, actor: Entity, version: u64) -> Entry
    ensures { result ≡ model_mark event actor version }
{
    Entry {
        event,
        actor,
        touched: Touched::none(),
        version,
        answer: Answer::Quiet,
    }
}

/// Takes in the record of an entity at its version. On want of memory the checker stands nowhere.
fn take_snap(checker: &mut Checker, entity: Entity) -> Result<(), AllocError>
    ghost p: { AnyPolicy }
    requires can { CanCommit p checker.old entity }
    requires tried { checker.old.tried ≡ false }
    ensures { OnOk result ((s : Supply) (script : Script) (w : KernelState) (es : List AnEntry) → Stands s p script w checker.old es → MayCommit p (run_of s script w es) entity
        → Stands s p script w checker.new (es ++ model_mark SnapEvent entity (slice_index checker.old.versions entity) ∷ [])) }
{
    let version = checker.versions[entity.number() as usize];
    let rec = record_of(&checker.clocks, &checker.versions, entity);
    commit_one(&mut checker.cuts, rec)?;
    let full = checker.cuts.full();
    checker.wishes.take_record(entity, version, &full);
    checker.short = checker.owed.is_some();
    checker.began = false;
    Ok(())
}

/// The Snap of an entity. None exactly where it can't be next. After None or want of memory the checker stands nowhere.
pub fn snap<P: Fn(u32, u64) -> bool>(
    checker: &mut Checker,
    entity: Entity,
    policy: &P,
) -> Result<Option<Entry>, AllocError>
    ghost p: { AnyPolicy }
    requires callable { (every since : ℕ) → every < 2 ^ 32 → since < 2 ^ 64 → P.pre policy.now every since }
    requires answers { (every since : ℕ) (r : Bool) → every < 2 ^ 32 → since < 2 ^ 64 → P.post policy.now every since r → r ≡ p every since }
    requires tried { checker.old.tried ≡ false }
    requires stands { (s : Supply) × (script : Script) × IsStanding s p script checker.old }
    ensures some { IfOk result (λ o. IfSome o (λ e. (s : Supply) (script : Script) → GoesOn s p script checker.old SnapEvent entity e checker.new)) }
    ensures none { IfOk result (λ o. IfNone o ((s : Supply) (script : Script) → Refuses s p script checker.old SnapEvent entity)) }
{
    if !may_commit(checker, entity, policy) {
        return Ok(None);
    }
    let version = checker.versions[entity.number() as usize];
    take_snap(checker, entity)?;
    Ok(Some(mark(Event::Snap, entity, version)))
}

/// The Tried of an entity. None exactly where it can't be next.
pub fn try_record<P: Fn(u32, u64) -> bool>(
    checker: &mut Checker,
    entity: Entity,
    policy: &P,
) -> Option<Entry>
    ghost p: { AnyPolicy }
    requires callable { (every since : ℕ) → every < 2 ^ 32 → since < 2 ^ 64 → P.pre policy.now every since }
    requires answers { (every since : ℕ) (r : Bool) → every < 2 ^ 32 → since < 2 ^ 64 → P.post policy.now every since r → r ≡ p every since }
    requires tried { checker.old.tried ≡ false }
    ensures some { IfSome result (λ e. (s : Supply) (script : Script) → GoesOn s p script checker.old TriedEvent entity e checker.new) }
    ensures none { IfNone result ((s : Supply) (script : Script) → Refuses s p script checker.old TriedEvent entity) }
{
    if !may_commit(checker, entity, policy) {
        return None;
    }
    let version = checker.versions[entity.number() as usize];
    checker.tried = true;
    Some(mark(Event::Tried, entity, version))
}
