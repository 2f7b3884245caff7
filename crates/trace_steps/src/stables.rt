//! A Stable: a record of each entity that has changed.
ghost use Rattle.std.specs.Prelude.{◌≡◌, ◌++◌, ◌∷◌, [], ◌↔◌, List, IfNone, IfOk, IfSome, IsTrue, OnOk, Some, false};
ghost use Rattle.base_types.specs.declared.histories.Entry.{Entry as AnEntry};
ghost use Rattle.base_types.specs.declared.histories.Event.TheVariants.{Stable as StableEvent};
ghost use Rattle.plain_states.specs.model_kernel.Histories.{Policy as AnyPolicy, mark as model_mark};
ghost use Rattle.plain_states.specs.model_kernel.Scripts.{Script};
ghost use Rattle.plain_states.specs.model_kernel.State.{KernelState, Supply};
ghost use Rattle.trace_state.specs.Clocks.{clock_at};
ghost use Rattle.trace_step_facts.specs.Recording.{Appends};
ghost use Rattle.trace_steps.specs.Standing.{GoesOn, IsStanding, OwesStable, Refuses, Stands};

use crate::checker::Checker;
use crate::commits::record_of;
use crate::snaps::mark;
use base_types::{Entity, Entry, Event};
use std::alloc::AllocError;
use trace_state::{Clocks, Cuts};

/// Appends the record of each entity that has changed since its newest commit, ascending. The cut stays as it was.
pub(crate) fn append_changed(
    cuts: &mut Cuts,
    clocks: &Clocks,
    newest: &[u64; 64],
    versions: &[u64; 64],
) -> Result<(), AllocError>
    ensures recs { OnOk result (Appends newest.now versions.now (clock_at clocks.now) 64 cuts.old.recs.items cuts.new.recs.items) }
    ensures start { cuts.new.start ≡ cuts.old.start }
    ensures cut { cuts.new.cut ≡ cuts.old.cut }
{
    for x in 0..64u8 {
        if newest[x as usize] < versions[x as usize] {
            cuts.append(record_of(clocks, versions, Entity::of(x)))?;
        }
    }
    Ok(())
}

/// Whether a Stable of the actor is owed, and was not cut short.
fn owes_stable(checker: &Checker, actor: Entity) -> bool
    ensures { IsTrue result ↔ ((checker.now.owed ≡ Some actor) × (checker.now.short ≡ false)) }
{
    match checker.owed {
        Some(x) => x.number() == actor.number() && !checker.short,
        None => false,
    }
}

/// Takes in the records of all that has changed. On want of memory the checker stands nowhere.
fn take_stable(checker: &mut Checker, actor: Entity) -> Result<(), AllocError>
    ghost p: { AnyPolicy }
    requires can { OwesStable p checker.old actor }
    requires tried { checker.old.tried ≡ false }
    ensures { OnOk result ((s : Supply) (script : Script) (w : KernelState) (es : List AnEntry) → Stands s p script w checker.old es → Stands s p script w checker.new (es ++ model_mark StableEvent actor 0 ∷ [])) }
{
    let newest = checker.wishes.newest;
    append_changed(
        &mut checker.cuts,
        &checker.clocks,
        &newest,
        &checker.versions,
    )?;
    checker.cuts.raise();
    let full = checker.cuts.full();
    checker.wishes.take_records(&checker.versions, &full);
    checker.began = false;
    checker.owed = None;
    Ok(())
}

/// The Stable of an actor. None exactly where it can't be next. After want of memory the checker stands nowhere.
pub fn stable(checker: &mut Checker, actor: Entity) -> Result<Option<Entry>, AllocError>
    ghost p: { AnyPolicy }
    requires tried { checker.old.tried ≡ false }
    requires stands { (s : Supply) × (script : Script) × IsStanding s p script checker.old }
    ensures some { IfOk result (λ o. IfSome o (λ e. (s : Supply) (script : Script) → GoesOn s p script checker.old StableEvent actor e checker.new)) }
    ensures none { IfOk result (λ o. IfNone o ((s : Supply) (script : Script) → Refuses s p script checker.old StableEvent actor)) }
{
    if !owes_stable(checker, actor) {
        return Ok(None);
    }
    take_stable(checker, actor)?;
    Ok(Some(mark(Event::Stable, actor, 0)))
}
