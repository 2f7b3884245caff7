//! A birth of the script's next name.
ghost use Rattle.std.specs.Prelude.{◌≡◌, ℕ, IfNone, IfOk, IfSome, Some, None, false};
ghost use Rattle.base_types.specs.declared.histories.Event.TheVariants.{Birth as BirthEvent};
ghost use Rattle.plain_states.specs.model_kernel.Scripts.{next_name as next_of};
ghost use Rattle.plain_states.specs.Plains.{atlas_of};
ghost use Rattle.script_types.specs.Scripts.{tables_of};
ghost use Rattle.trace_steps.specs.Standing.{GoesOn, IsStanding, Refuses, owing};
ghost use Rattle.trace_step_facts.specs.Standing.{Managers};
ghost use Rattle.plain_states.specs.Born.{HasFewNames};

use crate::checker::Checker;
use base_types::{Entity, Entry};
use plain_states::plain_birth;
use script_types::Script;
use std::alloc::{AllocError, Global};
use trace_step_facts::next_name;

/// Whether names are left to be born. After the last birth the Stable of the atlas is owed.
fn owe_births(checker: &mut Checker, script: &Script)
    requires { HasFewNames checker.old.state.atlas }
    ensures { checker.new ≡ owing (next_of (atlas_of checker.old.state.atlas) (tables_of script.now)) checker.old }
{
    if next_name(script, &checker.state.atlas).is_some() {
        checker.births_left = true;
        checker.owed = None;
    } else {
        checker.births_left = false;
        checker.owed = Some(Entity::ATLAS);
    }
}

/// The birth of the script's next name. None exactly where no birth can be next. After None or want of memory the checker
/// stands nowhere.
pub fn birth(
    alloc: Global,
    checker: &mut Checker,
    script: &Script,
) -> Result<Option<Entry>, AllocError>
    ghost gate: { Managers }
    requires tried { checker.old.tried ≡ false }
    requires stands { IsStanding gate.word gate.wish (tables_of script.now) checker.old }
    ensures some { IfOk result (λ o. IfSome o (λ e. GoesOn gate.word gate.wish (tables_of script.now) checker.old BirthEvent e.actor e checker.new)) }
    ensures none { IfOk result (λ o. IfNone o ((actor : ℕ) → Refuses gate.word gate.wish (tables_of script.now) checker.old BirthEvent actor)) }
{
    if !checker.began {
        return Ok(None);
    }
    let Some(name) = next_name(script, &checker.state.atlas) else {
        return Ok(None);
    };
    let Some(entry) = plain_birth(
        alloc,
        &mut checker.state,
        &mut checker.versions,
        script,
        name,
    )?
    else {
        return Ok(None);
    };
    let touched = entry.touched;
    checker.clocks.take_in(touched);
    checker.wishes.take_birth(touched);
    owe_births(checker, script);
    Ok(Some(entry))
}
