//! The births of a script's names, one after another.
ghost use Rattle.std.specs.Prelude.{◌≡◌, ◌<◌, OnErr, IfOk, IfSome, IfNone, Some, None};
ghost use Rattle.plain_steps.specs.model_kernel.Scripts.{next_name as next_of};
ghost use Rattle.plain_steps.specs.model_kernel.Soundness.{IsSound};
ghost use Rattle.plain_steps.specs.model_kernel.State.{Supply};
ghost use Rattle.plain_states.specs.Born.{AreEdges, HasFewNames};
ghost use Rattle.plain_states.specs.Events.{AreFewVersions, Bears, Stays};
ghost use Rattle.plain_states.specs.Plains.{atlas_of, cells_of};
ghost use Rattle.plain_runs.specs.Standing.{GoesOn, IsStanding, Keeps};
ghost use Rattle.plain_steps.specs.plain_facts.Standing.{IsLow};
ghost use Rattle.plain_runs.specs.Looking.{IsPastBirths, ended};
ghost use Rattle.plain_runs.specs.declared.serial.Place.TheVariants.{Births as AtBirths};
ghost use Rattle.script_types.specs.Rules.{IsScript};
ghost use Rattle.script_types.specs.Scripts.{tables_of};
ghost use Rattle.plain_steps.specs.model_births.Fitting.{Fits};

use crate::names::next_name;
use crate::serial::{Place, SerialRun};
use base_types::{Entity, Entry};
use plain_states::{Plain, plain_birth};
use script_types::Script;
use std::alloc::{AllocError, Global};

/// The birth of the script's next name. A script that fits always has one that is defined.
fn bear(
    alloc: Global,
    state: &mut Plain,
    versions: &mut [u64; 64],
    script: &Script,
    name: &str,
) -> Result<Entry, AllocError>
    requires sound { (s : Supply) → IsSound (cells_of s state.old) }
    requires edges { AreEdges state.old.atlas.edges.items }
    requires few { AreFewVersions versions.old }
    requires script { IsScript (tables_of script.now) }
    requires fits { Fits (atlas_of state.old.atlas) (tables_of script.now) }
    requires next { next_of (atlas_of state.old.atlas) (tables_of script.now) ≡ Some name.now }
    ensures bears { IfOk result (λ e. (s : Supply) → Bears s (tables_of script.now) name.now (cells_of s state.old) versions.old e (cells_of s state.new) versions.new) }
    ensures low { IfOk result IsLow }
    ensures err { OnErr result ((s : Supply) → Stays (cells_of s state.old) versions.old (cells_of s state.new) versions.new) }
    ensures sound { (s : Supply) → IsSound (cells_of s state.new) }
    ensures edges { AreEdges state.new.atlas.edges.items }
{
    match plain_birth(alloc, state, versions, script, name)? {
        Some(entry) => Ok(entry),
        None => unreachable!(),
    }
}

/// After the last birth the Stable of the atlas is owed, and the picks come.
fn end_births(run: &mut SerialRun, script: &Script)
    requires { HasFewNames run.old.state.atlas }
    ensures { run.new ≡ ended (next_of (atlas_of run.old.state.atlas) (tables_of script.now)) run.old }
{
    if next_name(script, &run.state.atlas).is_none() {
        run.owed = Some(Entity::ATLAS);
        run.place = Place::Pick(0);
    }
}

/// The next birth, where the births are not over.
fn birth_turn(
    alloc: Global,
    run: &mut SerialRun,
    script: &Script,
) -> Result<Option<Entry>, AllocError>
    ghost s: { Supply }
    requires owed { run.old.owed ≡ None }
    requires place { run.old.place ≡ AtBirths }
    requires stands { IsStanding s (tables_of script.now) run.old }
    ensures further { IfOk result (λ r. IfSome r (λ e. GoesOn s (tables_of script.now) run.old e run.new)) }
    ensures none { IfOk result (λ r. IfNone r (Keeps s (tables_of script.now) run.old run.new)) }
    ensures past { IfOk result (λ r. IfNone r (IsPastBirths run.new.place)) }
    ensures owed { IfOk result (λ r. IfNone r (run.new.owed ≡ None)) }
    ensures err { OnErr result (Keeps s (tables_of script.now) run.old run.new) }
{
    let Some(name) = next_name(script, &run.state.atlas) else {
        run.place = Place::Pick(0);
        return Ok(None);
    };
    let entry = bear(alloc, &mut run.state, &mut run.versions, script, name)?;
    end_births(run, script);
    Ok(Some(entry))
}

/// The next birth, None where all names are born. Then the picks of the order come.
pub fn next_birth(
    alloc: Global,
    run: &mut SerialRun,
    script: &Script,
) -> Result<Option<Entry>, AllocError>
    ghost s: { Supply }
    requires owed { run.old.owed ≡ None }
    requires stands { IsStanding s (tables_of script.now) run.old }
    ensures further { IfOk result (λ r. IfSome r (λ e. GoesOn s (tables_of script.now) run.old e run.new)) }
    ensures none { IfOk result (λ r. IfNone r (Keeps s (tables_of script.now) run.old run.new)) }
    ensures past { IfOk result (λ r. IfNone r (IsPastBirths run.new.place)) }
    ensures owed { IfOk result (λ r. IfNone r (run.new.owed ≡ None)) }
    ensures err { OnErr result (Keeps s (tables_of script.now) run.old run.new) }
{
    match run.place {
        Place::Births => birth_turn(alloc, run, script),
        _ => Ok(None),
    }
}
