//! Looks at loci: each that isn't idle makes one step.
ghost use Rattle.std.specs.Prelude.{◌≡◌, ℕ, ◌-◌, ◌+◌, ◌<◌, ◌≤◌, ◌^◌, OnErr, OnOk, IfOk, IfSome, IfNone, Some, None, length, slice_get};
ghost use Rattle.plain_steps.specs.model_kernel.State.{Supply};
ghost use Rattle.plain_states.specs.model_sound_runs.Names.{KeepsNames};
ghost use Rattle.plain_states.specs.Plains.{atlas_of, locus_cell};
ghost use Rattle.plain_runs.specs.Looking.{AllIdle, Idles, IsInRounds, IsPastBirths, IsReadySomewhere, Stills, Turns};
ghost use Rattle.plain_steps.specs.plain_facts.Looking.{owed_after, wants_stable as stable_wanted};
ghost use Rattle.plain_runs.specs.Standing.{GoesOn, IsOver, IsStanding, Keeps};
ghost use Rattle.plain_steps.specs.plain_facts.Standing.{IsLow};
ghost use Rattle.plain_runs.specs.declared.serial.Place.TheVariants.{Pick as AtPick, Round as AtRound};
ghost use Rattle.script_types.specs.Scripts.{tables_of};

use crate::serial::{Place, SerialRun};
use base_types::{Answer, Entity, Entry, FIRST_LOCUS, Instr, MOST_ENTITIES, Reply};
use plain_states::{PlainLocus, number_among};
use plain_steps::plain_step;
use script_types::Script;
use std::alloc::AllocError;

/// Whether the next instruction of this locus is a stabilise.
fn wants_stable(loci: &[PlainLocus], locus: Entity) -> bool
    requires { 41 ≤ locus }
    ensures { result ≡ stable_wanted (locus_cell (slice_get loci.now (locus - 41))) }
{
    let place = (locus.number() - FIRST_LOCUS) as usize;
    if place >= loci.len() {
        return false;
    }
    let l = &loci[place];
    let code = &l.code;
    let at = l.place as usize;
    if at >= code.len() {
        return false;
    }
    let instr = &code[at];
    match instr {
        Instr::Stabilise(_) => true,
        _ => false,
    }
}

/// The actor of the Stable that a step with this answer owes.
fn owed_by(locus: Entity, answer: Answer, wants: bool) -> Option<Entity>
    ensures { result ≡ owed_after locus answer wants }
{
    match answer {
        Answer::Reply(Reply::Ok) => { if wants { Some(locus) } else { None } }
        _ => None,
    }
}

/// The entry of a step. An entity has a number below 64, and so has each that it touches.
fn bounded(entry: Entry) -> Entry
    ensures same { result ≡ entry }
    ensures low { IsLow entry }
{
    entry
}

/// One look at a locus: its step, if it isn't idle. On want of memory nothing is changed.
fn look<S: Fn(u64, u32, u16) -> u64>(
    run: &mut SerialRun,
    script: &Script,
    supply: &S,
    locus: Entity,
) -> Result<Option<Entry>, AllocError>
    ghost s: { Supply }
    requires callable { (t p a : ℕ) → t < 2 ^ 64 → p < 256 → a < 128 → S.pre supply.now t p a }
    requires answers { (t p a r : ℕ) → t < 2 ^ 64 → p < 256 → a < 128 → S.post supply.now t p a r → r ≡ s t p a }
    requires locus { 41 ≤ locus }
    requires ready { IsReadySomewhere s (tables_of script.now) run.old }
    ensures some { IfOk result (λ r. IfSome r (λ e. Turns s (tables_of script.now) locus run.old e run.new)) }
    ensures idle { IfOk result (λ r. IfNone r (Idles s (tables_of script.now) locus run.old)) }
    ensures none { IfOk result (λ r. IfNone r (Stills s (tables_of script.now) run.old run.new)) }
    ensures err { OnErr result (Stills s (tables_of script.now) run.old run.new) }
    ensures names { KeepsNames (atlas_of run.old.state.atlas) (atlas_of run.new.state.atlas) }
    ensures place { run.new.place ≡ run.old.place }
{
    let i = (locus.number() - FIRST_LOCUS) as usize;
    if run.made[i] >= script.steps {
        return Ok(None);
    }
    let wants = wants_stable(&run.state.loci, locus);
    match plain_step(&mut run.state, &mut run.versions, locus, supply)? {
        Some(entry) => {
            run.made[i] += 1;
            run.owed = owed_by(locus, entry.answer, wants);
            Ok(Some(bounded(entry)))
        }
        None => Ok(None),
    }
}

/// One look at a locus, after which the run is at the given place.
fn look_then<S: Fn(u64, u32, u16) -> u64>(
    run: &mut SerialRun,
    script: &Script,
    supply: &S,
    locus: Entity,
    after: Place,
) -> Result<Option<Entry>, AllocError>
    ghost s: { Supply }
    requires callable { (t p a : ℕ) → t < 2 ^ 64 → p < 256 → a < 128 → S.pre supply.now t p a }
    requires answers { (t p a r : ℕ) → t < 2 ^ 64 → p < 256 → a < 128 → S.post supply.now t p a r → r ≡ s t p a }
    requires locus { 41 ≤ locus }
    requires ready { IsReadySomewhere s (tables_of script.now) run.old }
    ensures some { IfOk result (λ r. IfSome r (λ e. Turns s (tables_of script.now) locus run.old e run.new)) }
    ensures idle { IfOk result (λ r. IfNone r (Idles s (tables_of script.now) locus run.old)) }
    ensures none { IfOk result (λ r. IfNone r (Stills s (tables_of script.now) run.old run.new)) }
    ensures err { OnErr result (Stills s (tables_of script.now) run.old run.new) }
    ensures names { KeepsNames (atlas_of run.old.state.atlas) (atlas_of run.new.state.atlas) }
    ensures place { OnOk result (run.new.place ≡ after) }
    ensures stays { OnErr result (run.new.place ≡ run.old.place) }
{
    let entry = look(run, script, supply, locus)?;
    run.place = after;
    Ok(entry)
}

/// The pick of the order at this place.
fn pick<S: Fn(u64, u32, u16) -> u64>(
    run: &mut SerialRun,
    script: &Script,
    supply: &S,
    i: usize,
) -> Result<Option<Entry>, AllocError>
    ghost s: { Supply }
    requires callable { (t p a : ℕ) → t < 2 ^ 64 → p < 256 → a < 128 → S.pre supply.now t p a }
    requires answers { (t p a r : ℕ) → t < 2 ^ 64 → p < 256 → a < 128 → S.post supply.now t p a r → r ≡ s t p a }
    requires within { i < length script.now.order.items }
    requires owed { run.old.owed ≡ None }
    requires place { run.old.place ≡ AtPick i }
    requires stands { IsStanding s (tables_of script.now) run.old }
    ensures further { IfOk result (λ r. IfSome r (λ e. GoesOn s (tables_of script.now) run.old e run.new)) }
    ensures none { IfOk result (λ r. IfNone r (Keeps s (tables_of script.now) run.old run.new)) }
    ensures place { IfOk result (λ r. IfNone r (run.new.place ≡ AtPick (i + 1))) }
    ensures owed { IfOk result (λ r. IfNone r (run.new.owed ≡ None)) }
    ensures err { OnErr result (Keeps s (tables_of script.now) run.old run.new) }
{
    let name = script.order[i].as_str();
    match number_among(&run.state.atlas.loci, name, FIRST_LOCUS) {
        Some(locus) => look_then(run, script, supply, locus, Place::Pick(i + 1)),
        None => {
            run.place = Place::Pick(i + 1);
            Ok(None)
        }
    }
}

/// The picks from this place on, up to the first of a locus that isn't idle.
fn picks_from<S: Fn(u64, u32, u16) -> u64>(
    run: &mut SerialRun,
    script: &Script,
    supply: &S,
    first: usize,
) -> Result<Option<Entry>, AllocError>
    ghost s: { Supply }
    requires callable { (t p a : ℕ) → t < 2 ^ 64 → p < 256 → a < 128 → S.pre supply.now t p a }
    requires answers { (t p a r : ℕ) → t < 2 ^ 64 → p < 256 → a < 128 → S.post supply.now t p a r → r ≡ s t p a }
    requires owed { run.old.owed ≡ None }
    requires place { run.old.place ≡ AtPick first }
    requires stands { IsStanding s (tables_of script.now) run.old }
    ensures further { IfOk result (λ r. IfSome r (λ e. GoesOn s (tables_of script.now) run.old e run.new)) }
    ensures none { IfOk result (λ r. IfNone r (Keeps s (tables_of script.now) run.old run.new)) }
    ensures place { IfOk result (λ r. IfNone r (IsInRounds run.new.place)) }
    ensures owed { IfOk result (λ r. IfNone r (run.new.owed ≡ None)) }
    ensures err { OnErr result (Keeps s (tables_of script.now) run.old run.new) }
{
    for i in first..script.order.len() {
        let entry = pick(run, script, supply, i)?;
        if entry.is_some() {
            return Ok(entry);
        }
    }
    run.place = Place::Round(FIRST_LOCUS);
    Ok(None)
}

/// The next step of a pick, None where the picks are over.
pub fn next_pick<S: Fn(u64, u32, u16) -> u64>(
    run: &mut SerialRun,
    script: &Script,
    supply: &S,
) -> Result<Option<Entry>, AllocError>
    ghost s: { Supply }
    requires callable { (t p a : ℕ) → t < 2 ^ 64 → p < 256 → a < 128 → S.pre supply.now t p a }
    requires answers { (t p a r : ℕ) → t < 2 ^ 64 → p < 256 → a < 128 → S.post supply.now t p a r → r ≡ s t p a }
    requires owed { run.old.owed ≡ None }
    requires past { IsPastBirths run.old.place }
    requires stands { IsStanding s (tables_of script.now) run.old }
    ensures further { IfOk result (λ r. IfSome r (λ e. GoesOn s (tables_of script.now) run.old e run.new)) }
    ensures none { IfOk result (λ r. IfNone r (Keeps s (tables_of script.now) run.old run.new)) }
    ensures place { IfOk result (λ r. IfNone r (IsInRounds run.new.place)) }
    ensures owed { IfOk result (λ r. IfNone r (run.new.owed ≡ None)) }
    ensures err { OnErr result (Keeps s (tables_of script.now) run.old run.new) }
{
    match run.place {
        Place::Pick(first) => picks_from(run, script, supply, first),
        Place::Round(_) => Ok(None),
        Place::Births => unreachable!(),
    }
}

/// The look of a round at the locus of this number.
fn round_look<S: Fn(u64, u32, u16) -> u64>(
    run: &mut SerialRun,
    script: &Script,
    supply: &S,
    number: u8,
) -> Result<Option<Entry>, AllocError>
    ghost s: { Supply }
    requires callable { (t p a : ℕ) → t < 2 ^ 64 → p < 256 → a < 128 → S.pre supply.now t p a }
    requires answers { (t p a r : ℕ) → t < 2 ^ 64 → p < 256 → a < 128 → S.post supply.now t p a r → r ≡ s t p a }
    requires first { 41 ≤ number }
    requires last { number < 64 }
    requires owed { run.old.owed ≡ None }
    requires place { run.old.place ≡ AtRound number }
    requires stands { IsStanding s (tables_of script.now) run.old }
    ensures further { IfOk result (λ r. IfSome r (λ e. GoesOn s (tables_of script.now) run.old e run.new)) }
    ensures none { IfOk result (λ r. IfNone r (Keeps s (tables_of script.now) run.old run.new)) }
    ensures idle { IfOk result (λ r. IfNone r (AllIdle s (tables_of script.now) number (number + 1) run.old)) }
    ensures place { IfOk result (λ r. IfNone r (run.new.place ≡ AtRound (number + 1))) }
    ensures owed { IfOk result (λ r. IfNone r (run.new.owed ≡ None)) }
    ensures err { OnErr result (Keeps s (tables_of script.now) run.old run.new) }
{
    match Entity::new(number) {
        Some(locus) => look_then(run, script, supply, locus, Place::Round(number + 1)),
        None => unreachable!(),
    }
}

/// The looks of a round from this number on, up to the first locus that isn't idle.
fn round_from<S: Fn(u64, u32, u16) -> u64>(
    run: &mut SerialRun,
    script: &Script,
    supply: &S,
    first: u8,
) -> Result<Option<Entry>, AllocError>
    ghost s: { Supply }
    requires callable { (t p a : ℕ) → t < 2 ^ 64 → p < 256 → a < 128 → S.pre supply.now t p a }
    requires answers { (t p a r : ℕ) → t < 2 ^ 64 → p < 256 → a < 128 → S.post supply.now t p a r → r ≡ s t p a }
    requires owed { run.old.owed ≡ None }
    requires place { run.old.place ≡ AtRound first }
    requires stands { IsStanding s (tables_of script.now) run.old }
    ensures further { IfOk result (λ r. IfSome r (λ e. GoesOn s (tables_of script.now) run.old e run.new)) }
    ensures none { IfOk result (λ r. IfNone r (Keeps s (tables_of script.now) run.old run.new)) }
    ensures idle { IfOk result (λ r. IfNone r (AllIdle s (tables_of script.now) first 64 run.old)) }
    ensures place { IfOk result (λ r. IfNone r (run.new.place ≡ AtRound FIRST_LOCUS)) }
    ensures owed { IfOk result (λ r. IfNone r (run.new.owed ≡ None)) }
    ensures err { OnErr result (Keeps s (tables_of script.now) run.old run.new) }
{
    for number in first..MOST_ENTITIES {
        let entry = round_look(run, script, supply, number)?;
        if entry.is_some() {
            return Ok(entry);
        }
    }
    run.place = Place::Round(FIRST_LOCUS);
    Ok(None)
}

/// The number at which the next look of the rounds is.
fn round_number(place: Place) -> u8
    requires { IsInRounds place }
    ensures { place ≡ AtRound result }
{
    match place {
        Place::Round(number) => number,
        _ => unreachable!(),
    }
}

/// The next step of the rounds, None where each locus is stopped, halted or out of steps.
pub fn next_in_rounds<S: Fn(u64, u32, u16) -> u64>(
    run: &mut SerialRun,
    script: &Script,
    supply: &S,
) -> Result<Option<Entry>, AllocError>
    ghost s: { Supply }
    requires callable { (t p a : ℕ) → t < 2 ^ 64 → p < 256 → a < 128 → S.pre supply.now t p a }
    requires answers { (t p a r : ℕ) → t < 2 ^ 64 → p < 256 → a < 128 → S.post supply.now t p a r → r ≡ s t p a }
    requires owed { run.old.owed ≡ None }
    requires place { IsInRounds run.old.place }
    requires stands { IsStanding s (tables_of script.now) run.old }
    ensures further { IfOk result (λ r. IfSome r (λ e. GoesOn s (tables_of script.now) run.old e run.new)) }
    ensures over { IfOk result (λ r. IfNone r (IsOver s (tables_of script.now) run.old)) }
    ensures none { IfOk result (λ r. IfNone r (Keeps s (tables_of script.now) run.old run.new)) }
    ensures err { OnErr result (Keeps s (tables_of script.now) run.old run.new) }
{
    let first = round_number(run.place);
    if let Some(entry) = round_from(run, script, supply, first)? {
        return Ok(Some(entry));
    }
    round_from(run, script, supply, FIRST_LOCUS)
}
