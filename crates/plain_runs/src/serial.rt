//! A run that gives the entries of the serial history one after another.
ghost use Rattle.std.specs.Prelude.{◌≡◌, ℕ, ◌<◌, ◌^◌, OnErr, IfOk, IfSome, IfNone, [], Some, None};
ghost use Rattle.base_types.specs.declared.histories.Event.TheVariants.{Stable};
ghost use Rattle.plain_steps.specs.model_kernel.Histories.{mark};
ghost use Rattle.plain_steps.specs.model_kernel.Scripts.{Script as Tables};
ghost use Rattle.plain_steps.specs.model_kernel.State.{Supply, KernelState};
ghost use Rattle.plain_steps.specs.plain_facts.Standing.{CanBegin};
ghost use Rattle.plain_runs.specs.Standing.{GoesOn, IsOver, IsStanding, Keeps, Stands};
ghost use Rattle.script_types.specs.Scripts.{tables_of};

use crate::looks::{next_in_rounds, next_pick};
use crate::newborns::next_birth;
use base_types::{Answer, Entity, Entry, Event, Touched};
use plain_states::Plain;
use script_types::Script;
use std::alloc::{AllocError, Global};

/// What comes next in the serial history.
#[derive(Clone, Copy, Debug)]
pub enum Place {
    /// The birth of the script's next name that is not born.
    Births,
    /// The pick of the order at this place.
    Pick(usize),
    /// In a round over all loci, that of this number.
    Round(u8),
}

/// A run of a script on plain states, and where it stands in the serial history: the births, a Stable, the picks of the
/// order, and then rounds over all loci until each is stopped, halted or out of steps.
#[derive(Drop, Debug)]
pub struct SerialRun {
    pub state: Plain,
    /// Of each entity, how often it was written.
    pub versions: [u64; 64],
    /// How many steps each locus made, from the locus 41 on.
    pub made: [u32; 23],
    /// The actor of the Stable that is owed.
    pub owed: Option<Entity>,
    pub place: Place,
}

/// The Stable that this entity owes.
fn stable_of(actor: Entity) -> Entry
    ensures { result ≡ mark Stable actor 0 }
{
    Entry {
        event: Event::Stable,
        actor,
        touched: Touched::none(),
        version: 0,
        answer: Answer::Quiet,
    }
}

/// The Stable that is owed is made.
fn pay(run: &mut SerialRun, actor: Entity) -> Entry
    requires { run.old.owed ≡ Some actor }
    ensures entry { result ≡ mark Stable actor 0 }
    ensures further { (s : Supply) → (script : Tables) → GoesOn s script run.old result run.new }
{
    run.owed = None;
    stable_of(actor)
}

/// The next entry, where no Stable is owed.
fn next_event<S: Fn(u64, u32, u16) -> u64>(
    alloc: Global,
    run: &mut SerialRun,
    script: &Script,
    supply: &S,
) -> Result<Option<Entry>, AllocError>
    ghost s: { Supply }
    requires callable { (t p a : ℕ) → t < 2 ^ 64 → p < 256 → a < 128 → S.pre supply.now t p a }
    requires answers { (t p a r : ℕ) → t < 2 ^ 64 → p < 256 → a < 128 → S.post supply.now t p a r → r ≡ s t p a }
    requires owed { run.old.owed ≡ None }
    requires stands { IsStanding s (tables_of script.now) run.old }
    ensures further { IfOk result (λ r. IfSome r (λ e. GoesOn s (tables_of script.now) run.old e run.new)) }
    ensures over { IfOk result (λ r. IfNone r (IsOver s (tables_of script.now) run.old)) }
    ensures none { IfOk result (λ r. IfNone r (Keeps s (tables_of script.now) run.old run.new)) }
    ensures err { OnErr result (Keeps s (tables_of script.now) run.old run.new) }
{
    if let Some(entry) = next_birth(alloc, run, script)? {
        return Ok(Some(entry));
    }
    if let Some(entry) = next_pick(run, script, supply)? {
        return Ok(Some(entry));
    }
    next_in_rounds(run, script, supply)
}

impl SerialRun {
    /// Stands before the first entry.
    pub fn begin(state: Plain, versions: [u64; 64]) -> SerialRun
        ensures state { result.state ≡ state }
        ensures versions { result.versions ≡ versions }
        ensures stands { (s : Supply) → (script : Tables) → (w : KernelState) → CanBegin s script w state versions → Stands s script w result [] }
    {
        SerialRun {
            state,
            versions,
            made: [0; 23],
            owed: None,
            place: Place::Births,
        }
    }

    /// The actor of the Stable that is owed now.
    pub fn owed(&self) -> Option<Entity>
        ensures { result ≡ self.now.owed }
    {
        self.owed
    }

    pub fn state(&self) -> &Plain
        ensures { result.now ≡ self.now.state }
    {
        &self.state
    }

    /// The state and the versions.
    pub fn into_parts(self) -> (Plain, [u64; 64])
        ensures state { result.0 ≡ self.state }
        ensures versions { result.1 ≡ self.versions }
    {
        let SerialRun {
            state,
            versions,
            ..
        } = self;
        (state, versions)
    }

    /// The next entry of the serial history, None where that is over. Then, and on want of memory, no state changes.
    pub fn next<S: Fn(u64, u32, u16) -> u64>(
        &mut self,
        alloc: Global,
        script: &Script,
        supply: &S,
    ) -> Result<Option<Entry>, AllocError>
        ghost s: { Supply }
        // The supplier may be asked for any word, and gives one answer each time.
        requires callable { (t p a : ℕ) → t < 2 ^ 64 → p < 256 → a < 128 → S.pre supply.now t p a }
        requires answers { (t p a r : ℕ) → t < 2 ^ 64 → p < 256 → a < 128 → S.post supply.now t p a r → r ≡ s t p a }
        requires stands { IsStanding s (tables_of script.now) self.old }
        ensures further { IfOk result (λ r. IfSome r (λ e. GoesOn s (tables_of script.now) self.old e self.new)) }
        ensures stable { IfSome self.old.owed (λ actor. IfOk result (λ r. r ≡ Some (mark Stable actor 0))) }
        ensures over { IfOk result (λ r. IfNone r (IsOver s (tables_of script.now) self.old)) }
        ensures none { IfOk result (λ r. IfNone r (Keeps s (tables_of script.now) self.old self.new)) }
        ensures err { OnErr result (Keeps s (tables_of script.now) self.old self.new) }
    {
        match self.owed {
            Some(actor) => Ok(Some(pay(self, actor))),
            None => next_event(alloc, self, script, supply),
        }
    }
}
