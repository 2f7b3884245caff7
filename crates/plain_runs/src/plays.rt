//! Runs to their end, or over so many entries.
ghost use Rattle.std.specs.Prelude.{◌≡◌, ℕ, ◌<◌, ◌≤◌, ◌^◌, ◌++◌, OnOk, OnErr, IfOk, All, length, IsTrue, vec_len, vec_capacity, ◌∷◌, [], ◌+◌, false};
ghost use Rattle.plain_steps.specs.model_kernel.Serial.{IsSerial};
ghost use Rattle.plain_steps.specs.model_kernel.Scripts.{Script as Tables};
ghost use Rattle.plain_steps.specs.model_kernel.State.{Supply, KernelState, empty_state};
ghost use Rattle.plain_states.specs.Plains.{atlas_of, cells_of};
ghost use Rattle.plain_runs.specs.Plays.{IsPlay, Makes, Records, Replays};
ghost use Rattle.plain_steps.specs.plain_facts.Snaps.{HasNoSnapTables};
ghost use Rattle.plain_runs.specs.Standing.{IsStanding, Stands};
ghost use Rattle.script_types.specs.Rules.{IsScript};
ghost use Rattle.script_types.specs.Scripts.{tables_of};

use crate::serial::SerialRun;
use base_types::Entry;
use plain_states::{Plain, PlainAtlas};
use script_types::Script;
use std::alloc::{AllocError, Global};

/// Goes on for so many entries. False exactly where the serial history has fewer left; then, and on want of memory, as many
/// were made as there are or there was memory for.
pub fn replay<S: Fn(u64, u32, u16) -> u64>(
    alloc: Global,
    run: &mut SerialRun,
    script: &Script,
    supply: &S,
    entries: u64,
) -> Result<bool, AllocError>
    ghost s: { Supply }
    requires callable { (t p a : ℕ) → t < 2 ^ 64 → p < 256 → a < 128 → S.pre supply.now t p a }
    requires answers { (t p a r : ℕ) → t < 2 ^ 64 → p < 256 → a < 128 → S.post supply.now t p a r → r ≡ s t p a }
    requires stands { IsStanding s (tables_of script.now) run.old }
    ensures replayed { IfOk result (λ whole. Replays s (tables_of script.now) entries whole run.old run.new) }
    ensures err { OnErr result (Makes s (tables_of script.now) run.old run.new) }
{
    let mut made = 0;
    while made < entries {
        let entry = run.next(alloc, script, supply)?;
        if entry.is_none() {
            return Ok(false);
        }
        made += 1;
    }
    Ok(true)
}

/// Appends where room was made before.
fn push_within(history: &mut Vec<Entry>, entry: Entry)
    requires room { vec_len history.old < vec_capacity history.old }
    ensures { history.new.items ≡ history.old.items ++ entry ∷ [] }
{
    let _ = history.push(entry);
}

/// One entry more in the history. False where the serial history is over.
fn record_next<S: Fn(u64, u32, u16) -> u64>(
    alloc: Global,
    run: &mut SerialRun,
    script: &Script,
    supply: &S,
    history: &mut Vec<Entry>,
) -> Result<bool, AllocError>
    ghost s: { Supply }
    requires callable { (t p a : ℕ) → t < 2 ^ 64 → p < 256 → a < 128 → S.pre supply.now t p a }
    requires answers { (t p a r : ℕ) → t < 2 ^ 64 → p < 256 → a < 128 → S.post supply.now t p a r → r ≡ s t p a }
    requires stands { IsStanding s (tables_of script.now) run.old }
    ensures records { Records s (tables_of script.now) run.old history.old.items run.new history.new.items }
    ensures longer { IfOk result (λ more. IsTrue more → length history.new.items ≡ length history.old.items + 1) }
    ensures over { IfOk result (λ more. (more ≡ false) → (w : KernelState) → Stands s (tables_of script.now) w run.old history.old.items → IsSerial s (tables_of script.now) w history.new.items) }
{
    history.reserve(1)?;
    match run.next(alloc, script, supply)? {
        Some(entry) => {
            push_within(history, entry);
            Ok(true)
        }
        None => Ok(false),
    }
}

/// Goes on to the end of the serial history, and appends each entry. Where memory is wanting the run ends there.
pub fn finish<S: Fn(u64, u32, u16) -> u64>(
    alloc: Global,
    run: &mut SerialRun,
    script: &Script,
    supply: &S,
    history: &mut Vec<Entry>,
) -> Result<(), AllocError>
    ghost s: { Supply }
    requires callable { (t p a : ℕ) → t < 2 ^ 64 → p < 256 → a < 128 → S.pre supply.now t p a }
    requires answers { (t p a r : ℕ) → t < 2 ^ 64 → p < 256 → a < 128 → S.post supply.now t p a r → r ≡ s t p a }
    requires stands { (w : KernelState) × Stands s (tables_of script.now) w run.old history.old.items }
    ensures records { Records s (tables_of script.now) run.old history.old.items run.new history.new.items }
    ensures over { OnOk result ((w : KernelState) → Stands s (tables_of script.now) w run.old history.old.items → IsSerial s (tables_of script.now) w history.new.items) }
{
    loop {
        let more = record_next(alloc, run, script, supply, history)?;
        if !more {
            return Ok(());
        }
    }
}

/// What a run made.
#[derive(Drop, Debug)]
pub struct Played {
    pub state: Plain,
    pub history: Vec<Entry>,
    /// Whether memory sufficed up to the end.
    pub whole: bool,
}

/// Nothing but the atlas is born.
fn empty(alloc: Global) -> Plain
    ensures containers { result.containers.items ≡ [] }
    ensures loci { result.loci.items ≡ [] }
    ensures names { result.atlas.containers.items ≡ [] }
    ensures locus_names { result.atlas.loci.items ≡ [] }
    ensures edges { result.atlas.edges.items ≡ [] }
{
    Plain {
        atlas: PlainAtlas {
            containers: Vec::new(alloc),
            loci: Vec::new(alloc),
            edges: Vec::new(alloc),
        },
        containers: Vec::new(alloc),
        loci: Vec::new(alloc),
    }
}

/// A run that begins with nothing.
fn fresh(alloc: Global) -> SerialRun
    ensures { (s : Supply) → (script : Tables) → IsScript script → HasNoSnapTables script → Stands s script empty_state result [] }
{
    SerialRun::begin(empty(alloc), [0; 64])
}

/// Runs a script from the empty state: the births of its names, and then the loci in rounds until each is stopped, halted or
/// out of steps. Where memory is wanting the run ends there.
pub fn play<S: Fn(u64, u32, u16) -> u64>(alloc: Global, script: &Script, supply: &S) -> Played
    ghost s: { Supply }
    requires callable { (t p a : ℕ) → t < 2 ^ 64 → p < 256 → a < 128 → S.pre supply.now t p a }
    requires answers { (t p a r : ℕ) → t < 2 ^ 64 → p < 256 → a < 128 → S.post supply.now t p a r → r ≡ s t p a }
    requires code { HasNoSnapTables (tables_of script.now) }
    requires script { IsScript (tables_of script.now) }
    ensures play { IsPlay s (tables_of script.now) (cells_of s result.state) result.history.items }
    ensures names { All (λ name. length name ≤ 24) (atlas_of result.state.atlas).loci }
    ensures whole { IsTrue result.whole → IsSerial s (tables_of script.now) empty_state result.history.items }
{
    let mut run = fresh(alloc);
    let mut history = Vec::new(alloc);
    let whole = finish(alloc, &mut run, script, supply, &mut history).is_ok();
    let (state, _) = run.into_parts();
    Played {
        state,
        history,
        whole,
    }
}
