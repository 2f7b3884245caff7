ghost use Rattle.std.specs.Prelude.{◌≡◌, ℕ, ◌<◌, ◌↔◌, ◌^◌, if◌then◌else◌, IfOk, IfSome, IfNone, IsNone, None, OnErr};
ghost use Rattle.model_kernel.specs.Soundness.{IsSound};
ghost use Rattle.model_kernel.specs.State.{Supply};
ghost use Rattle.model_kernel.specs.Steps.{running};
ghost use Rattle.model_kernel.specs.Acts.{alone, beside};
ghost use Rattle.model_acts.specs.Views.{act_of, is_number, seen_by as act_seen_by};
ghost use Rattle.plain_states.specs.Born.{AreEdges};
ghost use Rattle.plain_states.specs.Events.{StepsTo, Stays, AreFewVersions};
ghost use Rattle.plain_states.specs.Lists.{IsActingAt, IsRunningAt, IsIdleIn};
ghost use Rattle.plain_states.specs.model_sound_runs.Names.{KeepsNames};
ghost use Rattle.plain_states.specs.Plains.{atlas_of, cells_of};

use crate::atlas_steps::{step_make, step_mapping, step_spawn};
use crate::carry::{step_atlas, step_container, step_local, step_locus, step_refused};
use base_types::{Condition, Entity, Entry, FIRST_LOCUS, Instr, Kind};
use model_acts::{Act, wants};
use plain_states::{Plain, PlainLocus};
use std::alloc::AllocError;

/// The place in its list of a locus that is born and running.
fn running_place(loci: &[PlainLocus], locus: Entity) -> Option<usize>
    ensures found { IfSome result (IsRunningAt loci.now locus) }
    ensures idle { IfNone result (IsIdleIn loci.now locus) }
{
    if locus.number() < FIRST_LOCUS {
        return None;
    }
    let place = (locus.number() - FIRST_LOCUS) as usize;
    if place >= loci.len() {
        return None;
    }
    let l = &loci[place];
    match l.condition {
        Condition::Running => Some(place),
        _ => None,
    }
}

/// An act beside the locus itself touches it alone.
fn once(locus: Entity, act: Act) -> Act
    ensures { act_of result ≡ (if is_number locus act.other then alone act.instr None else act_of act) }
{
    let Some(other) = act.other else {
        return act;
    };
    if other.number() != locus.number() {
        return act;
    }
    Act {
        instr: act.instr,
        refused: None,
        atlas: false,
        other: None,
        newborn: None,
    }
}

/// The act of the locus with this number: one that names the locus itself touches it once.
fn seen_by(locus: Entity, act: Act) -> Act
    ensures act { act_of result ≡ act_seen_by locus (act_of act) }
    ensures instruction { result.instr ≡ act.instr }
{
    match act.instr {
        Instr::Stop(_) => once(locus, act),
        Instr::Go(_) => once(locus, act),
        Instr::Snap(_) => once(locus, act),
        _ => act,
    }
}

/// The step of a locus beside another entity, by what that is. On want of memory nothing is changed.
fn step_beside<S: Fn(u64, u32, u16) -> u64>(
    state: &mut Plain,
    versions: &mut [u64; 64],
    locus: Entity,
    place: usize,
    instr: Instr,
    other: Entity,
    supply: &S,
) -> Result<Entry, AllocError>
    ghost s: { Supply }
    requires callable { (t p a : ℕ) → t < 2 ^ 64 → p < 256 → a < 128 → S.pre supply.now t p a }
    requires answers { (t p a r : ℕ) → t < 2 ^ 64 → p < 256 → a < 128 → S.post supply.now t p a r → r ≡ s t p a }
    requires sound { IsSound (cells_of s state.old) }
    requires few { AreFewVersions versions.old }
    requires acting { IsActingAt state.old.loci.items locus place (beside instr other) }
    ensures step { IfOk result (λ e. StepsTo s locus (cells_of s state.old) versions.old e (cells_of s state.new) versions.new) }
    ensures err { OnErr result (Stays (cells_of s state.old) versions.old (cells_of s state.new) versions.new) }
    ensures atlas { state.new.atlas ≡ state.old.atlas }
{
    match other.kind() {
        Kind::Atlas => Ok(step_atlas(state, versions, locus, place)),
        Kind::Container => step_container(state, versions, locus, place, instr, other, supply),
        Kind::Locus => Ok(step_locus(state, versions, locus, place, instr, other)),
    }
}

/// The step of a running locus that wants this act. On want of memory nothing is changed.
fn carry_out<S: Fn(u64, u32, u16) -> u64>(
    state: &mut Plain,
    versions: &mut [u64; 64],
    locus: Entity,
    place: usize,
    act: Act,
    supply: &S,
) -> Result<Entry, AllocError>
    ghost s: { Supply }
    requires callable { (t p a : ℕ) → t < 2 ^ 64 → p < 256 → a < 128 → S.pre supply.now t p a }
    requires answers { (t p a r : ℕ) → t < 2 ^ 64 → p < 256 → a < 128 → S.post supply.now t p a r → r ≡ s t p a }
    requires sound { IsSound (cells_of s state.old) }
    requires few { AreFewVersions versions.old }
    requires edges { AreEdges state.old.atlas.edges.items }
    requires acting { IsActingAt state.old.loci.items locus place (act_of act) }
    ensures step { IfOk result (λ e. StepsTo s locus (cells_of s state.old) versions.old e (cells_of s state.new) versions.new) }
    ensures err { OnErr result (Stays (cells_of s state.old) versions.old (cells_of s state.new) versions.new) }
    ensures edges { AreEdges state.new.atlas.edges.items }
    ensures names { KeepsNames (atlas_of state.old.atlas) (atlas_of state.new.atlas) }
{
    if let Some(reply) = act.refused {
        return Ok(step_refused(state, versions, locus, place, reply));
    }
    let instr = act.instr;
    if let Some(other) = act.other {
        if act.atlas {
            return step_mapping(state, versions, locus, place, instr, other);
        }
        return step_beside(state, versions, locus, place, instr, other, supply);
    }
    let Some(kind) = act.newborn else {
        return step_local(state, versions, locus, place, instr);
    };
    match kind {
        Kind::Container => step_make(state, versions, locus, place, instr),
        Kind::Locus => step_spawn(state, versions, locus, place, instr),
        Kind::Atlas => unreachable!(),
    }
}

/// One step of a locus. None exactly where the locus is absent, stopped or halted; then, and on want of memory,
/// nothing is changed.
pub fn plain_step<S: Fn(u64, u32, u16) -> u64>(
    state: &mut Plain,
    versions: &mut [u64; 64],
    locus: Entity,
    supply: &S,
) -> Result<Option<Entry>, AllocError>
    ghost s: { Supply }
    // The supplier may be asked for any word, and gives one answer each time.
    requires callable { (t p a : ℕ) → t < 2 ^ 64 → p < 256 → a < 128 → S.pre supply.now t p a }
    requires answers { (t p a r : ℕ) → t < 2 ^ 64 → p < 256 → a < 128 → S.post supply.now t p a r → r ≡ s t p a }

    requires sound { IsSound (cells_of s state.old) }
    requires few { AreFewVersions versions.old }
    requires edges { AreEdges state.old.atlas.edges.items }

    ensures step { IfOk result (λ r. IfSome r (λ e. StepsTo s locus (cells_of s state.old) versions.old e (cells_of s state.new) versions.new)) }
    ensures idle { IfOk result (λ r. IsNone r ↔ (running (cells_of s state.old locus) ≡ None)) }
    ensures none { IfOk result (λ r. IfNone r (Stays (cells_of s state.old) versions.old (cells_of s state.new) versions.new)) }
    ensures err { OnErr result (Stays (cells_of s state.old) versions.old (cells_of s state.new) versions.new) }

    // The state stays one that steps may be made from, and what has a name keeps it.
    ensures sound { IsSound (cells_of s state.new) }
    ensures edges { AreEdges state.new.atlas.edges.items }
    ensures names { KeepsNames (atlas_of state.old.atlas) (atlas_of state.new.atlas) }
{
    let Some(place) = running_place(&state.loci, locus) else {
        return Ok(None);
    };
    let act = seen_by(locus, wants(&state.loci[place].view()));
    let entry = carry_out(state, versions, locus, place, act, supply)?;
    Ok(Some(entry))
}
