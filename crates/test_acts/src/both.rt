// The same step by both kernels, from the same state.
ghost use Rattle.plain_states.specs.model_kernel.Soundness.{IsSound};
ghost use Rattle.plain_states.specs.Born.{AreEdges};
ghost use Rattle.plain_states.specs.Events.{AreFewVersions};
ghost use Rattle.plain_states.specs.Plains.{cells_of};

use crate::is_ready;
use crate::kernel::{Around, kernel_step};
use crate::made::{head_from, locus_from};
use crate::same::{same_atlas, same_head, same_locus};
use act_alone::{Head, Locus};
use base_types::{Answer, Condition, Entity, Entry, Instr, Kind};
use data_atlas::Atlas;
use model_acts::Act;
use plain_states::Plain;
use plain_steps::plain_step;
use std::alloc::AllocError;
use std::process::Abort;

/// A step on a supplier whose words are the container's tag.
fn step(
    state: &mut Plain,
    versions: &mut [u64; 64],
    locus: Entity,
) -> Result<Option<Entry>, AllocError>
    requires sound { IsSound (cells_of (λ tag page place. tag) state.old) }
    requires few { AreFewVersions versions.old }
    requires edges { AreEdges state.old.atlas.edges.items }
    ensures sound { IsSound (cells_of (λ tag page place. tag) state.new) }
    ensures edges { AreEdges state.new.atlas.edges.items }
{
    plain_step(state, versions, locus, &|tag, _, _| tag)
}

/// The same, where the versions are below 2^63.
fn checked_step(
    rt: &impl Abort,
    state: &mut Plain,
    versions: &mut [u64; 64],
    locus: Entity,
) -> Result<Option<Entry>, AllocError>
    requires sound { IsSound (cells_of (λ tag page place. tag) state.old) }
    requires edges { AreEdges state.old.atlas.edges.items }
    ensures sound { IsSound (cells_of (λ tag page place. tag) state.new) }
    ensures edges { AreEdges state.new.atlas.edges.items }
{
    assert!(rt; versions.iter().all(|v| *v < 1 << 63));
    step(state, versions, locus)
}

/// The kernel's head of the container with this number.
fn head_of(state: &Plain, number: Entity) -> Option<Head> {
    if number.kind() != Kind::Container {
        return None;
    }
    head_from(state.containers.get(number.number() as usize - 1)?)
}

/// The kernel's locus of this number.
fn locus_of(state: &Plain, number: Entity) -> Option<Locus> {
    if number.kind() != Kind::Locus {
        return None;
    }
    locus_from(state.loci.get(number.number() as usize - 41)?)
}

/// What the act may touch besides the locus.
fn around(state: &Plain, act: Act) -> Around {
    let other = act.other.unwrap_or(Entity::ATLAS);
    Around {
        head: head_of(state, other),
        locus: locus_of(state, other),
        newborn_head: None,
        newborn_locus: None,
    }
}

fn is_head(state: &Plain, number: Entity, head: &Head) -> bool {
    if number.kind() != Kind::Container {
        return false;
    }
    match state.containers.get(number.number() as usize - 1) {
        Some(container) => same_head(container, head),
        None => false,
    }
}

fn is_locus(state: &Plain, number: Entity, locus: &Locus) -> bool {
    if number.kind() != Kind::Locus {
        return false;
    }
    match state.loci.get(number.number() as usize - 41) {
        Some(plain) => same_locus(plain, locus),
        None => false,
    }
}

/// The newborns of the kernel are the last of the plain one.
fn are_newborns(state: &Plain, around: &Around) -> bool {
    let head = match (&around.newborn_head, state.containers.last()) {
        (Some(head), Some(container)) => same_head(container, head),
        (Some(_), None) => false,
        _ => true,
    };
    let locus = match (&around.newborn_locus, state.loci.last()) {
        (Some(locus), Some(plain)) => same_locus(plain, locus),
        (Some(_), None) => false,
        _ => true,
    };
    head && locus
}

/// What the act touched besides the locus is the same.
fn is_around(state: &Plain, act: Act, me: Entity, around: &Around) -> bool {
    let Some(other) = act.other else {
        return true;
    };
    if other.number() == me.number() {
        return true;
    }
    let head = match &around.head {
        Some(head) => is_head(state, other, head),
        None => true,
    };
    let locus = match &around.locus {
        Some(locus) => is_locus(state, other, locus),
        None => true,
    };
    head && locus
}

/// What both kernels made of a step.
#[derive(Clone, Copy, PartialEq, Eq, Debug)]
pub enum Seen {
    /// The locus is not running, and made no step.
    Idle,
    /// The act is none of the kernel's calls.
    Apart(Instr),
    /// Both made the same of the instruction, and answered this.
    Same(Instr, Answer),
}

/// A step of the locus by both kernels, which has to make the same of all that it touches.
pub fn step_both(
    rt: &impl Abort,
    state: &mut Plain,
    versions: &mut [u64; 64],
    atlas: &mut Atlas,
    me: Entity,
) -> Result<Seen, AllocError>
    requires sound { IsSound (cells_of (λ tag page place. tag) state.old) }
    requires edges { AreEdges state.old.atlas.edges.items }
    ensures sound { IsSound (cells_of (λ tag page place. tag) state.new) }
    ensures edges { AreEdges state.new.atlas.edges.items }
{
    let Some(mut locus) = locus_of(state, me) else {
        assert!(rt; checked_step(rt, state, versions, me)?.is_none());
        return Ok(Seen::Idle);
    };
    assert!(rt; is_locus(state, me, &locus));
    if locus.condition != Condition::Running {
        assert!(rt; checked_step(rt, state, versions, me)?.is_none());
        return Ok(Seen::Idle);
    }
    assert!(rt; is_ready(&locus));
    let act = locus.wants();
    let mut around = around(state, act);
    assert!(rt; is_around(state, act, me, &around));
    let answer = kernel_step(rt, &mut locus, atlas, me, act, &mut around);
    let Some(entry) = checked_step(rt, state, versions, me)? else {
        panic!(rt; "a running locus makes a step");
    };
    let Some(answer) = answer else {
        return Ok(Seen::Apart(act.instr));
    };
    assert!(rt; entry.answer == answer);
    assert!(rt; is_locus(state, me, &locus));
    assert!(rt; is_around(state, act, me, &around));
    assert!(rt; are_newborns(state, &around));
    assert!(rt; same_atlas(&state.atlas, atlas));
    Ok(Seen::Same(act.instr, answer))
}
