//! What the step of a locus asks for, and which wishes it has to wait for.
ghost use Rattle.std.specs.Prelude.{◌≡◌, ◌<◌, ◌≤◌, ◌^◌, ℕ, Bool, slice_index};
ghost use Rattle.std.specs.List.{list_any};
ghost use Rattle.base_types.specs.declared.histories.Answer.TheVariants.{Reply as Replied};
ghost use Rattle.base_types.specs.declared.instructions.Reply.TheVariants.{Ok as AnsweredOk};
ghost use Rattle.plain_states.specs.model_kernel.Histories.{Policy as AnyPolicy, asked_by as model_asked, asks, every_of, locus_in, owed_by as model_owed, stabilises};
ghost use Rattle.plain_states.specs.model_kernel.Refusals.{entity_of, instr_at};
ghost use Rattle.plain_states.specs.model_kernel.State.{Supply};
ghost use Rattle.plain_states.specs.Plains.{cells_of, locus_of};
ghost use Rattle.trace_steps.specs.Asking.{due_at, if_ok};

use crate::queries::every_at;
use base_types::{Answer, Entity, FIRST_LOCUS, Instr, Kind, Reply, Touch};
use plain_states::{Plain, PlainLocus};
use trace_state::Wishes;

/// The instruction at the locus's place. Past the end of the code it halts.
fn next_instr(locus: &PlainLocus) -> Instr
    ensures { result ≡ instr_at (locus_of locus.now) }
{
    match locus.code.get(locus.place as usize) {
        Some(instr) => *instr,
        None => Instr::Halt,
    }
}

/// The entity of the capability in the slot that a register names. The atlas where there is none.
fn named(locus: &PlainLocus, register: u8) -> Entity
    ensures { result ≡ entity_of (locus_of locus.now) register }
{
    let slot = match locus.registers.get(register as usize) {
        Some(slot) => *slot,
        None => 0,
    };
    match locus.caps.get(slot as usize) {
        Some(Some(cap)) => cap.entity,
        _ => Entity::ATLAS,
    }
}

/// The entity that the locus's next instruction asks a record of, if it is answered Ok.
fn asked_next(locus: &PlainLocus) -> Option<Entity>
    ensures { result ≡ asks (Replied AnsweredOk) (instr_at (locus_of locus.now)) (locus_of locus.now) }
{
    match next_instr(locus) {
        Instr::Snap(c) => Some(named(locus, c)),
        _ => None,
    }
}

/// Whether the locus's next instruction is a stabilise.
fn stabilises_next(locus: &PlainLocus) -> bool
    ensures { result ≡ stabilises (Replied AnsweredOk) (instr_at (locus_of locus.now)) }
{
    match next_instr(locus) {
        Instr::Stabilise(_) => true,
        _ => false,
    }
}

/// The entity that the next step of a locus asks a record of, if it is answered Ok.
pub fn asked_at(state: &Plain, locus: Entity) -> Option<Entity>
    requires { 41 ≤ locus }
    ensures { (s : Supply) → model_asked (Replied AnsweredOk) (locus_in (cells_of s state.now locus)) ≡ result }
{
    match state.loci.get((locus.number() - FIRST_LOCUS) as usize) {
        Some(l) => asked_next(l),
        None => None,
    }
}

/// The locus, where its next step owes a Stable if it is answered Ok.
pub fn owed_at(state: &Plain, locus: Entity) -> Option<Entity>
    requires { 41 ≤ locus }
    ensures { (s : Supply) → model_owed locus (Replied AnsweredOk) (locus_in (cells_of s state.now locus)) ≡ result }
{
    match state.loci.get((locus.number() - FIRST_LOCUS) as usize) {
        Some(l) => {
            if stabilises_next(l) {
                Some(locus)
            } else {
                None
            }
        }
        None => None,
    }
}

/// What was asked for, where the answer is Ok.
pub fn where_ok(answer: Answer, asked: Option<Entity>) -> Option<Entity>
    ensures { result ≡ if_ok answer asked }
{
    match answer {
        Answer::Reply(Reply::Ok) => asked,
        _ => None,
    }
}

/// The intervals of all entities.
pub fn intervals(state: &Plain) -> [u32; 64]
    ensures { (s : Supply) (x : ℕ) → x < 64 → every_of (cells_of s state.now x) ≡ slice_index result x }
{
    let mut everies = [0; 64];
    for (x, every) in everies.iter_mut().enumerate() {
        *every = every_at(state, Entity::of(x as u8));
    }
    everies
}

/// Whether the entity with this number has a wish that has to be met before it is touched again.
fn is_due<P: Fn(u32, u64) -> bool>(
    wishes: &Wishes,
    everies: &[u32; 64],
    versions: &[u64; 64],
    x: usize,
    policy: &P,
) -> bool
    ghost p: { AnyPolicy }
    requires callable { (every since : ℕ) → every < 2 ^ 32 → since < 2 ^ 64 → P.pre policy.now every since }
    requires answers { (every since : ℕ) (r : Bool) → every < 2 ^ 32 → since < 2 ^ 64 → P.post policy.now every since r → r ≡ p every since }
    requires entity { x < 64 }
    ensures { result ≡ due_at p wishes.now everies.now versions.now x }
{
    let open = wishes.is_open(x, everies[x], versions[x], policy);
    open && !wishes.was_full[x]
}

/// Whether a touched entity has such a wish.
pub fn is_any_due<P: Fn(u32, u64) -> bool>(
    wishes: &Wishes,
    everies: &[u32; 64],
    versions: &[u64; 64],
    touched: &[Touch],
    policy: &P,
) -> bool
    ghost p: { AnyPolicy }
    requires callable { (every since : ℕ) → every < 2 ^ 32 → since < 2 ^ 64 → P.pre policy.now every since }
    requires answers { (every since : ℕ) (r : Bool) → every < 2 ^ 32 → since < 2 ^ 64 → P.post policy.now every since r → r ≡ p every since }
    ensures { result ≡ list_any (λ t. due_at p wishes.now everies.now versions.now t.entity) touched.now }
{
    for touch in touched {
        if is_due(
            wishes,
            everies,
            versions,
            touch.entity.number() as usize,
            policy,
        ) {
            return true;
        }
    }
    false
}
