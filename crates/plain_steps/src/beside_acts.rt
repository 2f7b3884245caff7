ghost use Rattle.std.specs.Prelude.{◌≡◌, ◌<◌, ◌≤◌, IfOk, OnOk, OnErr, Some, None};
ghost use Rattle.model_kernel.specs.Outcomes.{back as returned, give as given, going, invoke as invoked, leave as left, stopped, take_cap};
ghost use Rattle.model_kernel.specs.State.{Supply, ContainerCell};
ghost use Rattle.plain_states.specs.Plains.{container_of, locus_of};
ghost use Rattle.plain_facts.specs.Acts.{Acted, going_on_in};

use crate::acts::{Made, read_only, written};
use crate::local_acts::finish;
use base_types::{Answer, Call, Cap, Condition, Entity, Instr, MOST_CALLS, Reply};
use plain_states::reads::{cap_at, free_slot};
use plain_states::{PlainContainer, PlainLocus};
use std::alloc::AllocError;

// INVOCATION

/// The locus goes on in a container, at a place of its code.
fn enter(l: &mut PlainLocus, host: Entity, code: Vec<Instr>, place: u8) -> Answer
    ensures locus { locus_of l.new ≡ going_on_in (locus_of l.old) host code.items place }
    ensures answer { result ≡ Answer.Reply Reply.Ok }
{
    l.host = host;
    l.code = code;
    l.place = place;
    l.registers[7] = 0;
    l.walk = None;
    Answer::Reply(Reply::Ok)
}

/// A copy of a container's code.
fn code_of(c: &PlainContainer) -> Result<Vec<Instr>, AllocError>
    ensures { IfOk result (λ code. code.items ≡ c.now.code.items) }
{
    Vec::from_slice(*c.code.allocator(), &c.code)
}

/// A call of a container, to which a return comes back. On want of memory nothing is changed.
#[tactic(auto, unfolding(model_kernel::specs::Outcomes::invoke))]
pub fn invoke(l: &mut PlainLocus, number: Entity, c: &PlainContainer) -> Result<Answer, AllocError>
    requires place { l.old.place ≤ 128 }
    ensures locus { OnOk result ((s : Supply) → locus_of l.new ≡ (invoked (locus_of l.old) number (container_of s c.now)).locus) }
    ensures answer { IfOk result (λ answer. (s : Supply) → answer ≡ (invoked (locus_of l.old) number (container_of s c.now)).answer) }
    ensures err { OnErr result (locus_of l.new ≡ locus_of l.old) }
{
    let Some(entry) = c.entry else {
        return Ok(finish(l, Reply::NoEntry));
    };
    if l.chain.len() >= MOST_CALLS {
        return Ok(finish(l, Reply::ListFull));
    }
    let code = code_of(c)?;
    let call = Call {
        container: l.host,
        place: l.place + 1,
    };
    l.chain.push(call)?;
    Ok(enter(l, number, code, entry))
}

/// A call of a container that doesn't come back. On want of memory nothing is changed.
#[tactic(auto, unfolding(model_kernel::specs::Outcomes::leave))]
pub fn leave(l: &mut PlainLocus, number: Entity, c: &PlainContainer) -> Result<Answer, AllocError>
    requires place { l.old.place ≤ 128 }
    ensures locus { OnOk result ((s : Supply) → locus_of l.new ≡ (left (locus_of l.old) number (container_of s c.now)).locus) }
    ensures answer { IfOk result (λ answer. (s : Supply) → answer ≡ (left (locus_of l.old) number (container_of s c.now)).answer) }
    ensures err { OnErr result (locus_of l.new ≡ locus_of l.old) }
{
    let Some(entry) = c.entry else {
        return Ok(finish(l, Reply::NoEntry));
    };
    let code = code_of(c)?;
    Ok(enter(l, number, code, entry))
}

/// The return to the container of the last call. On want of memory nothing is changed.
#[tactic(auto, unfolding(model_kernel::specs::Outcomes::back))]
pub fn back(l: &mut PlainLocus, c: &PlainContainer) -> Result<Made, AllocError>
    requires place { l.old.place ≤ 128 }
    ensures made { IfOk result (λ made. (s : Supply) → Acted (returned (locus_of l.old) (container_of s c.now)) (locus_of l.new) (ContainerCell (container_of s c.now)) (ContainerCell (container_of s c.now)) made.answer made.wrote) }
    ensures err { OnErr result (locus_of l.new ≡ locus_of l.old) }
{
    let code = code_of(c)?;
    let Some(call) = l.chain.pop() else {
        return Ok(read_only(finish(l, Reply::NoCaller)));
    };
    Ok(written(enter(l, call.container, code, call.place)))
}

// CAPABILITIES

/// A copy of a container's capability in the locus's lowest empty slot.
#[tactic(auto, unfolding(model_kernel::specs::Outcomes::take_cap))]
pub fn take(l: &mut PlainLocus, c: &PlainContainer, d: u8, slot: u64) -> Answer
    requires register { d < 8 }
    requires place { l.old.place ≤ 128 }
    ensures locus { (s : Supply) → locus_of l.new ≡ (take_cap (locus_of l.old) (container_of s c.now) d slot).locus }
    ensures answer { (s : Supply) → result ≡ (take_cap (locus_of l.old) (container_of s c.now) d slot).answer }
{
    let Some(cap) = cap_at(&c.caps, slot) else {
        return finish(l, Reply::NoSlot);
    };
    let Some(free) = free_slot(&l.caps) else {
        return finish(l, Reply::ListFull);
    };
    l.registers[d as usize] = free as u64;
    l.caps[free] = Some(cap);
    finish(l, Reply::Ok)
}

/// The capability in the container's lowest empty slot.
#[tactic(auto, unfolding(model_kernel::specs::Outcomes::give))]
pub fn give(l: &mut PlainLocus, c: &mut PlainContainer, d: u8, cap: Cap) -> Answer
    requires register { d < 8 }
    requires place { l.old.place ≤ 128 }
    ensures locus { (s : Supply) → locus_of l.new ≡ (given (locus_of l.old) (container_of s c.old) d cap).locus }
    ensures answer { (s : Supply) → result ≡ (given (locus_of l.old) (container_of s c.old) d cap).answer }
    ensures container { (s : Supply) → Some (ContainerCell (container_of s c.new)) ≡ (given (locus_of l.old) (container_of s c.old) d cap).other }
{
    let Some(free) = free_slot(&c.caps) else {
        return finish(l, Reply::ListFull);
    };
    l.registers[d as usize] = free as u64;
    c.caps[free] = Some(cap);
    finish(l, Reply::Ok)
}

// CONTROL

/// A running locus stops.
pub fn stop_other(m: &mut PlainLocus)
    ensures { locus_of m.new ≡ record (locus_of m.old) { condition = stopped m.old.condition } }
{
    if let Condition::Running = m.condition {
        m.condition = Condition::Stopped;
    }
}

/// A stopped locus goes on.
pub fn let_go_on(m: &mut PlainLocus)
    ensures { locus_of m.new ≡ record (locus_of m.old) { condition = going m.old.condition } }
{
    if let Condition::Stopped = m.condition {
        m.condition = Condition::Running;
    }
}
