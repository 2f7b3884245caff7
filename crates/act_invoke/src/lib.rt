//! Going into a container, with or without a way back, and back to the caller.
#![tactic(auto)]

ghost use Rattle.std.specs.Prelude.{◌≡◌, ℕ, ◌<◌};
ghost use Rattle.act_alone.specs.model_kernel.Acts.{wanted};
ghost use Rattle.act_alone.specs.model_kernel.Outcomes.{outcome, enter as entering, finish as finished};
ghost use Rattle.act_alone.specs.model_kernel.State.{Supply, AtlasState, ContainerCell};
ghost use Rattle.act_alone.specs.model_acts.Views.{IsReadyLocus};
ghost use Rattle.act_alone.specs.Loci.{locus_of, container_with};
ghost use Rattle.act_invoke.specs.Entries.{is_invoke, is_leave, is_return, WantsBeside, Invoked};

pub use act_alone::{
    Act, Chain, Code, Head, Locus, MOST_INSTRS, Privates, named_entity, named_rights, new_region,
    next_address, next_walk,
};
use base_types::{Call, Entity, MOST_CALLS, Reply};

/// Refuses the act.
fn refuse(locus: &mut Locus, reply: Reply) -> Reply
    requires { locus.old.place < 128 }
    ensures locus { locus_of locus.new ≡ finished (locus_of locus.old) reply }
    ensures reply { result ≡ reply }
{
    let _answer = locus.finish(reply);
    reply
}

/// The locus goes on in a container, at a place of its code.
fn enter(locus: &mut Locus, host: Entity, head: &Head, place: u8)
    ensures { (words : ℕ → ℕ) → locus_of locus.new ≡ entering (locus_of locus.old) host (container_with words head.now) place locus.old.chain }
{
    locus.host = host;
    locus.code = Code::new(head.code.as_slice());
    locus.place = place;
    locus.registers[7] = 0;
    locus.walk = None;
}

/// Goes into the container that the capability names, at its entry, and keeps the way back. NoEntry where it has
/// none, ListFull where the chain has 64 calls.
pub fn invoke(locus: &mut Locus, target: Entity, head: &Head) -> Reply
    requires ready { IsReadyLocus (locus_of locus.old) }
    requires wants { WantsBeside is_invoke (locus_of locus.old) target }
    ensures { (me : ℕ) → (s : Supply) → (a : AtlasState) → (words : ℕ → ℕ)
        → Invoked (outcome s (locus_of locus.old) (wanted me (locus_of locus.old)) a (ContainerCell (container_with words head.now)))
        (locus_of locus.new) result (container_with words head.now) }
{
    let Some(entry) = head.entry else {
        return refuse(locus, Reply::NoEntry);
    };
    if locus.chain.as_slice().len() >= MOST_CALLS {
        return refuse(locus, Reply::ListFull);
    }
    let container = locus.host;
    let place = locus.place + 1;
    locus.chain.push(Call { container, place });
    enter(locus, target, head, entry);
    Reply::Ok
}

/// Goes into the container that the capability names, at its entry, and keeps no way back to this place. NoEntry
/// where it has none.
pub fn leave(locus: &mut Locus, target: Entity, head: &Head) -> Reply
    requires ready { IsReadyLocus (locus_of locus.old) }
    requires wants { WantsBeside is_leave (locus_of locus.old) target }
    ensures { (me : ℕ) → (s : Supply) → (a : AtlasState) → (words : ℕ → ℕ)
        → Invoked (outcome s (locus_of locus.old) (wanted me (locus_of locus.old)) a (ContainerCell (container_with words head.now)))
        (locus_of locus.new) result (container_with words head.now) }
{
    let Some(place) = head.entry else {
        return refuse(locus, Reply::NoEntry);
    };
    enter(locus, target, head, place);
    Reply::Ok
}

/// Goes back to the caller, whose head is given, at the place behind its call.
pub fn back(locus: &mut Locus, head: &Head) -> Reply
    requires ready { IsReadyLocus (locus_of locus.old) }
    requires wants { (x : ℕ) × WantsBeside is_return (locus_of locus.old) x }
    ensures { (me : ℕ) → (s : Supply) → (a : AtlasState) → (words : ℕ → ℕ)
        → Invoked (outcome s (locus_of locus.old) (wanted me (locus_of locus.old)) a (ContainerCell (container_with words head.now)))
        (locus_of locus.new) result (container_with words head.now) }
{
    let Some(call) = locus.chain.pop() else {
        unreachable!();
    };
    enter(locus, call.container, head, call.place);
    Reply::Ok
}
