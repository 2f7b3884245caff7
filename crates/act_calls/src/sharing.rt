// Copies of capabilities, between a locus and a container.
ghost use Rattle.std.specs.Prelude.{◌≡◌, ℕ, ◌<◌, Some};
ghost use Rattle.act_invoke.specs.model_kernel.Acts.{wanted};
ghost use Rattle.act_invoke.specs.model_kernel.Outcomes.{outcome, take_cap, give as give_cap, given_cap};
ghost use Rattle.act_invoke.specs.model_kernel.Refusals.{instr_at, reg};
ghost use Rattle.act_invoke.specs.model_kernel.State.{Supply, AtlasState, ContainerCell};
ghost use Rattle.act_invoke.specs.model_acts.Views.{IsReadyLocus};
ghost use Rattle.act_invoke.specs.act_alone.Loci.{locus_of, container_with};
ghost use Rattle.act_invoke.specs.Entries.{WantsBeside};
ghost use Rattle.act_calls.specs.Calls.{is_take, is_give, CallMade};

use crate::replies::reply_with;
use act_invoke::{Head, Locus, named_entity, named_rights};
use base_types::{Cap, Instr, Reply, Rights};

fn take_from(locus: &mut Locus, head: &Head, d: u8, y: u8) -> Reply
    requires d { d < 8 }
    requires y { y < 8 }
    requires place { locus.old.place < 128 }
    ensures { (words : ℕ → ℕ) → CallMade (take_cap (locus_of locus.old) (container_with words head.now) d (reg (locus_of locus.old) y))
        (locus_of locus.new) result (Some (ContainerCell (container_with words head.now))) }
{
    let Ok(cap) = head.caps.at(locus.register(y)) else {
        return reply_with(locus, Reply::NoSlot);
    };
    let Ok(slot) = locus.caps.put(cap) else {
        return reply_with(locus, Reply::ListFull);
    };
    locus.registers[d as usize] = slot as u64;
    reply_with(locus, Reply::Ok)
}

/// A copy of a capability of the container gets into the locus's lowest empty slot. NoSlot where the container's
/// slot is empty, ListFull where the locus has no empty one.
#[tactic(auto, using(act_invoke::proofs::Entered::operands))]
pub fn take(locus: &mut Locus, head: &Head, instr: Instr) -> Reply
    requires ready { IsReadyLocus (locus_of locus.old) }
    requires instr { instr ≡ instr_at (locus_of locus.old) }
    requires wants { (x : ℕ) × WantsBeside is_take (locus_of locus.old) x }
    ensures { (me : ℕ) → (s : Supply) → (a : AtlasState) → (words : ℕ → ℕ)
        → CallMade (outcome s (locus_of locus.old) (wanted me (locus_of locus.old)) a (ContainerCell (container_with words head.now)))
        (locus_of locus.new) result (Some (ContainerCell (container_with words head.now))) }
{
    match instr {
        Instr::Take(d, _, y) => take_from(locus, head, d, y),
        _ => unreachable!(),
    }
}

fn give_to(locus: &mut Locus, head: &mut Head, d: u8, s: u8, rights: Rights) -> Reply
    requires d { d < 8 }
    requires s { s < 8 }
    requires place { locus.old.place < 128 }
    ensures { (words : ℕ → ℕ) → CallMade (give_cap (locus_of locus.old) (container_with words head.old) d (given_cap (locus_of locus.old) s rights.0))
        (locus_of locus.new) result (Some (ContainerCell (container_with words head.new))) }
{
    let view = locus.view();
    let cap = Cap {
        entity: named_entity(&view, s),
        rights: Rights(named_rights(&view, s).0 & rights.0),
    };
    let Ok(slot) = head.caps.put(cap) else {
        return reply_with(locus, Reply::ListFull);
    };
    locus.registers[d as usize] = slot as u64;
    reply_with(locus, Reply::Ok)
}

/// A copy of a capability of the locus, with no right but the named ones, gets into the container's lowest empty
/// slot. ListFull where the container has none.
#[tactic(auto, using(act_invoke::proofs::Entered::operands))]
pub fn give(locus: &mut Locus, head: &mut Head, instr: Instr) -> Reply
    requires ready { IsReadyLocus (locus_of locus.old) }
    requires instr { instr ≡ instr_at (locus_of locus.old) }
    requires wants { (x : ℕ) × WantsBeside is_give (locus_of locus.old) x }
    ensures { (me : ℕ) → (s : Supply) → (a : AtlasState) → (words : ℕ → ℕ)
        → CallMade (outcome s (locus_of locus.old) (wanted me (locus_of locus.old)) a (ContainerCell (container_with words head.old)))
        (locus_of locus.new) result (Some (ContainerCell (container_with words head.new))) }
{
    match instr {
        Instr::Give(d, _, s, rights) => give_to(locus, head, d, s, rights),
        _ => unreachable!(),
    }
}
