// A step by the kernel's own calls.
ghost use Rattle.std.specs.Prelude.{◌≡◌, ℕ, None, Some};
ghost use Rattle.base_types.specs.declared.instructions.Condition.TheVariants.{Running as RunningNow};
ghost use Rattle.plain_states.specs.model_kernel.Acts.{wanted};
ghost use Rattle.plain_states.specs.model_kernel.Refusals.{instr_at};
ghost use Rattle.model_acts.specs.Views.{IsReadyLocus, act_of};
ghost use Rattle.act_alone.specs.Loci.{locus_of};
ghost use Rattle.act_invoke.specs.Entries.{WantsBeside};
ghost use Rattle.act_calls.specs.Calls.{is_map, is_unmap};

use crate::{is_counted, names_born};
use act_alone::{Head, Locus};
use act_calls::{give, go, go_itself, make, map, spawn, stop, stop_itself, take, unmap};
use act_invoke::{back, invoke, leave};
use base_types::{Answer, Entity, Instr, Kind, Reply};
use data_atlas::Atlas;
use model_acts::Act;
use std::process::Abort;

/// What stands beside the locus that makes a step.
#[derive(Drop)]
pub struct Around {
    pub head: Option<Head>,
    pub locus: Option<Locus>,
    pub newborn_head: Option<Head>,
    pub newborn_locus: Option<Locus>,
}

fn mapped(
    rt: &impl Abort,
    locus: &mut Locus,
    atlas: &mut Atlas,
    number: Entity,
    head: &mut Head,
    instr: Instr,
) -> Reply
    requires ready { IsReadyLocus (locus_of locus.old) }
    requires instr { instr ≡ instr_at (locus_of locus.old) }
    requires wants { WantsBeside is_map (locus_of locus.old) number }
{
    assert!(rt; number.kind() == Kind::Container);
    assert!(rt; atlas.born(number));
    assert!(rt; names_born(atlas, locus.caps.slots()));
    assert!(rt; is_counted(atlas, number, &head.regions));
    map(locus, atlas, number, head, instr)
}

fn unmapped(
    rt: &impl Abort,
    locus: &mut Locus,
    atlas: &mut Atlas,
    number: Entity,
    head: &mut Head,
    instr: Instr,
) -> Reply
    requires ready { IsReadyLocus (locus_of locus.old) }
    requires instr { instr ≡ instr_at (locus_of locus.old) }
    requires wants { WantsBeside is_unmap (locus_of locus.old) number }
{
    assert!(rt; number.kind() == Kind::Container);
    assert!(rt; atlas.born(number));
    assert!(rt; is_counted(atlas, number, &head.regions));
    unmap(locus, atlas, number, head, instr)
}

/// A call beside a container. None of a load and a store, which are no calls.
fn beside_container(
    rt: &impl Abort,
    locus: &mut Locus,
    atlas: &mut Atlas,
    act: Act,
    number: Entity,
    head: &mut Head,
) -> Option<Reply>
    requires ready { IsReadyLocus (locus_of locus.old) }
    requires wants { act_of act ≡ wanted 64 (locus_of locus.old) }
    requires allowed { act.refused ≡ None }
    requires other { act.other ≡ Some number }
{
    let reply = match act.instr {
        Instr::Invoke(_) => invoke(locus, number, head),
        Instr::Leave(_) => leave(locus, number, head),
        Instr::Return => back(locus, head),
        Instr::Map(..) => mapped(rt, locus, atlas, number, head, act.instr),
        Instr::Unmap(..) => unmapped(rt, locus, atlas, number, head, act.instr),
        Instr::Take(..) => take(locus, head, act.instr),
        Instr::Give(..) => give(locus, head, act.instr),
        _ => return None,
    };
    Some(reply)
}

/// A call beside another locus. None of a snap, which is not among the calls.
fn beside_locus(locus: &mut Locus, act: Act, other: &mut Locus) -> Option<Reply>
    requires ready { IsReadyLocus (locus_of locus.old) }
    requires wants { act_of act ≡ wanted 64 (locus_of locus.old) }
    requires allowed { act.refused ≡ None }
    requires other { (x : ℕ) × (act.other ≡ Some x) }
{
    match act.instr {
        Instr::Stop(_) => Some(stop(locus, other)),
        Instr::Go(_) => Some(go(locus, other)),
        _ => None,
    }
}

/// A call that names the locus itself.
fn on_itself(locus: &mut Locus, act: Act) -> Option<Reply>
    requires ready { IsReadyLocus (locus_of locus.old) }
    requires wants { act_of act ≡ wanted 64 (locus_of locus.old) }
    requires allowed { act.refused ≡ None }
    requires other { (x : ℕ) × (act.other ≡ Some x) }
{
    match act.instr {
        Instr::Stop(_) => Some(stop_itself(locus)),
        Instr::Go(_) => Some(go_itself(locus)),
        _ => None,
    }
}

fn bearing(locus: &mut Locus, atlas: &mut Atlas, act: Act, around: &mut Around) -> Option<Reply>
    requires ready { IsReadyLocus (locus_of locus.old) }
    requires wants { act_of act ≡ wanted 64 (locus_of locus.old) }
    requires allowed { act.refused ≡ None }
{
    match act.instr {
        Instr::Make(..) => Some(make(locus, atlas, &mut around.newborn_head, act.instr)),
        Instr::Spawn(..) => Some(spawn(locus, atlas, &mut around.newborn_locus, act.instr)),
        _ => None,
    }
}

fn beside(
    rt: &impl Abort,
    locus: &mut Locus,
    atlas: &mut Atlas,
    me: Entity,
    act: Act,
    other: Entity,
    around: &mut Around,
) -> Option<Reply>
    requires ready { IsReadyLocus (locus_of locus.old) }
    requires wants { act_of act ≡ wanted 64 (locus_of locus.old) }
    requires allowed { act.refused ≡ None }
    requires other { act.other ≡ Some other }
{
    if other.number() == me.number() {
        return on_itself(locus, act);
    }
    if let Some(head) = &mut around.head {
        return beside_container(rt, locus, atlas, act, other, head);
    }
    match &mut around.locus {
        Some(target) => beside_locus(locus, act, target),
        None => None,
    }
}

/// The step that the locus wants, by the kernel's calls. None of an act that is none of them.
pub fn kernel_step(
    rt: &impl Abort,
    locus: &mut Locus,
    atlas: &mut Atlas,
    me: Entity,
    act: Act,
    around: &mut Around,
) -> Option<Answer>
    requires running { locus.old.condition ≡ RunningNow }
    requires ready { IsReadyLocus (locus_of locus.old) }
    requires wants { act_of act ≡ wanted 64 (locus_of locus.old) }
{
    if !act.atlas && act.other.is_none() && act.newborn.is_none() {
        return Some(locus.local());
    }
    if act.refused.is_some() {
        return None;
    }
    let reply = match act.other {
        Some(other) => beside(rt, locus, atlas, me, act, other, around)?,
        None => bearing(locus, atlas, act, around)?,
    };
    Some(Answer::Reply(reply))
}
