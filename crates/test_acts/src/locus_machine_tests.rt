ghost use Rattle.model_acts.specs.Views.{IsReadyLocus};
ghost use Rattle.act_alone.specs.Loci.{locus_of};

use act_alone::Locus;
use base_types::{Answer, Cap, Condition, Entity, Instr, Reply, Rights};
use std::test::Fail;

/// The answer of a step that touches the locus alone. None of one that doesn't, or of a locus that halted.
fn step(locus: &mut Locus) -> Option<Answer>
    requires { IsReadyLocus (locus_of locus.old) }
    ensures { IsReadyLocus (locus_of locus.new) }
{
    if locus.condition != Condition::Running {
        return None;
    }
    let act = locus.wants();
    if act.atlas || act.other.is_some() || act.newborn.is_some() {
        return None;
    }
    Some(locus.local())
}

/// Whether the next steps of a locus answer this.
fn answers(locus: &mut Locus, wanted: &[Answer]) -> bool
    requires { IsReadyLocus (locus_of locus.old) }
    ensures { IsReadyLocus (locus_of locus.new) }
{
    for answer in wanted {
        if step(locus) != Some(*answer) {
            return false;
        }
    }
    true
}

const SUMS: &[Answer] = &[
    Answer::Quiet,
    Answer::Quiet,
    Answer::Print(18_446_744_073_709_551_611),
    Answer::Reply(Reply::NoSlot),
    Answer::Print(1),
    Answer::Quiet,
];

#[test]
fn sums_wrap_and_refusals_are_answered_in_register_7(rt: HostRuntime) -> Result<(), Fail> {
    let host = Entity::new(1).ok_or("a host")?;
    let code = [
        Instr::Set(0, 5),
        Instr::Sub(1, 0),
        Instr::Print(1),
        Instr::Drop(0),
        Instr::Print(7),
    ];
    let mut locus = Locus::new(host, 0, 0, &code);
    assert!(rt; answers(&mut locus, SUMS));
    assert!(rt; (locus.printed, locus.place) == (2, 5));
    assert!(rt; locus.condition == Condition::Halted);
    Ok(())
}

const MAPPED: &[Answer] = &[Answer::Quiet, Answer::Reply(Reply::Ok)];

const UNMAPPED: &[Answer] = &[Answer::Reply(Reply::Overlap), Answer::Reply(Reply::Ok)];

const DROPPED: &[Answer] = &[Answer::Reply(Reply::NoRegion), Answer::Reply(Reply::Ok)];

#[test]
fn private_regions_are_made_and_taken_out(rt: HostRuntime) -> Result<(), Fail> {
    let host = Entity::new(1).ok_or("a host")?;
    let map = Instr::Lmap(0, 0, 0, 1, Rights(3));
    let code = [
        Instr::Set(1, 2),
        map,
        map,
        Instr::Lunmap(0),
        Instr::Lunmap(0),
        Instr::Drop(0),
    ];
    let mut locus = Locus::new(host, 0, 0, &code);
    let cap = Cap {
        entity: Entity::new(2).ok_or("a container")?,
        rights: Rights(3),
    };
    assert!(rt; locus.caps.put(cap) == Ok(0));
    assert!(rt; answers(&mut locus, MAPPED) && locus.privates.as_slice().len() == 1);
    assert!(rt; answers(&mut locus, UNMAPPED) && locus.privates.as_slice().is_empty());
    assert!(rt; answers(&mut locus, DROPPED));
    assert!(rt; locus.caps.at(0) == Err(Reply::NoSlot));
    Ok(())
}
