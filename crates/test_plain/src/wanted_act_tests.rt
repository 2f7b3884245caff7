ghost use Rattle.base_types.specs.Instructions.{IsInstruction};

use base_types::{Cap, Condition, Entity, Instr, Private, Region, Reply, Right, Rights};
use model_acts::{LocusView, wants};
use std::test::Fail;

/// What is refused to a locus in container 1, which has capabilities on container 2 with all rights but Read, on
/// itself with all rights, and on the atlas with none. Registers 0 to 5 have their own numbers, 6 and 7 have 200
/// and 1000.
fn refused(instr: Instr) -> Result<Option<Reply>, Fail>
    requires { IsInstruction instr }
{
    let host = Entity::new(1).ok_or("a host")?;
    let other = Entity::new(2).ok_or("a container")?;
    let itself = Entity::new(41).ok_or("a locus")?;
    let caps = [
        Some(Cap {
            entity: other,
            rights: Rights(254),
        }),
        Some(Cap {
            entity: itself,
            rights: Rights(255),
        }),
        Some(Cap {
            entity: Entity::ATLAS,
            rights: Rights(0),
        }),
        None,
    ];
    let region = Region {
        at: 0,
        count: 1,
        target: other,
        from: 5,
        rights: Rights(2),
    };
    let elsewhere = Region {
        at: 3,
        count: 1,
        target: other,
        from: 5,
        rights: Rights(2),
    };
    let privates = [
        Private { made: host, region },
        Private {
            made: other,
            region: elsewhere,
        },
    ];
    let act = wants(&LocusView {
        registers: &[0, 1, 2, 3, 4, 5, 200, 1000],
        place: 0,
        code: &[instr],
        host,
        chain: &[],
        privates: &privates,
        caps: &caps,
        walk: None,
        condition: Condition::Running,
        every: 0,
        printed: 0,
    });
    Ok(act.refused)
}

/// Whether an instruction is refused with this, by each check before it passed.
fn is_refused(instr: Instr, reply: Reply) -> Result<bool, Fail>
    requires { IsInstruction instr }
{
    Ok(refused(instr)? == Some(reply))
}

#[test]
fn refusals_come_in_the_order_of_the_checks(rt: HostRuntime) -> Result<(), Fail> {
    assert!(rt; is_refused(Instr::Invoke(3), Reply::NoSlot)?);
    assert!(rt; is_refused(Instr::Invoke(2), Reply::WrongKind)?);
    assert!(rt; is_refused(Instr::Return, Reply::NoCaller)?);
    assert!(rt; is_refused(Instr::Load(0, 0), Reply::Denied(Right::Read))?);
    assert!(rt; is_refused(Instr::Lmap(0, 0, 1, 1, Rights(2)), Reply::Overlap)?);
    assert!(rt; is_refused(Instr::Lunmap(3), Reply::NoRegion)?);
    assert!(rt; is_refused(Instr::Drop(7), Reply::NoSlot)?);
    assert!(rt; is_refused(Instr::Stop(0), Reply::WrongKind)?);
    Ok(())
}

#[test]
fn a_map_is_refused_in_the_order_of_its_checks(rt: HostRuntime) -> Result<(), Fail> {
    let no_read = Reply::Denied(Right::Read);
    assert!(rt; is_refused(Instr::Map(2, 0, 3, 0, 0, Rights(3)), Reply::NoSlot)?);
    assert!(rt; is_refused(Instr::Map(2, 0, 1, 0, 0, Rights(3)), Reply::WrongKind)?);
    assert!(rt; is_refused(Instr::Map(0, 0, 0, 0, 0, Rights(3)), no_read)?);
    assert!(rt; is_refused(Instr::Map(0, 0, 0, 0, 0, Rights(2)), Reply::NoPage)?);
    assert!(rt; is_refused(Instr::Map(0, 6, 0, 0, 6, Rights(2)), Reply::NoPage)?);
    Ok(())
}
