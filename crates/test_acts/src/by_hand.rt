// Calls whose outcome is worked by hand.
ghost use Rattle.std.specs.Prelude.{◌≡◌};

use crate::is_ready;
use crate::kernel::{Around, kernel_step};
use act_alone::{Head, Locus};
use base_types::{Answer, Call, Cap, Condition, Entity, Instr, Kind, Region, Reply, Rights};
use data_atlas::Atlas;
use data_capabilities::CapList;
use std::process::Abort;

/// The container in which the locus begins.
fn home() -> Entity
    ensures { result ≡ 1 }
{
    Entity::of(1)
}

fn target() -> Entity
    ensures { result ≡ 2 }
{
    Entity::of(2)
}

/// The target's head: three instructions, and its entry at the second.
fn target_head() -> Head {
    Head::new(1, 0, 0, Some(1), &[Instr::Halt, Instr::Return, Instr::Halt])
}

/// Capabilities with every right on both containers.
fn on_both() -> CapList {
    let mut caps = CapList::new();
    let rights = Rights(255);
    caps.set(
        0,
        Some(Cap {
            entity: home(),
            rights,
        }),
    );
    caps.set(
        1,
        Some(Cap {
            entity: target(),
            rights,
        }),
    );
    caps
}

/// A locus at home, whose registers 0 and 2 name the slots of both.
fn caller(code: &[Instr; 2]) -> Locus {
    let mut locus = Locus::new(home(), 0, 0, code);
    locus.caps = on_both();
    locus.registers = [0, 3, 1, 5, 2, 0, 0, 0];
    locus
}

/// The act that the locus wants beside a container.
fn called(
    rt: &impl Abort,
    locus: &mut Locus,
    atlas: &mut Atlas,
    head: Head,
) -> Option<(Answer, Around)> {
    if locus.condition != Condition::Running {
        return None;
    }
    assert!(rt; is_ready(locus));
    let act = locus.wants();
    let mut around = Around {
        head: Some(head),
        locus: None,
        newborn_head: None,
        newborn_locus: None,
    };
    let answer = kernel_step(rt, locus, atlas, Entity::of(41), act, &mut around)?;
    Some((answer, around))
}

/// Where the locus is after a call that was answered Ok.
fn gone_to(rt: &impl Abort, locus: &mut Locus, head: Head) -> Option<(Entity, u8, usize)> {
    let (answer, _) = called(rt, locus, &mut Atlas::new(), head)?;
    assert!(rt; answer == Answer::Reply(Reply::Ok));
    assert!(rt; locus.registers[7] == 0);
    Some((locus.host, locus.place, locus.code.as_slice().len()))
}

#[test]
fn a_locus_goes_into_a_container_and_back(rt: HostRuntime) {
    let calls = [Instr::Invoke(2), Instr::Leave(2)];
    let mut locus = caller(&calls);
    assert!(rt; gone_to(&rt, &mut locus, target_head()) == Some((target(), 1, 3)));
    let way_back = Call {
        container: home(),
        place: 1,
    };
    assert!(rt; locus.chain.as_slice() == [way_back].as_slice());
    let home_head = Head::new(1, 0, 0, None, &calls);
    assert!(rt; gone_to(&rt, &mut locus, home_head) == Some((home(), 1, 2)));
    assert!(rt; locus.chain.as_slice().is_empty());
    assert!(rt; gone_to(&rt, &mut locus, target_head()) == Some((target(), 1, 3)));
    assert!(rt; locus.chain.as_slice().is_empty());
}

/// The head that a call beside it leaves, which was answered Ok.
fn changed(rt: &impl Abort, locus: &mut Locus, atlas: &mut Atlas, head: Head) -> Option<Head> {
    let (answer, around) = called(rt, locus, atlas, head)?;
    assert!(rt; answer == Answer::Reply(Reply::Ok));
    around.head
}

#[test]
fn a_region_is_mapped_and_unmapped(rt: HostRuntime) {
    let mut atlas = Atlas::new();
    assert!(rt; atlas.birth(None, Kind::Container) == Ok(home()));
    assert!(rt; atlas.birth(None, Kind::Container) == Ok(target()));
    let mut locus = caller(&[Instr::Map(0, 1, 2, 3, 4, Rights(3)), Instr::Unmap(0, 1)]);
    let head = Head::new(8, 0, 0, None, &[]);
    let head = changed(&rt, &mut locus, &mut atlas, head).expect(&rt, "a call");
    let region = Region {
        at: 3,
        count: 2,
        target: target(),
        from: 5,
        rights: Rights(3),
    };
    assert!(rt; head.regions.as_slice() == [region].as_slice());
    assert!(rt; atlas.count(home(), target()) == 1);
    let head = changed(&rt, &mut locus, &mut atlas, head).expect(&rt, "a call");
    assert!(rt; head.regions.as_slice().is_empty());
    assert!(rt; atlas.count(home(), target()) == 0);
    assert!(rt; locus.place == 2);
}
