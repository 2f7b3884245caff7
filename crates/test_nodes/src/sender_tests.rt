use node_world::Sender;
use std::test::Fail;

#[test]
fn a_packet_is_known_by_its_number_until_it_is_acknowledged(rt: HostRuntime) -> Result<(), Fail> {
    let mut sender = Sender::new(rt.alloc());
    assert!(rt; sender.packet(1).is_none());
    assert!(rt; sender.offer('a')? == 1);
    assert!(rt; sender.offer('b')? == 2);
    assert!(rt; sender.packet(0).is_none());
    assert!(rt; sender.packet(1) == Some(&'a'));
    assert!(rt; sender.packet(2) == Some(&'b'));
    assert!(rt; sender.packet(3).is_none());
    sender.heard(1);
    assert!(rt; sender.acked() == 1);
    assert!(rt; sender.packet(1).is_none());
    assert!(rt; sender.packet(2) == Some(&'b'));
    // the same count again, and one that comes late, take nothing off
    sender.heard(1);
    sender.heard(0);
    assert!(rt; sender.acked() == 1);
    assert!(rt; sender.packet(2) == Some(&'b'));
    assert!(rt; sender.offer('c')? == 3);
    sender.heard(3);
    assert!(rt; sender.acked() == 3);
    assert!(rt; sender.packet(3).is_none());
    assert!(rt; sender.packet(u64::MAX).is_none());
    Ok(())
}
