use base_types::{Cap, Entity, Reply, Rights};
use data_capabilities::CapList;

fn cap(rights: u8) -> Cap {
    Cap {
        entity: Entity::ATLAS,
        rights: Rights(rights),
    }
}

#[test]
fn a_full_list_takes_no_more_and_an_emptied_slot_is_used_next(rt: HostRuntime) {
    let mut list = CapList::new();
    assert!(rt; list.at(0) == Err(Reply::NoSlot));
    for slot in 0..32 {
        assert!(rt; list.put(cap(slot)) == Ok(slot));
    }
    assert!(rt; list.put(cap(99)) == Err(Reply::ListFull));
    assert!(rt; list.at(32) == Err(Reply::NoSlot));
    assert!(rt; list.at(u64::MAX) == Err(Reply::NoSlot));
    assert!(rt; list.at(31) == Ok(cap(31)));
    assert!(rt; list.clear(5) == Ok(cap(5)));
    assert!(rt; list.clear(5) == Err(Reply::NoSlot));
    assert!(rt; list.put(cap(99)) == Ok(5));
    assert!(rt; list.at(5) == Ok(cap(99)));
}

#[test]
fn a_slot_is_filled_by_its_number(rt: HostRuntime) {
    let mut list = CapList::new();
    list.set(31, Some(cap(7)));
    list.set(2, Some(cap(8)));
    list.set(2, None);
    assert!(rt; list.at(31) == Ok(cap(7)));
    assert!(rt; list.at(2) == Err(Reply::NoSlot));
    assert!(rt; list.put(cap(9)) == Ok(0));
}
