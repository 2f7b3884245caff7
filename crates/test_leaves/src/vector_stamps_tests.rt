use base_types::Entity;
use data_stamps::Stamp;

#[test]
fn a_stamp_tells_what_it_met_and_was_raised_to(rt: HostRuntime) {
    let mut stamp = Stamp::new();
    stamp.tick(Entity::ATLAS);
    stamp.raise(Entity::of(63), 7);
    stamp.raise(Entity::of(63), 5);
    let mut other = Stamp::default();
    other.tick(Entity::of(1));
    assert!(rt; !stamp.covers(&other.0));
    stamp.meet(&other);
    assert!(rt; stamp.covers(&other.0));
    assert!(rt; stamp.at(Entity::ATLAS) == 1);
    assert!(rt; stamp.at(Entity::of(1)) == 1);
    assert!(rt; stamp.at(Entity::of(63)) == 7);
    assert!(rt; stamp.at(Entity::of(2)) == 0);
}
