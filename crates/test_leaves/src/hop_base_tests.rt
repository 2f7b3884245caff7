use base_types::{Entity, Kind, Reply, Right, Rights, Touched};
use std::test::Fail;

#[test]
fn denials_and_numbers_are_those_of_the_tables(rt: HostRuntime) -> Result<(), Fail> {
    let read_and_map = Rights(9);
    assert!(rt; read_and_map.missing(Rights(11)) == Some(Right::Write));
    assert!(rt; Rights(0).missing(Rights(128)) == Some(Right::Stabilise));
    assert!(rt; Rights(255).missing(Rights(255)) == None);
    assert!(rt; Rights(0).missing(Rights(0)) == None);
    assert!(rt; Reply::Denied(Right::Write).number() == 17);
    assert!(rt; Reply::NoNumber.number() == 10);
    assert!(rt; Touched::none().as_slice().len() == 0);
    for &(n, kind) in &[
        (1, Kind::Container),
        (40, Kind::Container),
        (41, Kind::Locus),
    ] {
        let entity = Entity::new(n).ok_or("an entity")?;
        assert!(rt; entity.kind() == kind, "at {n}");
    }
    assert!(rt; Entity::new(64) == None);
    assert!(rt; Entity::of(63).number() == 63);
    Ok(())
}
