use base_types::{Entity, Kind, Reply};
use data_atlas::{Atlas, is_name};
use std::process::Abort;
use std::test::Fail;

// Links containers with these numbers, which have to be born and to have fewer than 255 edges.
fn link(rt: &impl Abort, atlas: &mut Atlas, from: u8, to: u8) -> Result<(), Reply> {
    assert!(rt; 1 <= from && from < 41 && 1 <= to && to < 41);
    let (from, to) = (Entity::of(from), Entity::of(to));
    assert!(rt; atlas.born(from) && atlas.born(to) && atlas.count(from, to) < 255);
    atlas.link(from, to)
}

#[test]
fn an_edge_that_closes_a_circle_is_refused(rt: HostRuntime) -> Result<(), Fail> {
    let mut atlas = Atlas::new();
    for _born in 0..3 {
        atlas.birth(None, Kind::Container)?;
    }
    let links = [
        (1, 2, Ok(())),
        (2, 3, Ok(())),
        (3, 1, Err(Reply::Circle)),
        (1, 1, Err(Reply::Circle)),
    ];
    for &(from, to, want) in &links {
        assert!(rt; link(&rt, &mut atlas, from, to) == want, "{from} to {to}");
    }
    let (two, three) = (Entity::of(2), Entity::of(3));
    assert!(rt; atlas.count(two, three) == 1);
    atlas.unlink(two, three);
    assert!(rt; atlas.count(two, three) == 0);
    assert!(rt; link(&rt, &mut atlas, 3, 1) == Ok(()));
    Ok(())
}

// The number of the entity with this name.
fn found(atlas: &Atlas, name: &str) -> Option<u8> {
    atlas.find(name).map(|entity| entity.number())
}

// Whether an entity has this name.
fn has_name(atlas: &Atlas, entity: Entity, name: &str) -> bool {
    atlas
        .name(entity)
        .is_some_and(|given| given.as_str() == name)
}

#[test]
fn names_are_made(rt: HostRuntime) -> Result<(), Fail> {
    let mut atlas = Atlas::new();
    let made = atlas.birth(None, Kind::Container)?;
    let locus = atlas.birth(None, Kind::Locus)?;
    let next = Entity::of(2);
    let atlas = &atlas;
    let names = [
        ("atlas", Some(0)),
        ("#1", Some(1)),
        ("#41", Some(41)),
        ("#2", None),
    ];
    for &(name, number) in &names {
        assert!(rt; found(atlas, name) == number, "{name}");
    }
    assert!(rt; made.number() == 1 && locus.number() == 41);
    assert!(rt; has_name(atlas, locus, "#41"));
    assert!(rt; atlas.born(made) && !atlas.born(next) && atlas.name(next).is_none());
    Ok(())
}

#[test]
fn names_are_given(rt: HostRuntime) -> Result<(), Fail> {
    let name = "Stack-2.b_";
    let mut atlas = Atlas::new();
    atlas.birth(None, Kind::Container)?;
    atlas.birth(None, Kind::Locus)?;
    assert!(rt; is_name(name) && atlas.find(name).is_none());
    let given = atlas.birth(Some(name), Kind::Container)?;
    assert!(rt; atlas.find(name) == Some(given));
    for &(kind, count) in &[(Kind::Atlas, 1), (Kind::Container, 2), (Kind::Locus, 1)] {
        assert!(rt; atlas.named(kind) == count, "{kind:?}");
    }
    Ok(())
}

#[test]
fn other_texts_are_no_names(rt: HostRuntime) {
    for &other in &["", "atlas", "#1", "2b", "a b", "abcdefghijklmnopqrstuvwxy"] {
        assert!(rt; !is_name(other), "{other}");
    }
}

#[test]
fn counts_are_set_where_nothing_is_born_too(rt: HostRuntime) {
    let mut atlas = Atlas::new();
    atlas.set_count(Entity::of(40), Entity::of(1), 255);
    assert!(rt; atlas.count(Entity::of(40), Entity::of(1)) == 255);
    assert!(rt; atlas.count(Entity::of(1), Entity::of(40)) == 0);
    atlas.unlink(Entity::of(40), Entity::of(1));
    assert!(rt; atlas.count(Entity::of(40), Entity::of(1)) == 254);
}
