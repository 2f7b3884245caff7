//! Each call once.
use act_alone::{Head, Locus};
use base_types::{Entity, Instr, Kind, Region, Rights};
use data_atlas::Atlas;
use image_plain::{plain_atlas, plain_head, plain_locus};
use plain_states::{Edge, PlainContainer};
use std::collections::BTreeMap;
use std::test::Fail;

#[test]
fn an_atlas_becomes_plain(rt: HostRuntime) -> Result<(), Fail> {
    let mut atlas = Atlas::new();
    let _ = atlas.birth(Some("ground"), Kind::Container);
    let _ = atlas.birth(Some("b"), Kind::Container);
    let _ = atlas.birth(Some("l"), Kind::Locus);
    atlas.set_count(Entity::of(2), Entity::of(1), 3);
    let plain = plain_atlas(rt.alloc(), &atlas)?;
    assert!(rt; are_names(&plain.containers, &["ground", "b"]));
    assert!(rt; are_names(&plain.loci, &["l"]));
    let edge = Edge {
        from: 2,
        to: 1,
        count: 3,
    };
    assert!(rt; plain.edges.as_slice() == [edge].as_slice());
    Ok(())
}

/// Whether names are these.
fn are_names(names: &[String], wanted: &[&str]) -> bool {
    names.len() == wanted.len()
        && names
            .iter()
            .zip(wanted)
            .all(|(name, want)| name.as_str() == *want)
}

const REGION: Region = Region {
    at: 1,
    count: 1,
    target: Entity::ATLAS,
    from: 4,
    rights: Rights(1),
};

/// Whether this is the container of two pages, with tag 7, wished at each fifth version, with its region and 32 slots.
fn is_container(container: &PlainContainer) -> bool {
    (container.pages, container.tag, container.every) == (2, 7, 5)
        && container.regions.as_slice() == [REGION].as_slice()
        && container.code.as_slice() == [Instr::Halt].as_slice()
        && container.caps.len() == 32
}

#[test]
fn a_head_becomes_plain(rt: HostRuntime) -> Result<(), Fail> {
    let mut head = Head::new(2, 7, 5, Some(3), &[Instr::Halt]);
    let _ = head.regions.add(REGION);
    let container = plain_head(rt.alloc(), &head, BTreeMap::new(rt.alloc()))?;
    assert!(rt; is_container(&container));
    Ok(())
}

#[test]
fn a_locus_becomes_plain(rt: HostRuntime) -> Result<(), Fail> {
    let locus = Locus::new(Entity::of(2), 9, 1, &[Instr::Halt, Instr::Halt]);
    let plain = plain_locus(rt.alloc(), &locus)?;
    assert!(rt; plain.host == Entity::of(2) && plain.code.len() == 2 && plain.caps.len() == 32);
    Ok(())
}
