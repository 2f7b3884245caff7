//! Copies that are made: what they have of the first container, what they don't, and what stays.
use crate::calls::{COPIED, copied, shown_on};
use crate::images::{PAGES_AT, alter, with_pages, with_regions};
use base_types::{Entity, Instr, Rec};
use image_reading::ImageFacts;
use plain_states::Edge;
use std::process::Abort;
use std::test::Fail;
use test_replays::{facts_of, shown};

// What the image of `with_regions` shows with a copy `b` of `a`: no capability is copied.
const COPIED_WITH_REGIONS: &str = "container a 4 7 3 1
region a 3 c 0 1 r
cap a 0 c r
word a 0 5
word a 257 9
container c 1 0 0 -
container b 4 7 3 1
region b 3 c 0 1 r
word b 0 5
word b 257 9
locus l a 0 running 0 0 0 0 0 0 0 0 0
";

// A copy of the copy, where a word of the first is another by then.
const COPIED_TWICE: &str = "container a 1 0 1 -
word a 0 6
container b 1 0 1 -
word b 0 5
container d 1 0 1 -
word d 0 5
locus l a 2 running 2 5 0 0 0 0 0 0 0
";

#[test]
fn a_container_is_copied(rt: HostRuntime) -> Result<(), Fail> {
    let alloc = rt.alloc();
    let copied = copied(alloc, with_pages(alloc, 2600, 1, &[])?, "a", "b")?;
    let mut disk = copied.disk;
    assert!(rt; copied.number == Entity::of(2));
    let shown = shown_on(alloc, &mut disk)?;
    assert!(rt; shown.as_str() == COPIED, "{shown}");
    Ok(())
}

#[test]
fn pages_regions_and_the_entry_are_copied(rt: HostRuntime) -> Result<(), Fail> {
    let alloc = rt.alloc();
    let copied = copied(alloc, with_regions(alloc)?, "a", "b")?;
    let mut disk = copied.disk;
    assert!(rt; copied.number == Entity::of(3));
    let shown = shown_on(alloc, &mut disk)?;
    assert!(rt; shown.as_str() == COPIED_WITH_REGIONS, "{shown}");
    Ok(())
}

// The code of the container at this place; none where there is none.
fn code_of(facts: &ImageFacts, place: usize) -> &[Instr] {
    match facts.state.containers.get(place) {
        Some(container) => container.code.as_slice(),
        None => &[],
    }
}

// The code of both containers is the same, of two instructions, and each shows one region of the container 2.
fn has_code_and_edges(rt: &impl Abort, facts: &ImageFacts) {
    let edges = [
        Edge {
            from: 1,
            to: 2,
            count: 1,
        },
        Edge {
            from: 3,
            to: 2,
            count: 1,
        },
    ];
    assert!(rt; facts.state.atlas.edges.as_slice() == edges.as_slice());
    assert!(rt; facts.state.containers.len() == 3);
    let first = code_of(facts, 0);
    assert!(rt; first.len() == 2);
    assert!(rt; code_of(facts, 2) == first);
}

#[test]
fn code_is_copied_and_edges_are_counted(rt: HostRuntime) -> Result<(), Fail> {
    let alloc = rt.alloc();
    let mut disk = copied(alloc, with_regions(alloc)?, "a", "b")?.disk;
    has_code_and_edges(&rt, &facts_of(alloc, &mut disk)?);
    Ok(())
}

// The clock of the atlas and of the copy: the atlas at 4, `a` at 4, `c` at 2, as `a` knew it, and the copy at 1.
fn clock() -> [u64; 64] {
    let mut stamp = [0; 64];
    stamp[0] = 4;
    stamp[1] = 4;
    stamp[2] = 2;
    stamp[3] = 1;
    stamp
}

// A record at this place of the log is of this entity, at this version, with that clock.
fn is_record(recs: &[Rec], place: usize, entity: Entity, version: u64) -> bool {
    match recs.get(place) {
        Some(rec) => rec.entity == entity && rec.version == version && rec.stamp == clock(),
        None => false,
    }
}

#[test]
fn the_atlas_and_the_copy_are_committed_with_one_clock(rt: HostRuntime) -> Result<(), Fail> {
    let alloc = rt.alloc();
    let mut disk = copied(alloc, with_regions(alloc)?, "a", "b")?.disk;
    let facts = facts_of(alloc, &mut disk)?;
    // The opening kept the four records, and two are made.
    assert!(rt; facts.log.recs.len() == 6);
    assert!(rt; is_record(&facts.log.recs, 4, Entity::ATLAS, 4));
    assert!(rt; is_record(&facts.log.recs, 5, Entity::of(3), 1));
    Ok(())
}

#[test]
fn no_other_version_rises(rt: HostRuntime) -> Result<(), Fail> {
    let alloc = rt.alloc();
    let mut disk = copied(alloc, with_regions(alloc)?, "a", "b")?.disk;
    let facts = facts_of(alloc, &mut disk)?;
    let mut versions = [0; 64];
    versions[0] = 4;
    versions[1] = 4;
    versions[2] = 2;
    versions[3] = 1;
    versions[41] = 5;
    assert!(rt; facts.cut.0 == versions);
    Ok(())
}

#[test]
fn a_copy_has_blocks_of_its_own(rt: HostRuntime) -> Result<(), Fail> {
    let alloc = rt.alloc();
    let mut disk = copied(alloc, with_pages(alloc, 2600, 1, &[])?, "a", "b")?.disk;
    // The first word of `a`, in the block that it had.
    alter(&mut disk, PAGES_AT, 6)?;
    let again = copied(alloc, disk, "b", "d")?;
    let mut disk = again.disk;
    assert!(rt; again.number == Entity::of(3));
    let shown = shown_on(alloc, &mut disk)?;
    assert!(rt; shown.as_str() == COPIED_TWICE, "{shown}");
    Ok(())
}
