// Whether an entity of the plain kernel and one of the kernel are the same.
use act_alone::{Head, Locus};
use base_types::{Entity, Region};
use data_atlas::Atlas;
use data_regions::RegionMap;
use plain_states::{Edge, PlainAtlas, PlainContainer, PlainLocus};

/// Whether both are the same locus.
pub fn same_locus(plain: &PlainLocus, locus: &Locus) -> bool {
    plain.registers == locus.registers
        && plain.place == locus.place
        && plain.code.as_slice() == locus.code.as_slice()
        && plain.host == locus.host
        && plain.chain.as_slice() == locus.chain.as_slice()
        && plain.privates.as_slice() == locus.privates.as_slice()
        && plain.caps.as_slice() == locus.caps.slots()
        && plain.walk == locus.walk
        && plain.condition == locus.condition
        && plain.every == locus.every
        && plain.printed == locus.printed
}

/// Whether the regions of the map are these.
fn same_regions(regions: &[Region], map: &RegionMap<16>) -> bool {
    for (place, region) in regions.iter().enumerate() {
        if map.get(place) != Some(*region) {
            return false;
        }
    }
    map.get(regions.len()).is_none()
}

/// Whether both are the same container, whose words are not looked at.
pub fn same_head(plain: &PlainContainer, head: &Head) -> bool {
    plain.pages == head.pages
        && plain.tag == head.tag
        && plain.every == head.every
        && plain.entry == head.entry
        && plain.code.as_slice() == head.code.as_slice()
        && same_regions(&plain.regions, &head.regions)
        && plain.caps.as_slice() == head.caps.slots()
}

/// The plain kernel's name of this number.
fn plain_name(plain: &PlainAtlas, number: u8) -> Option<&str> {
    if number == 0 {
        return Some("atlas");
    }
    let name = if number < 41 {
        plain.containers.get(number as usize - 1)
    } else {
        plain.loci.get(number as usize - 41)
    };
    match name {
        Some(name) => Some(name.as_str()),
        None => None,
    }
}

/// Whether both have the same name of this number, or none.
fn same_name(plain: &PlainAtlas, atlas: &Atlas, entity: Entity) -> bool {
    match (plain_name(plain, entity.number()), atlas.name(entity)) {
        (Some(name), Some(other)) => name == other.as_str(),
        (None, None) => true,
        _ => false,
    }
}

fn plain_count(edges: &[Edge], from: Entity, to: Entity) -> u8 {
    for edge in edges {
        if edge.from == from.number() && edge.to == to.number() {
            return edge.count;
        }
    }
    0
}

fn same_row(plain: &PlainAtlas, atlas: &Atlas, from: Entity) -> bool {
    for number in 0..64 {
        let Some(to) = Entity::new(number) else {
            return false;
        };
        if plain_count(&plain.edges, from, to) != atlas.count(from, to) {
            return false;
        }
    }
    true
}

/// Whether both have the same names and edges.
pub fn same_atlas(plain: &PlainAtlas, atlas: &Atlas) -> bool {
    for number in 0..64 {
        let Some(entity) = Entity::new(number) else {
            return false;
        };
        if !same_name(plain, atlas, entity) || !same_row(plain, atlas, entity) {
            return false;
        }
    }
    true
}
