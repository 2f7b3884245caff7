// Shipments that no run made.
use base_types::Entity;
use node_shipments::{PageWords, Shipped, read_shipment};
use std::alloc::Global;
use std::test::Fail;

// The blob of an atlas with no name: its kind, no container, no locus, and two bytes of no edge.
const EMPTY_ATLAS: [u8; 5] = [0; 5];

// The blob of an atlas that names a container `a` and a locus `l`.
const ATLAS_OF_TWO: [u8; 9] = [0, 1, 1, 0x61, 1, 1, 0x6c, 0, 0];

// The shipment of an entity at a version, whose clock has that and one version of the container.
fn shipment(
    entity: Entity,
    version: u64,
    host: u64,
    bytes: &[u8],
    pages: Vec<PageWords>,
) -> Result<Shipped, Fail> {
    let mut stamp = [0; 64];
    stamp[1] = host;
    stamp[entity.number() as usize] = version;
    Ok(read_shipment(entity, version, &stamp, bytes, pages).ok_or("a shipment")?)
}

// The atlas without a name, at a version.
pub(crate) fn atlas_at(alloc: Global, version: u64) -> Result<Shipped, Fail> {
    shipment(Entity::ATLAS, version, 0, &EMPTY_ATLAS, Vec::new(alloc))
}

// The atlas at version 1, which names a container `a` and a locus `l`.
pub(crate) fn atlas_of_two(alloc: Global) -> Result<Shipped, Fail> {
    shipment(Entity::ATLAS, 1, 0, &ATLAS_OF_TWO, Vec::new(alloc))
}

// The blob of a container of so many pages: the kind, the size, the tag and the policy's number, then no entry, code, region and
// capability, and 4 bytes for each page.
fn container_blob(alloc: Global, pages: u8) -> Result<Vec<u8>, Fail> {
    let mut bytes = [0; 1043];
    bytes[0] = 1;
    bytes[1] = pages;
    bytes[15] = 255;
    Ok(bytes[..19 + 4 * usize::from(pages)].to_vec(alloc)?)
}

// A container of so many pages at version 1, each of which from a first one on has its own words.
pub(crate) fn container_from(alloc: Global, first: u8, pages: u8) -> Result<Shipped, Fail> {
    let mut all = Vec::new(alloc);
    for page in first..pages {
        let words = [u64::from(page) + 1; 128];
        all.push(PageWords { page, words })?;
    }
    let bytes = container_blob(alloc, pages)?;
    shipment(Entity::of(1), 1, 1, &bytes, all)
}

// The locus at version 2, without code, with 9 in its first register. It rests on version 1 of the container.
pub(crate) fn locus_in(alloc: Global) -> Result<Shipped, Fail> {
    let mut bytes = [0; 77];
    bytes[0] = 2;
    bytes[6] = 1;
    bytes[8] = 9;
    shipment(Entity::of(41), 2, 1, &bytes, Vec::new(alloc))
}
