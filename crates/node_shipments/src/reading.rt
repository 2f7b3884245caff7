// Shipments made of what a record of the entity has.
ghost use Rattle.std.specs.Prelude.{◌≡◌, ◌<◌, ℕ, IfSome, Some, slice_get, true};
ghost use Rattle.node_shipments.specs.Parts.{HasSpelling, IsReadFrom, part_in};
ghost use Rattle.node_shipments.specs.kernel_record_facts.image_meaning.Parts.{IsOf};
ghost use Rattle.node_shipments.specs.node_records.Shipments.{size_of};
ghost use Rattle.node_shipments.specs.node_store.page_placing.Writing.{AreAscending};
ghost use Rattle.node_shipments.specs.node_store.page_placing.declared.writing.PageWords.{PageWords as APage};

use crate::parts::ShipPart;
use crate::shipments::Shipped;
use base_types::{Entity, Kind};
use blob_atlas::{read_atlas, read_container, read_locus};
use page_placing::PageWords;

// What the bytes of a blob spell of an entity of this kind.
fn read_part(entity: Entity, bytes: &[u8]) -> Option<ShipPart>
    ensures { IfSome result (λ p. IsOf entity (part_in p) × HasSpelling p × IsReadFrom p bytes.now) }
{
    match entity.kind() {
        Kind::Atlas => match read_atlas(bytes) {
            Ok(atlas) => Some(ShipPart::Atlas(atlas)),
            Err(_) => None,
        },
        Kind::Container => match read_container(bytes) {
            Ok(read) => Some(ShipPart::Container(read.head)),
            Err(_) => None,
        },
        Kind::Locus => match read_locus(bytes) {
            Ok(locus) => Some(ShipPart::Locus(locus)),
            Err(_) => None,
        },
    }
}

// How many pages it has.
fn size_of(part: &ShipPart) -> u16
    ensures { result ≡ size_of (part_in part.now) }
{
    match part {
        ShipPart::Container(head) => head.pages,
        _ => 0,
    }
}

// Whether pages ascend, below a size.
fn are_ascending(pages: &[PageWords], size: u16) -> bool
    ensures ascending { result ≡ true → AreAscending pages.now }
    ensures within { result ≡ true → (k : ℕ) (q : APage) → slice_get pages.now k ≡ Some q → q.page < size }
{
    let mut least = 0;
    for page in pages {
        let number = u16::from(page.page);
        if number < least || size <= number {
            return false;
        }
        least = number + 1;
    }
    true
}

/// The shipment of an entity at a version, with its clock, where these bytes are a blob of it, and these the pages that have a block. There is one
/// where the bytes spell an entity of this kind, the version is 1 or more and stands in the clock at the entity's own place, and the pages ascend
/// below the size. It takes no memory, and looks at each byte at most twice.
pub fn read_shipment(
    entity: Entity,
    version: u64,
    stamp: &[u64; 64],
    bytes: &[u8],
    pages: Vec<PageWords>,
) -> Option<Shipped>
    ensures entity { IfSome result (λ s. s.entity ≡ entity) }
    ensures version { IfSome result (λ s. s.version ≡ version) }
    ensures stamp { IfSome result (λ s. s.stamp ≡ stamp.now) }
    ensures part { IfSome result (λ s. IsReadFrom s.part bytes.now) }
    ensures pages { IfSome result (λ s. s.pages ≡ pages.items) }
{
    if version == 0 || stamp[entity.number() as usize] != version {
        return None;
    }
    let part = read_part(entity, bytes)?;
    if !are_ascending(&pages, size_of(&part)) {
        return None;
    }
    Some(Shipped {
        entity,
        version,
        stamp: *stamp,
        part,
        pages,
    })
}
