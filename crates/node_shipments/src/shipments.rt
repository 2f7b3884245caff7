// A shipment.
ghost use Rattle.std.specs.Prelude.{◌≡◌, ◌≤◌, ℕ, List, length};
ghost use Rattle.node_shipments.specs.Parts.{HasSpelling, IsSoundShipment, bytes_over, length_in, part_in};
ghost use Rattle.node_shipments.specs.declared.parts.ShipPart.{ShipPart as APart};
ghost use Rattle.node_shipments.specs.node_records.Shipments.{SpellsOver};

use crate::parts::ShipPart;
use base_types::Entity;
use page_placing::PageWords;
use std::marker::Model;

/// All that a record of an entity tells: what the entity was at this version, with this clock, and the words of each page that has a block,
/// ascending by page. A page that isn't among them has the supplier's words.
#[derive(Drop)]
pub struct Shipped {
    pub(crate) entity: Entity,
    pub(crate) version: u64,
    pub(crate) stamp: [u64; 64],
    pub(crate) part: ShipPart,
    pub(crate) pages: Vec<PageWords>,
}

impl Model for Shipped {
    ghost use Rattle.node_shipments.specs.Parts.{IsSoundShipment, Shipment, shipment_of};

    ghost Value = { Shipment };

    ghost view = { λ s. shipment_of s.entity s.version s.stamp s.part s.pages.items };

    ghost invariant = { λ s. IsSoundShipment (shipment_of s.entity s.version s.stamp s.part s.pages.items) };
}

impl Shipped {
    pub fn entity(&self) -> Entity
        ensures { result ≡ self.now.entity }
    {
        self.entity
    }

    /// From 1 on.
    pub fn version(&self) -> u64
        ensures { result ≡ self.now.version }
    {
        self.version
    }

    /// Per entity the version on which this one rests; of the entity itself this one.
    pub fn stamp(&self) -> &[u64; 64]
        ensures { result.now ≡ self.now.stamp }
    {
        &self.stamp
    }

    /// What the entity was, of its kind.
    pub fn part(&self) -> &ShipPart
        ensures { result.now ≡ self.now.part }
    {
        &self.part
    }

    /// Ascending, below the size of a container; none of the atlas and of a locus.
    pub fn pages(&self) -> &[PageWords]
        ensures { result.now ≡ self.now.pages }
    {
        &self.pages
    }

    /// The law: what is true of every shipment. It has at most 256 pages. It does nothing.
    pub fn sound_law(&self)
        ensures sound { IsSoundShipment self.now }
        ensures few { length self.now.pages ≤ 256 }
    {
        let _ = &self.version;
    }
}

/// A part that has a spelling has one over each table of blocks (`spells`), of the same length (`length`), with a byte at least (`some`). It does
/// nothing.
pub fn shipment_law()
    ensures spells { (part : APart) → HasSpelling part → SpellsOver (part_in part) (bytes_over part) }
    ensures length { (part : APart) (table : List ℕ) → HasSpelling part → length table ≡ 256 → length (bytes_over part table) ≡ length_in part }
    ensures some { (part : APart) → HasSpelling part → 1 ≤ length_in part }
{}
