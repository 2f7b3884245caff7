// What an entity is, without its pages.
ghost use Rattle.node_shipments.specs.Parts.{HasSpelling, bytes_over, length_in};

use act_alone::{Head, Locus};
use base_bytes::Blob;
use blob_writing::{write_atlas, write_container, write_locus};
use data_atlas::Atlas;
use node_store::Spelt;

/// What an entity is, but for the words and the blocks of its pages.
#[derive(Drop, Debug)]
pub enum ShipPart {
    Atlas(Atlas),
    Container(Head),
    Locus(Locus),
}

impl Spelt for ShipPart {
    ghost is_formed = { HasSpelling };

    ghost bytes = { bytes_over };

    ghost length_of = { length_in };

    fn spell(&self, table: &[u32; 256], blob: &mut Blob) {
        match self {
            ShipPart::Atlas(atlas) => write_atlas(atlas, blob),
            ShipPart::Container(head) => write_container(head, table, blob),
            ShipPart::Locus(locus) => write_locus(locus, blob),
        }
    }
}
