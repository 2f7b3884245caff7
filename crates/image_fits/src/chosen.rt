//! What is chosen of an entity.
use act_alone::Locus;
use base_types::Rec;
use blob_atlas::ContainerBlob;
use data_atlas::Atlas;

/// What the blob of a chosen record spells.
#[derive(Drop, Debug)]
pub enum ChosenPart {
    Atlas(Atlas),
    Container(ContainerBlob),
    Locus(Locus),
}

/// A chosen record and its part.
#[derive(Drop, Debug)]
pub struct ChosenEntity {
    pub rec: Rec,
    pub part: ChosenPart,
}
