//! What bytes spell, by the kind that is wanted.
ghost use Rattle.std.specs.Prelude.{IfOk, IfErr};
ghost use Rattle.image_fits.specs.blob_reading.Places.{IsBadBlob};
ghost use Rattle.image_blobs.specs.Loading.{IsRead};

use base_types::Kind;
use image_fits::{BadBlob, ChosenPart, read_atlas, read_container, read_locus};

// What the bytes of an entity of this kind spell.
pub(crate) fn parse(kind: Kind, bytes: &[u8]) -> Result<ChosenPart, BadBlob>
    ensures part { IfOk result (IsRead kind bytes.now) }
    ensures bad { IfErr result (IsBadBlob kind bytes.now) }
{
    match kind {
        Kind::Atlas => match read_atlas(bytes) {
            Ok(atlas) => Ok(ChosenPart::Atlas(atlas)),
            Err(bad) => Err(bad),
        },
        Kind::Container => match read_container(bytes) {
            Ok(container) => Ok(ChosenPart::Container(container)),
            Err(bad) => Err(bad),
        },
        Kind::Locus => match read_locus(bytes) {
            Ok(locus) => Ok(ChosenPart::Locus(locus)),
            Err(bad) => Err(bad),
        },
    }
}
