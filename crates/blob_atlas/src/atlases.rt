//! Atlases.
ghost use Rattle.std.specs.Prelude.{IfOk, IfErr};
ghost use Rattle.base_types.specs.declared.entities.Kind.TheVariants.{Atlas as AtlasKind};
ghost use Rattle.blob_reading.specs.blob_facts.Atlases.{IsAtlasSpelled};
ghost use Rattle.blob_grammar.specs.Forms.{IsSpelling};
ghost use Rattle.blob_reading.specs.blob_facts.Fields.{IsFound, IsRefused};
ghost use Rattle.blob_reading.specs.Places.{IsBadBlob};

use crate::edges::read_edges;
use crate::names::read_names;
use base_types::{Kind, MOST_CONTAINERS, MOST_LOCI};
use blob_grammar::ATLAS_BLOB;
use blob_reading::fields::{Parsed, read_byte};
use blob_reading::{BadBlob, place_of};
use data_atlas::Atlas;

/// An atlas.
fn read_fields<'a>(bytes: &'a [u8]) -> Parsed<'a, Atlas>
    ensures read { IfOk result (λ r. IsFound IsAtlasSpelled bytes.now r.0 r.1.now) }
    ensures refused { IfErr result (λ stuck. IsRefused (IsSpelling AtlasKind) bytes.now stuck.rest.now) }
{
    let (kind, rest) = read_byte(bytes, ATLAS_BLOB, ATLAS_BLOB)?;
    let mut atlas = Atlas::new();
    let (containers, rest) = read_byte(rest, 0, MOST_CONTAINERS as u8)?;
    let (all_containers, rest) = read_names(rest, containers, Kind::Container, &mut atlas)?;
    let (loci, rest) = read_byte(rest, 0, MOST_LOCI as u8)?;
    let (all_loci, rest) = read_names(rest, loci, Kind::Locus, &mut atlas)?;
    let (all_edges, rest) = match read_edges(rest, &mut atlas) {
        Ok(read) => read,
        Err(stuck) => return Err(stuck),
    };
    Ok((atlas, rest))
}

/// Reads the blob of an atlas. It takes no memory. A byte of a name is looked at with those before it, and the last of a name is
/// compared with all names; where a name has one byte, up to 52 names are.
pub fn read_atlas(bytes: &[u8]) -> Result<Atlas, BadBlob>
    ensures read { IfOk result (λ a. IsAtlasSpelled a bytes.now) }
    ensures refused { IfErr result (IsBadBlob AtlasKind bytes.now) }
{
    let (atlas, rest) = match read_fields(bytes) {
        Ok(read) => read,
        Err(stuck) => return Err(BadBlob::Malformed(place_of(bytes, stuck.rest))),
    };
    if !rest.is_empty() {
        return Err(BadBlob::TooLong(place_of(bytes, rest)));
    }
    Ok(atlas)
}
