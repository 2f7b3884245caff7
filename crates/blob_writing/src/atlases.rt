// The atlas.
ghost use Rattle.std.specs.Prelude.{◌≡◌, ◌≤◌, ◌+◌, ◌++◌, length};
ghost use Rattle.base_bytes.specs.Blobs.{HasRoom};
ghost use Rattle.blob_grammar.specs.Spelling.{atlas_blob, listed, text_bytes};
ghost use Rattle.blob_facts.specs.act_calls.Calls.{atlas_state};
ghost use Rattle.blob_facts.specs.Pieces.{first_of, names_of};

use crate::edges::put_edges;
use base_bytes::Blob;
use base_types::{Entity, FIRST_CONTAINER, FIRST_LOCUS, Kind};
use blob_grammar::ATLAS_BLOB;
use data_atlas::{Atlas, NAME_LENGTH};

/// The bytes of a name at most: one, and its length.
const NAME_BYTES: usize = 25;

/// The bytes of all names of a kind at most: one, and those of 40 names.
const NAMES_BYTES: usize = 1001;

fn first_number(kind: Kind) -> u8
    ensures { result ≡ first_of kind }
{
    match kind {
        Kind::Atlas => 0,
        Kind::Container => FIRST_CONTAINER,
        Kind::Locus => FIRST_LOCUS,
    }
}

fn put_text(text: &str, blob: &mut Blob)
    requires short { length text.now ≤ NAME_LENGTH }
    requires room { HasRoom blob.old NAME_BYTES }
    ensures text { blob.new ≡ blob.old ++ text_bytes text.now }
    ensures most { length blob.new ≤ length blob.old + NAME_BYTES }
{
    blob.push(text.len() as u8);
    blob.put_bytes(text.as_bytes());
}

/// The names of a kind in the order of their numbers.
fn put_names(atlas: &Atlas, kind: Kind, blob: &mut Blob)
    requires { HasRoom blob.old NAMES_BYTES }
    ensures names { blob.new ≡ blob.old ++ listed text_bytes (names_of kind atlas.now) }
    ensures most { length blob.new ≤ length blob.old + NAMES_BYTES }
{
    let count = atlas.named(kind);
    let first = first_number(kind);
    blob.push(count);
    for place in 0..count {
        match atlas.name(Entity::of(first + place)) {
            Some(name) => put_text(&name, blob),
            None => {}
        }
    }
}

/// Writes the atlas in place of what was in the blob: the names of containers and of loci in the order of their numbers,
/// and the edges that count.
#[tactic(auto, unfolding(blob_grammar::specs::Spelling::atlas_blob))]
pub fn write_atlas(atlas: &Atlas, blob: &mut Blob)
    ensures { blob.new ≡ atlas_blob (atlas_state atlas.now) }
{
    blob.clear();
    blob.push(ATLAS_BLOB);
    put_names(atlas, Kind::Container, blob);
    put_names(atlas, Kind::Locus, blob);
    put_edges(atlas, blob);
}
