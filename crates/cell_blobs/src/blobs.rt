// Blobs of parts.
ghost use Rattle.std.specs.Prelude.{◌≡◌, take, IfSome};
ghost use Rattle.image_meaning.specs.blob_grammar.Forms.{IsNumber, SpellsContainer, SpellsLocus};
ghost use Rattle.image_meaning.specs.blob_grammar.Shapes.{IsContainerOver, IsLocusOver};
ghost use Rattle.image_meaning.specs.Parts.{Spells};
ghost use Rattle.act_look.specs.act_alone.Loci.{container_with, locus_of};
ghost use Rattle.cell_blobs.specs.Blobs.{bytes_of, spelt_in, spelt_locus, spelt_storage, HasFormedHead, IsFormed, IsFormedLocus};

use crate::ranges::{fits_number, fits_word, read_blocks, read_rights, read_walk, read_words};
use act_look::{Head, Locus};
use base_bytes::Blob;
use blob_writing::{write_atlas, write_container, write_locus};
use cell_states::{Part, Storage};

/// Writes a container with the blocks of its pages.
fn write_head(head: &Head, table: &[u32; 256], blob: &mut Blob)
    requires { IsContainerOver IsNumber IsNumber (container_with (λ _. 0) head.now) }
    ensures { SpellsContainer (container_with (λ _. 0) head.now) (take head.now.pages table.now) blob.new }
{
    fits_word(head.tag);
    fits_number(head.every);
    read_blocks(table);
    read_rights(head.caps.slots());
    write_container(head, table, blob);
}

/// Writes a locus.
fn write_formed_locus(locus: &Locus, blob: &mut Blob)
    requires { IsLocusOver IsNumber IsNumber (locus_of locus.now) }
    ensures { SpellsLocus (locus_of locus.now) blob.new }
{
    fits_number(locus.every);
    read_words(&locus.registers);
    read_walk(&locus.walk);
    read_rights(locus.caps.slots());
    write_locus(locus, blob);
}

/// Writes a container that is born.
fn write_storage(storage: &Storage, blob: &mut Blob)
    requires { HasFormedHead storage.now.memory storage.now.head }
    ensures bytes { blob.new ≡ bytes_of (spelt_storage storage.now.memory storage.now.head) }
    ensures spells { IfSome (spelt_storage storage.now.memory storage.now.head) (λ p. Spells p blob.new) }
{
    match &storage.head {
        Some(head) => write_head(head, storage.memory.table(), blob),
        None => blob.clear(),
    }
}

/// Writes a locus that is born.
fn write_born_locus(locus: &Option<Locus>, blob: &mut Blob)
    requires { IsFormedLocus locus.now }
    ensures bytes { blob.new ≡ bytes_of (spelt_locus locus.now) }
    ensures spells { IfSome (spelt_locus locus.now) (λ p. Spells p blob.new) }
{
    match locus {
        Some(locus) => write_formed_locus(locus, blob),
        None => blob.clear(),
    }
}

/// Writes what an entity is in place of what was in the blob: of a container its head and the blocks of its pages, as they are
/// in its memory. Of what isn't born nothing is written.
pub fn write_part(part: &Part, blob: &mut Blob)
    requires { IsFormed part.now }
    ensures bytes { blob.new ≡ bytes_of (spelt_in part.now) }
    ensures spells { IfSome (spelt_in part.now) (λ p. Spells p blob.new) }
{
    match part {
        Part::Atlas(atlas) => write_atlas(atlas, blob),
        Part::Container(storage) => write_storage(storage, blob),
        Part::Locus(locus) => write_born_locus(locus, blob),
    }
}
