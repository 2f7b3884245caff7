// Containers.
ghost use Rattle.std.specs.Prelude.{◌≡◌, ◌≤◌, ◌+◌, ◌++◌, ℕ, length, take};
ghost use Rattle.base_bytes.specs.Blobs.{HasRoom};
ghost use Rattle.blob_grammar.specs.Spelling.{container_blob, entry_byte};
ghost use Rattle.blob_facts.specs.act_alone.Loci.{container_with};
ghost use Rattle.blob_facts.specs.Pieces.{head_front};

use crate::lists::{put_caps, put_code, put_regions};
use crate::numbers::put_blocks;
use base_bytes::Blob;
use base_types::MOST_PAGES;
use blob_facts::Head;
use blob_grammar::{CONTAINER_BLOB, NO_ENTRY};

/// The bytes from the kind up to the entry.
const FRONT_BYTES: usize = 16;

fn entry_byte(entry: Option<u8>) -> u8
    ensures { result ≡ entry_byte entry }
{
    match entry {
        Some(place) => place,
        None => NO_ENTRY,
    }
}

/// From the kind up to the entry.
fn put_front(head: &Head, blob: &mut Blob)
    requires { HasRoom blob.old FRONT_BYTES }
    ensures front { blob.new ≡ blob.old ++ head_front head.now }
    ensures most { length blob.new ≤ length blob.old + FRONT_BYTES }
{
    blob.push(CONTAINER_BLOB);
    blob.put_u16(head.pages);
    blob.put_u64(head.tag);
    blob.put_u32(head.every);
    blob.push(entry_byte(head.entry));
}

/// Writes a container and the block of each of its pages, 0 for none, in place of what was in the blob. Its words aren't
/// part of it, and what `pages` has behind its size isn't read.
pub fn write_container(head: &Head, pages: &[u32; 256], blob: &mut Blob)
    requires { head.now.pages ≤ MOST_PAGES }
    ensures { (words : ℕ → ℕ) → blob.new ≡ container_blob (container_with words head.now) (take head.now.pages pages.now) }
{
    blob.clear();
    put_front(head, blob);
    put_code(&head.code, blob);
    put_regions(&head.regions, blob);
    put_caps(&head.caps, blob);
    put_blocks(&pages[..head.pages as usize], blob);
}
