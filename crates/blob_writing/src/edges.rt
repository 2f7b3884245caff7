// The edges between containers, ascending by both numbers.
ghost use Rattle.std.specs.Prelude.{◌≡◌, ◌≤◌, ◌<◌, ◌+◌, ◌++◌, length};
ghost use Rattle.std.specs.List.{flat_map};
ghost use Rattle.data_atlas.specs.data_atlas_facts.Directory.{edges_of};
ghost use Rattle.base_bytes.specs.Blobs.{HasRoom};
ghost use Rattle.blob_grammar.specs.Spelling.{counted_edges, edge_bytes, edges_bytes};
ghost use Rattle.blob_facts.specs.Pieces.{row_edges, rows_edges};

use base_bytes::Blob;
use base_types::{Entity, FIRST_LOCUS};
use data_atlas::Atlas;

/// One more than the greatest number of a container.
const NUMBERS: u8 = FIRST_LOCUS;

/// The bytes of the edges from one number at most: 3 for each of 41.
const ROW_BYTES: usize = 123;

/// The bytes of all edges at most: those from each of 41 numbers.
const ROWS_BYTES: usize = 5043;

/// The bytes of all edges at most, with two for how many there are.
pub(crate) const EDGES_BYTES: usize = 5045;

/// How many edges lead from the container.
fn count_row(atlas: &Atlas, from: u8) -> u8
    requires { from < NUMBERS }
    ensures number { result ≡ length (row_edges (edges_of atlas.now) from NUMBERS) }
    ensures most { result ≤ NUMBERS }
{
    let mut number = 0;
    for to in 0..NUMBERS {
        if atlas.count(Entity::of(from), Entity::of(to)) > 0 {
            number += 1;
        }
    }
    number
}

fn count_rows(atlas: &Atlas) -> u16
    ensures { result ≡ length (rows_edges (edges_of atlas.now) NUMBERS NUMBERS) }
{
    let mut number = 0;
    for from in 0..NUMBERS {
        number += u16::from(count_row(atlas, from));
    }
    number
}

fn put_edge(from: u8, to: u8, count: u8, blob: &mut Blob)
    requires { HasRoom blob.old (length (edge_bytes (record { from = from; to = to; count = count }))) }
    ensures { blob.new ≡ blob.old ++ edge_bytes (record { from = from; to = to; count = count }) }
{
    blob.push(from);
    blob.push(to);
    blob.push(count);
}

/// The edges that lead from the container.
fn put_row(atlas: &Atlas, from: u8, blob: &mut Blob)
    requires from { from < NUMBERS }
    requires room { HasRoom blob.old ROW_BYTES }
    ensures row { blob.new ≡ blob.old ++ flat_map edge_bytes (row_edges (edges_of atlas.now) from NUMBERS) }
    ensures most { length blob.new ≤ length blob.old + ROW_BYTES }
{
    for to in 0..NUMBERS {
        let count = atlas.count(Entity::of(from), Entity::of(to));
        if count > 0 {
            put_edge(from, to, count, blob);
        }
    }
}

fn put_rows(atlas: &Atlas, blob: &mut Blob)
    requires { HasRoom blob.old ROWS_BYTES }
    ensures { blob.new ≡ blob.old ++ flat_map edge_bytes (rows_edges (edges_of atlas.now) NUMBERS NUMBERS) }
{
    for from in 0..NUMBERS {
        put_row(atlas, from, blob);
    }
}

/// The number of the edges, and each of them.
pub(crate) fn put_edges(atlas: &Atlas, blob: &mut Blob)
    requires { HasRoom blob.old EDGES_BYTES }
    ensures { blob.new ≡ blob.old ++ edges_bytes (counted_edges (edges_of atlas.now)) }
{
    blob.put_u16(count_rows(atlas));
    put_rows(atlas, blob);
}
