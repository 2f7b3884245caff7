//! Edges between containers, each of a pair behind the one before it.
ghost use Rattle.std.specs.Prelude.{◌≡◌, ◌+◌, ◌≤◌, ◌<◌, ℕ, IfOk, IfErr};
ghost use Rattle.data_atlas.specs.data_atlas_facts.Directory.{edges_of};
ghost use Rattle.blob_reading.specs.blob_facts.Edges.{AreEdgesSpelled, IsEdgeIn, least_column as least_column_of, most_column as most_column_of, pair_of, row_of};
ghost use Rattle.blob_atlas.specs.Edges.{counted_as};
ghost use Rattle.blob_reading.specs.blob_facts.Fields.{IsFound, IsRefused, Spells};

use base_types::{Entity, MOST_CONTAINERS, MOST_REGIONS};
use blob_reading::fields::{Parsed, read_byte, read_number};
use data_atlas::Atlas;

/// The containers.
const ROWS: u16 = MOST_CONTAINERS as u16;

/// The pairs of containers.
const PAIRS: u16 = ROWS * ROWS;

/// The last pair of containers.
const LAST_PAIR: u16 = PAIRS - 1;

/// How many regions of one container another shows.
#[derive(Clone, Copy)]
struct Edge {
    from: u8,
    to: u8,
    count: u8,
}

/// The first container of a pair.
fn row(pair: u16) -> u8
    requires { pair < PAIRS }
    ensures { result ≡ row_of pair }
{
    (pair / ROWS + 1) as u8
}

/// The least second container of an edge from this one, where the pair is not before that one.
fn least_column(pair: u16, from: u8) -> u8
    requires { pair < PAIRS }
    ensures { result ≡ least_column_of pair from }
{
    if from == row(pair) {
        (pair % ROWS + 1) as u8
    } else {
        1
    }
}

/// The greatest second container of an edge from this one, where the pair is not behind that one.
fn most_column(pair: u16, from: u8) -> u8
    requires { pair < PAIRS }
    ensures { result ≡ most_column_of pair from }
{
    if from == row(pair) {
        (pair % ROWS + 1) as u8
    } else {
        MOST_CONTAINERS as u8
    }
}

/// The place of a pair among all pairs.
fn pair(edge: &Edge) -> u16
    requires from { (1 ≤ edge.now.from) × (edge.now.from ≤ MOST_CONTAINERS) }
    requires to { (1 ≤ edge.now.to) × (edge.now.to ≤ MOST_CONTAINERS) }
    ensures { result ≡ pair_of edge.now.from edge.now.to }
{
    ROWS * (edge.from as u16 - 1) + (edge.to as u16 - 1)
}

/// An edge of a pair that is neither before the one nor behind the other.
fn read_edge<'a>(bytes: &'a [u8], least: u16, most: u16) -> Parsed<'a, Edge>
    requires some { least ≤ most }
    requires size { most < PAIRS }
    ensures read { IfOk result (λ r. IsFound (IsEdgeIn least most) bytes.now (counted_as r.0) r.1.now) }
    ensures refused { IfErr result (λ stuck. IsRefused (Spells (IsEdgeIn least most)) bytes.now stuck.rest.now) }
{
    let first_row = row(least);
    let last_row = row(most);
    let (from, rest) = read_byte(bytes, first_row, last_row)?;
    let first_column = least_column(least, from);
    let last_column = most_column(most, from);
    let (to, rest) = read_byte(rest, first_column, last_column)?;
    let (count, rest) = read_byte(rest, 1, MOST_REGIONS as u8)?;
    Ok((Edge { from, to, count }, rest))
}

/// Fills an atlas without edges with edges. Where they are refused, it has some of them.
pub fn read_edges<'a>(bytes: &'a [u8], atlas: &mut Atlas) -> Parsed<'a, ()>
    requires none { (x y : ℕ) → edges_of atlas.old x y ≡ 0 }
    ensures read { IfOk result (λ r. IsFound AreEdgesSpelled bytes.now (edges_of atlas.new) r.1.now) }
    ensures names { (atlas.new.containers ≡ atlas.old.containers) × (atlas.new.loci ≡ atlas.old.loci) }
    ensures refused { IfErr result (λ stuck. IsRefused (Spells AreEdgesSpelled) bytes.now stuck.rest.now) }
{
    let (number, mut rest) = read_number(bytes, 2, 0, PAIRS as u64)?;
    let count = number as u16;
    let mut least = 0;
    for place in 0..count {
        let left = count - place - 1;
        let (edge, behind) = match read_edge(rest, least, LAST_PAIR - left) {
            Ok(read) => read,
            Err(stuck) => return Err(stuck),
        };
        atlas.set_count(Entity::of(edge.from), Entity::of(edge.to), edge.count);
        least = pair(&edge) + 1;
        rest = behind;
    }
    Ok(((), rest))
}
