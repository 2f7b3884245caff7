//! The atlas.
ghost use Rattle.std.specs.Prelude.{◌≡◌, ◌≤◌, ◌+◌, IfOk, map, string_bytes};
ghost use Rattle.data_atlas.specs.data_atlas_facts.Directory.{edges_of as counts_of};
ghost use Rattle.plain_states.specs.Born.{AreEdges};
ghost use Rattle.plain_states.specs.Plains.{atlas_of, edges_of};
ghost use Rattle.act_calls.specs.Calls.{atlas_state};
ghost use Rattle.image_plain.specs.Names.{AreNames};

use base_types::{Entity, FIRST_CONTAINER, FIRST_LOCUS, Kind};
use data_atlas::{Atlas, SIDE};
use plain_states::{Edge, PlainAtlas};
use std::alloc::{AllocError, Global};

/// A container's number is below it.
const ROW: u16 = SIDE as u16;

// The names of so many entities, from a number on.
fn names_from(alloc: Global, atlas: &Atlas, first: u8, many: u8) -> Result<Vec<String>, AllocError>
    requires { first + many ≤ 64 }
    ensures { IfOk result (λ names. AreNames atlas.now first many (map string_bytes names.items)) }
{
    let mut names = Vec::new(alloc);
    for place in 0..many {
        let name = match atlas.name(Entity::of(first + place)) {
            Some(name) => String::from_str(alloc, name.as_str())?,
            None => String::new(alloc),
        };
        names.push(name)?;
    }
    Ok(names)
}

// The counts that aren't 0, ascending by both numbers.
fn counted(alloc: Global, atlas: &Atlas) -> Result<Vec<Edge>, AllocError>
    ensures counts { IfOk result (λ edges. edges_of edges.items ≡ counts_of atlas.now) }
    ensures listed { IfOk result (λ edges. AreEdges edges.items) }
{
    let mut edges = Vec::new(alloc);
    for pair in 0..ROW * ROW {
        let from = (pair / ROW) as u8;
        let to = (pair % ROW) as u8;
        let count = atlas.count(Entity::of(from), Entity::of(to));
        if count > 0 {
            edges.push(Edge { from, to, count })?;
        }
    }
    Ok(edges)
}

/// The same atlas in ordinary lists. It takes memory for them, and looks at the count of each pair of containers.
pub fn plain_atlas(alloc: Global, atlas: &Atlas) -> Result<PlainAtlas, AllocError>
    ensures atlas { IfOk result (λ plain. atlas_of plain ≡ atlas_state atlas.now) }
    ensures edges { IfOk result (λ plain. AreEdges plain.edges.items) }
{
    let containers = names_from(alloc, atlas, FIRST_CONTAINER, atlas.named(Kind::Container))?;
    let loci = names_from(alloc, atlas, FIRST_LOCUS, atlas.named(Kind::Locus))?;
    let edges = counted(alloc, atlas)?;
    Ok(PlainAtlas {
        containers,
        loci,
        edges,
    })
}
