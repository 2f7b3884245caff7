//! Whether edges lead from a container to another: marks that spread until nothing new is marked.
ghost use Rattle.std.specs.Prelude.{◌≡◌, ◌<◌, find};
ghost use Rattle.base_types.specs.Edges.{leads as leads_within};
ghost use Rattle.plain_states.specs.EdgeLists.{AreReadyEdges, leads_out as is_way_out};
ghost use Rattle.plain_states.specs.Plains.{edges_of};

use crate::plain::Edge;
use base_types::Entity;

/// As many marks as the number of an edge's end may have values.
const MARKS: usize = 256;

/// Whether the edge leads from a marked number to one that isn't.
fn leads_out(edge: &Edge, marks: &[bool; MARKS]) -> bool
    ensures { result ≡ is_way_out marks.now edge.now }
{
    marks[edge.from as usize] && !marks[edge.to as usize]
}

/// An edge from a marked number to one that isn't.
fn way_out(edges: &[Edge], marks: &[bool; MARKS]) -> Option<Edge>
    ensures { result ≡ find (is_way_out marks.now) edges.now }
{
    edges.iter().copied().find(|edge| leads_out(edge, marks))
}

/// Whether edges lead from the one to the other, also over none. Each turn marks one number more.
pub fn leads(edges: &[Edge], from: Entity, to: Entity) -> bool
    requires edges { AreReadyEdges edges.now }
    requires from { from < 41 }
    ensures { result ≡ leads_within 40 (edges_of edges.now) from to }
{
    let mut marks = [false; MARKS];
    let start = from.number() as usize;
    marks[start] = true;
    while let Some(edge) = way_out(edges, &marks) {
        let end = edge.to as usize;
        marks[end] = true;
    }
    let goal = to.number() as usize;
    marks[goal]
}
