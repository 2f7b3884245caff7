//! The counted edges of an atlas, one more and one less.
ghost use Rattle.std.specs.Prelude.{◌≡◌, ◌<◌, ◌≤◌, length, vec_len, vec_capacity};
ghost use Rattle.std.specs.List.{insert, position_or_len};
ghost use Rattle.plain_states.specs.EdgeLists.{edge_less, edge_more, is_edge as is_this, is_reached as is_at_or_behind};
ghost use Rattle.plain_states.specs.Born.{AreEdges};
ghost use Rattle.plain_states.specs.Plains.{edges_of};

use crate::plain::Edge;

fn is_edge(edge: &Edge, from: u8, to: u8) -> bool
    ensures { result ≡ is_this from to edge.now }
{
    edge.from == from && edge.to == to
}

/// Whether the edge is the one from `from` to `to`, or stands behind it.
fn is_reached(edge: &Edge, from: u8, to: u8) -> bool
    ensures { result ≡ is_at_or_behind from to edge.now }
{
    from < edge.from || from == edge.from && to <= edge.to
}

/// Where the edge stands or has to be put.
fn place_of_edge(edges: &[Edge], from: u8, to: u8) -> usize
    ensures place { result ≡ position_or_len (is_at_or_behind from to) edges.now }
    ensures within { result ≤ length edges.now }
{
    for (place, edge) in edges.iter().enumerate() {
        if is_reached(edge, from, to) {
            return place;
        }
    }
    edges.len()
}

/// Where the edge stands, or the end.
fn place_of_this(edges: &[Edge], from: u8, to: u8) -> usize
    ensures place { result ≡ position_or_len (is_this from to) edges.now }
    ensures within { result ≤ length edges.now }
{
    for (place, edge) in edges.iter().enumerate() {
        if is_edge(edge, from, to) {
            return place;
        }
    }
    edges.len()
}

/// Puts in an item where room was made before.
fn insert_within<T: Drop>(list: &mut Vec<T>, place: usize, item: T)
    requires room { vec_len list.old < vec_capacity list.old }
    requires within { place ≤ vec_len list.old }
    ensures { list.new.items ≡ insert list.old.items place item }
{
    let _ = list.insert(place, item);
}

/// One region more of `to` that `from` shows.
pub fn count_up(edges: &mut Vec<Edge>, from: u8, to: u8)
    requires edges { AreEdges edges.old.items }
    requires room { vec_len edges.old < vec_capacity edges.old }
    requires few { edges_of edges.old.items from to < 255 }
    ensures more { edges.new.items ≡ edge_more from to edges.old.items }
    ensures edges { AreEdges edges.new.items }
{
    let place = place_of_edge(edges, from, to);
    if place < edges.len() && is_edge(&edges[place], from, to) {
        edges[place].count += 1;
        return;
    }
    insert_within(edges, place, Edge { from, to, count: 1 });
}

/// One region less of `to` that `from` shows. An edge that counts none is gone.
pub fn count_down(edges: &mut Vec<Edge>, from: u8, to: u8)
    requires { AreEdges edges.old.items }
    ensures less { edges.new.items ≡ edge_less from to edges.old.items }
    ensures edges { AreEdges edges.new.items }
{
    let place = place_of_this(edges, from, to);
    if place >= edges.len() {
        return;
    }
    if edges[place].count > 1 {
        edges[place].count -= 1;
    } else {
        edges.remove(place);
    }
}
