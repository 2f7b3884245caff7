//! Which containers are reached over edges: marks that spread until nothing new is marked.
ghost use Rattle.std.specs.Prelude.{◌≡◌, ℕ, ◌<◌, true, false, length, slice_index, IfSome, IfNone, List};
ghost use Rattle.std.specs.Bool.{OnTrue, OnFalse};
ghost use Rattle.base_types.specs.Edges.{IsPath};
ghost use Rattle.data_atlas_facts.specs.model_circles.Marks.{is_marked, IsClosed};
ghost use Rattle.data_atlas_facts.specs.Reached.{edges_in};

/// One more than the greatest number of a container.
pub const SIDE: usize = 41;

/// A number that isn't marked, to which the row has an edge.
fn new_in_row(row: &[u8], marks: &[bool]) -> Option<usize>
    requires { length row.now ≡ length marks.now }
    ensures some { IfSome result
        (λ y. (y < length row.now) × (0 < slice_index row.now y) × (is_marked marks.now y ≡ false)) }
    ensures none { IfNone result ((y : ℕ) → 0 < slice_index row.now y → is_marked marks.now y ≡ true) }
{
    for (y, count) in row.iter().enumerate() {
        if *count > 0 && !marks[y] {
            return Some(y);
        }
    }
    None
}

/// A number that isn't marked, to which an edge leads from one that is.
fn new_number(edges: &[[u8; SIDE]; SIDE], marks: &[bool; SIDE]) -> Option<usize>
    ensures some { IfSome result (λ y. (y < SIDE) × (is_marked marks.now y ≡ false)
        × ((x : ℕ) × (is_marked marks.now x ≡ true) × (0 < edges_in edges.now x y))) }
    ensures none { IfNone result (IsClosed (edges_in edges.now) marks.now) }
{
    for x in 0..SIDE {
        if marks[x] {
            let row = &edges[x];
            if let Some(y) = new_in_row(row, marks) {
                return Some(y);
            }
        }
    }
    None
}

/// Whether edges lead from the one to the other, also over none. Each turn marks one number more, so there are
/// at most 40.
pub(crate) fn leads(edges: &[[u8; SIDE]; SIDE], from: usize, to: usize) -> bool
    requires from { from < SIDE }
    requires to { to < SIDE }
    ensures path { OnTrue result ((path : List ℕ) × IsPath (edges_in edges.now) from path to) }
    ensures none { OnFalse result ((path : List ℕ) → IsPath (edges_in edges.now) from path to → ⊥) }
{
    let mut marks = [false; SIDE];
    marks[from] = true;
    while let Some(y) = new_number(edges, &marks) {
        marks[y] = true;
    }
    marks[to]
}
