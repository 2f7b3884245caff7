//! Circles of edges between containers. The function does nothing: its contract is the law.
#![tactic(auto)]

ghost use Rattle.std.specs.Prelude.{◌≤◌, ◌↔◌, ℕ, IsTrue};
ghost use Rattle.base_types.specs.Edges.{ClosesCircle, Edges, leads};
ghost use Rattle.model_circles.specs.Containers.{IsAmongContainers};

/// Over edges between containers a search of 40 steps and more from d finds c exactly where a list of edges leads there, that is
/// where an edge from c to d would close a circle: such a list need not come to a container twice, and there are 40.
pub fn circle_law()
    ensures { (edges : Edges) (c d n : ℕ) → IsAmongContainers edges → 40 ≤ n
        → IsTrue (leads n edges d c) ↔ ClosesCircle edges c d }
{}
