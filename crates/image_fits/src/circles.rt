//! Whether the edges of an atlas make a circle: containers that show none but marked ones are marked until there is no more.
ghost use Rattle.std.specs.Prelude.{◌≡◌, ◌↔◌, ◌<◌, IsTrue, IfSome, IfNone};
ghost use Rattle.std.specs.List.{list_all};
ghost use Rattle.model_circles.specs.Containers.{IsAmongContainers};
ghost use Rattle.data_atlas.specs.data_atlas_facts.Directory.{edges_of};
ghost use Rattle.act_alone.specs.model_kernel.Soundness.{HasNoCircle};
ghost use Rattle.image_fit_facts.specs.Circles.{IsLeaf, IsStuck, ShowsUnmarked};

use base_types::Entity;
use data_atlas::{Atlas, SIDE};

// Whether the container shows regions of one that isn't marked.
fn shows_unmarked(atlas: &Atlas, container: u8, marks: &[bool; SIDE]) -> bool
    requires { container < SIDE }
    ensures shows { IsTrue result ↔ ShowsUnmarked (edges_of atlas.now) marks.now container }
    ensures inside { IsAmongContainers (edges_of atlas.now) }
{
    for other in 0..SIDE as u8 {
        let count = atlas.count(Entity::of(container), Entity::of(other));
        if count > 0 && !marks[other as usize] {
            return true;
        }
    }
    false
}

// A container that isn't marked and shows no regions of others that aren't.
fn next_leaf(atlas: &Atlas, marks: &[bool; SIDE]) -> Option<u8>
    ensures some { IfSome result (IsLeaf (edges_of atlas.now) marks.now) }
    ensures none { IfNone result (IsStuck (edges_of atlas.now) marks.now) }
    ensures inside { IsAmongContainers (edges_of atlas.now) }
{
    for container in 0..SIDE as u8 {
        let is_leaf = !shows_unmarked(atlas, container, marks);
        if is_leaf && !marks[container as usize] {
            return Some(container);
        }
    }
    None
}

fn all_marked(marks: &[bool]) -> bool
    ensures { result ≡ list_all (λ mark. mark) marks.now }
{
    marks.iter().all(|mark| *mark)
}

/// Whether no container shows itself over edges. It looks at each count of two containers 41 times at most.
pub fn has_no_circle(atlas: &Atlas) -> bool
    ensures { IsTrue result ↔ HasNoCircle (edges_of atlas.now) }
{
    let mut marks = [false; SIDE];
    while let Some(container) = next_leaf(atlas, &marks) {
        marks[container as usize] = true;
    }
    all_marked(&marks)
}
