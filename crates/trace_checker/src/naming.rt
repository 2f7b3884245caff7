//! Born entities by their names.
ghost use Rattle.std.specs.Prelude.{◌≡◌, ◌<◌, ◌↔◌, ℕ, IfNone, IfSome, IsTrue, false, map, option_map, slice_get, string_bytes};
ghost use Rattle.model_clocks.specs.model_kernel.Soundness.{is_born};
ghost use Rattle.plain_states.specs.Born.{HasFewNames};
ghost use Rattle.plain_states.specs.Plains.{atlas_of};
ghost use Rattle.trace_facts.specs.Words.{IsNamed};

use base_types::{Entity, FIRST_CONTAINER, FIRST_LOCUS, Kind};
use plain_states::PlainAtlas;

/// The name at a place of a list.
fn name_at(names: &[String], place: u8) -> Option<&str>
    ensures { option_map (λ name. name.now) result ≡ slice_get (map string_bytes names.now) place }
{
    match names.get(place as usize) {
        Some(name) => Some(name.as_str()),
        None => None,
    }
}

/// The name of an entity, if it is born.
#[tactic(auto, unfolding(line_text::specs::Lines::name_in))]
fn name_of(atlas: &PlainAtlas, entity: Entity) -> Option<&str>
    requires { HasFewNames atlas.now }
    ensures some { IfSome result (λ name. IsNamed (atlas_of atlas.now) name.now entity) }
    ensures none { IfNone result (is_born (atlas_of atlas.now) entity ≡ false) }
{
    match entity.kind() {
        Kind::Atlas => Some("atlas"),
        Kind::Container => name_at(&atlas.containers, entity.number() - FIRST_CONTAINER),
        Kind::Locus => name_at(&atlas.loci, entity.number() - FIRST_LOCUS),
    }
}

/// Whether the entity is born, with this name.
pub fn is_named(atlas: &PlainAtlas, entity: Entity, name: &[u8]) -> bool
    requires { HasFewNames atlas.now }
    ensures { IsTrue result ↔ IsNamed (atlas_of atlas.now) name.now entity }
{
    match name_of(atlas, entity) {
        Some(other) => other.as_bytes() == name,
        None => false,
    }
}

/// A born entity with this name.
pub fn entity_named(atlas: &PlainAtlas, name: &[u8]) -> Option<Entity>
    requires { HasFewNames atlas.now }
    ensures some { IfSome result (λ x. IsNamed (atlas_of atlas.now) name.now x) }
    ensures none { IfNone result ((x : ℕ) → x < 64 → IsNamed (atlas_of atlas.now) name.now x → ⊥) }
{
    for x in 0..64u8 {
        let entity = Entity::of(x);
        if is_named(atlas, entity, name) {
            return Some(entity);
        }
    }
    None
}
