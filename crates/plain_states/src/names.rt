ghost use Rattle.std.specs.Prelude.{◌≡◌, ◌+◌, ◌≤◌, length, map, find, option_copied, string_bytes};
ghost use Rattle.model_kernel.specs.Births.{number_or_0};
ghost use Rattle.model_kernel.specs.Outcomes.{free_container as free_container_number, free_locus as free_locus_number};
ghost use Rattle.model_kernel.specs.Scripts.{text_eq, place_of, container_named as container_number, number_of as number, number_in as number_with_own};
ghost use Rattle.plain_states.specs.Born.{HasFewNames};
ghost use Rattle.plain_states.specs.Plains.{atlas_of};

use crate::plain::PlainAtlas;
use base_types::{Entity, FIRST_CONTAINER, FIRST_LOCUS, MOST_CONTAINERS, MOST_LOCI};
use script_types::{ScriptContainer, ScriptLocus};

fn is_same(a: &str, b: &str) -> bool
    ensures { result ≡ text_eq a.now b.now }
{
    a == b
}

/// The number of a name in a list whose names are numbered from `first` on.
pub fn number_among(names: &[String], name: &str, first: u8) -> Option<Entity>
    requires { first + length names.now ≤ 64 }
    ensures { result ≡ place_of name.now (map string_bytes names.now) first }
{
    for (i, other) in names.iter().enumerate() {
        if is_same(name, other.as_str()) {
            return Entity::new(first + i as u8);
        }
    }
    None
}

/// The number of a born container by its name.
pub fn container_named(atlas: &PlainAtlas, name: &str) -> Option<Entity>
    requires { HasFewNames atlas.now }
    ensures { result ≡ container_number (atlas_of atlas.now) name.now }
{
    number_among(&atlas.containers, name, FIRST_CONTAINER)
}

/// The number of a name that stands in the atlas, or is the atlas's own.
pub fn number_of(atlas: &PlainAtlas, name: &str) -> Option<Entity>
    requires { HasFewNames atlas.now }
    ensures { result ≡ number (atlas_of atlas.now) name.now }
{
    if is_same(name, "atlas") {
        return Some(Entity::ATLAS);
    }
    match container_named(atlas, name) {
        Some(container) => Some(container),
        None => number_among(&atlas.loci, name, FIRST_LOCUS),
    }
}

/// The number of a name in the table of the newborn `own`: that of the newborn itself, or the atlas's. A table's names
/// are known, so the atlas itself is never given for want of another.
pub fn known_number(atlas: &PlainAtlas, own: &str, newborn: Entity, name: &str) -> Entity
    requires { HasFewNames atlas.now }
    ensures { result ≡ number_or_0 (number_with_own (atlas_of atlas.now) own.now newborn) name.now }
{
    if is_same(name, own) {
        return newborn;
    }
    number_of(atlas, name).unwrap_or(Entity::ATLAS)
}

/// The lowest free number of a container.
pub fn free_container(atlas: &PlainAtlas) -> Option<Entity>
    ensures { result ≡ free_container_number (atlas_of atlas.now) }
{
    let born = atlas.containers.len();
    if born >= MOST_CONTAINERS {
        return None;
    }
    Entity::new(FIRST_CONTAINER + born as u8)
}

/// The lowest free number of a locus.
pub fn free_locus(atlas: &PlainAtlas) -> Option<Entity>
    ensures { result ≡ free_locus_number (atlas_of atlas.now) }
{
    let born = atlas.loci.len();
    if born >= MOST_LOCI {
        return None;
    }
    Entity::new(FIRST_LOCUS + born as u8)
}

/// The container's table of this name.
pub fn container_table<'a>(tables: &'a [ScriptContainer], name: &str) -> Option<&'a ScriptContainer>
    ensures { option_copied result ≡ find (λ t. text_eq name.now (string_bytes t.name)) tables.now }
{
    tables.iter().find(|table| is_same(name, &table.name))
}

/// The locus's table of this name.
pub fn locus_table<'a>(tables: &'a [ScriptLocus], name: &str) -> Option<&'a ScriptLocus>
    ensures { option_copied result ≡ find (λ t. text_eq name.now (string_bytes t.name)) tables.now }
{
    tables.iter().find(|table| is_same(name, &table.name))
}
