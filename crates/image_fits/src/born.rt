//! Who is born, and whether those that a list of capabilities names are.
ghost use Rattle.std.specs.Prelude.{◌≡◌, ◌↔◌, ◌<◌, ℕ, IsTrue};
ghost use Rattle.std.specs.List.{list_all};
ghost use Rattle.act_alone.specs.model_kernel.Soundness.{is_born as born, is_born_container as born_container};
ghost use Rattle.image_fit_facts.specs.image_meaning.Fits.{NamesBorn};
ghost use Rattle.blob_atlas.specs.act_calls.Calls.{atlas_state};
ghost use Rattle.image_fit_facts.specs.Ties.{slot_born};

use base_types::{Cap, Entity, FIRST_LOCUS, Kind, MOST_ENTITIES};
use data_atlas::Atlas;
use data_capabilities::CapList;

/// Whether the entity is a container that is born.
pub fn is_born_container(atlas: &Atlas, entity: Entity) -> bool
    ensures { result ≡ born_container (atlas_state atlas.now) entity }
{
    let number = entity.number();
    0 < number && number <= atlas.named(Kind::Container)
}

/// Whether the entity is born. The atlas always is.
pub fn is_born(atlas: &Atlas, entity: Entity) -> bool
    ensures born { result ≡ born (atlas_state atlas.now) entity }
    ensures numbers { (x : ℕ) → IsTrue (born (atlas_state atlas.now) x) → x < MOST_ENTITIES }
{
    let number = entity.number();
    let is_container = is_born_container(atlas, entity);
    let loci = atlas.named(Kind::Locus);
    number == 0 || is_container || FIRST_LOCUS <= number && number < FIRST_LOCUS + loci
}

// Whether the slot is empty or names an entity that is born.
fn is_slot_born(atlas: &Atlas, slot: &Option<Cap>) -> bool
    ensures { result ≡ slot_born (atlas_state atlas.now) slot.now }
{
    match slot {
        Some(cap) => is_born(atlas, cap.entity),
        None => true,
    }
}

fn all_born(atlas: &Atlas, slots: &[Option<Cap>]) -> bool
    ensures { result ≡ list_all (slot_born (atlas_state atlas.now)) slots.now }
{
    slots.iter().all(|slot| is_slot_born(atlas, slot))
}

/// Whether each capability of the list names an entity that is born.
pub fn are_born(atlas: &Atlas, caps: &CapList) -> bool
    ensures { IsTrue result ↔ NamesBorn (atlas_state atlas.now) caps.now }
{
    all_born(atlas, caps.slots())
}
