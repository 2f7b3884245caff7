ghost use Rattle.std.specs.Prelude.{◌≡◌, ◌↔◌, IsTrue, Some};
ghost use Rattle.base_types.specs.declared.capabilities.Cap.{Cap as AnyCap};
ghost use Rattle.plain_states.specs.model_kernel.Words.{is_container};
ghost use Rattle.data_atlas.specs.data_atlas_facts.Directory.{IsBornContainer};
ghost use Rattle.act_calls.specs.Calls.{NamesBorn};

use base_types::{Cap, Kind};
use data_atlas::Atlas;

/// Whether the slot names no container that isn't born.
fn names_born_at(atlas: &Atlas, slot: Option<Cap>) -> bool
    ensures { IsTrue result ↔ ((cap : AnyCap) → slot ≡ Some cap → IsTrue (is_container cap.entity) → IsBornContainer atlas.now cap.entity) }
{
    let Some(cap) = slot else {
        return true;
    };
    match cap.entity.kind() {
        Kind::Container => atlas.born(cap.entity),
        Kind::Atlas => true,
        Kind::Locus => true,
    }
}

/// Whether the containers that the capabilities name are born.
pub fn names_born(atlas: &Atlas, slots: &[Option<Cap>]) -> bool
    ensures { IsTrue result ↔ NamesBorn atlas.now slots.now }
{
    slots.iter().all(|slot| names_born_at(atlas, *slot))
}
