// Names of an atlas by their kind.
ghost use Rattle.std.specs.Prelude.{◌≡◌, is_some};
ghost use Rattle.script_types.specs.model_kernel.Scripts.{container_named, locus_named, number_of};
ghost use Rattle.data_atlas.specs.data_atlas_facts.Directory.{IsDirectory};
ghost use Rattle.act_atlas_laws.specs.act_calls.Calls.{atlas_state};

use base_types::{FIRST_CONTAINER, FIRST_LOCUS};
use data_atlas::Atlas;

/// Whether something in the atlas has the name, or it is the atlas's own.
pub(crate) fn is_known(atlas: &Atlas, name: &str) -> bool
    ensures { result ≡ is_some (number_of (atlas_state atlas.now) name.now) }
{
    atlas.find(name).is_some()
}

/// Whether a container in the atlas has the name.
pub(crate) fn is_container(atlas: &Atlas, name: &str) -> bool
    requires { IsDirectory atlas.now }
    ensures { result ≡ is_some (container_named (atlas_state atlas.now) name.now) }
{
    match atlas.find(name) {
        Some(entity) => {
            let number = entity.number();
            number >= FIRST_CONTAINER && number < FIRST_LOCUS
        }
        None => false,
    }
}

/// Whether a locus in the atlas has the name.
pub(crate) fn is_locus(atlas: &Atlas, name: &str) -> bool
    requires { IsDirectory atlas.now }
    ensures { result ≡ is_some (locus_named (atlas_state atlas.now) name.now) }
{
    match atlas.find(name) {
        Some(entity) => entity.number() >= FIRST_LOCUS,
        None => false,
    }
}
