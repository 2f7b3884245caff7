// Numbers of names to which a table refers.
ghost use Rattle.std.specs.Prelude.{◌≡◌};
ghost use Rattle.script_types.specs.model_kernel.Births.{number_or_0};
ghost use Rattle.script_types.specs.model_kernel.Scripts.{text_eq, number_in};
ghost use Rattle.script_fits.specs.act_calls.Calls.{atlas_state};

use base_types::Entity;
use data_atlas::Atlas;

fn is_same(a: &str, b: &str) -> bool
    ensures { result ≡ text_eq a.now b.now }
{
    a == b
}

/// The number of a name in the table of the newborn `own`: that of the newborn itself, or the atlas's. A table's names are
/// known, so the atlas itself is never given for want of another.
pub(crate) fn known_number(atlas: &Atlas, own: &str, newborn: Entity, name: &str) -> Entity
    ensures { result ≡ number_or_0 (number_in (atlas_state atlas.now) own.now newborn) name.now }
{
    if is_same(name, own) {
        return newborn;
    }
    atlas.find(name).unwrap_or(Entity::ATLAS)
}
