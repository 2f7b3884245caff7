//! Names of a script that stand in the atlas, or don't yet.
ghost use Rattle.std.specs.Prelude.{◌≡◌, IfSome, IfNone, Some, None, map};
ghost use Rattle.plain_steps.specs.model_kernel.Scripts.{next_name as next_of, next_container_name as next_of_containers, next_locus_name as next_of_loci};
ghost use Rattle.plain_states.specs.Born.{HasFewNames};
ghost use Rattle.plain_states.specs.Plains.{atlas_of};
ghost use Rattle.script_types.specs.Scripts.{container_of, locus_of, tables_of};

use plain_states::{PlainAtlas, number_of};
use script_types::{Script, ScriptContainer, ScriptLocus};

/// The first container's name that is not in the atlas.
fn next_container<'a>(tables: &'a [ScriptContainer], atlas: &PlainAtlas) -> Option<&'a str>
    requires { HasFewNames atlas.now }
    ensures some { IfSome result (λ name. next_of_containers (atlas_of atlas.now) (map container_of tables.now) ≡ Some name.now) }
    ensures none { IfNone result (next_of_containers (atlas_of atlas.now) (map container_of tables.now) ≡ None) }
{
    for table in tables {
        let name = table.name.as_str();
        if number_of(atlas, name).is_none() {
            return Some(name);
        }
    }
    None
}

/// The first locus's name that is not in the atlas.
fn next_locus<'a>(tables: &'a [ScriptLocus], atlas: &PlainAtlas) -> Option<&'a str>
    requires { HasFewNames atlas.now }
    ensures some { IfSome result (λ name. next_of_loci (atlas_of atlas.now) (map locus_of tables.now) ≡ Some name.now) }
    ensures none { IfNone result (next_of_loci (atlas_of atlas.now) (map locus_of tables.now) ≡ None) }
{
    for table in tables {
        let name = table.name.as_str();
        if number_of(atlas, name).is_none() {
            return Some(name);
        }
    }
    None
}

/// The script's next name that is not in the atlas: containers come before loci.
pub fn next_name<'a>(script: &'a Script, atlas: &PlainAtlas) -> Option<&'a str>
    requires { HasFewNames atlas.now }
    ensures some { IfSome result (λ name. next_of (atlas_of atlas.now) (tables_of script.now) ≡ Some name.now) }
    ensures none { IfNone result (next_of (atlas_of atlas.now) (tables_of script.now) ≡ None) }
{
    match next_container(&script.containers, atlas) {
        Some(name) => Some(name),
        None => next_locus(&script.loci, atlas),
    }
}
