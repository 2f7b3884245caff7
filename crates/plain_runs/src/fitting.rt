//! Whether the names of a script can be born into an atlas.
ghost use Rattle.std.specs.Prelude.{◌≡◌, ◌+◌, ◌≤◌, OnOk, IfOk, IfErr, map, length, string_bytes, is_some, is_none, Some, None};
ghost use Rattle.plain_states.specs.Born.{HasFewNames};
ghost use Rattle.plain_states.specs.Plains.{atlas_of};
ghost use Rattle.script_types.specs.Scripts.{container_of, locus_of, tables_of};
ghost use Rattle.script_types.specs.declared.refusals.Why.{Why as AWhy};
ghost use Rattle.plain_steps.specs.model_births.Fitting.{Fits, new_containers as new_of_containers, new_loci as new_of_loci};
ghost use Rattle.plain_steps.specs.model_births.Misfits.{IsClash, IsMisfit, IsNoRoom, clash_key, container_clash as clash_of_containers, locus_clash as clash_of_loci, name_key as key_of_name, room_key};

use base_types::{FIRST_LOCUS, MOST_CONTAINERS, MOST_LOCI};
use itoa::Buffer;
use plain_states::{PlainAtlas, container_named, number_among, number_of};
use script_types::{Refusal, Script, ScriptContainer, ScriptFault, ScriptLocus, Why};
use std::alloc::{AllocError, Global};

/// The first container's table whose name is a locus.
fn container_clash(tables: &[ScriptContainer], atlas: &PlainAtlas) -> Option<usize>
    requires { HasFewNames atlas.now }
    ensures { result ≡ clash_of_containers (atlas_of atlas.now) (map container_of tables.now) 0 }
{
    for i in 0..tables.len() {
        let table = &tables[i];
        let name = table.name.as_str();
        if number_among(&atlas.loci, name, FIRST_LOCUS).is_some() {
            return Some(i);
        }
    }
    None
}

/// The first locus's table whose name is a container.
fn locus_clash(tables: &[ScriptLocus], atlas: &PlainAtlas) -> Option<usize>
    requires { HasFewNames atlas.now }
    ensures { result ≡ clash_of_loci (atlas_of atlas.now) (map locus_of tables.now) 0 }
{
    for i in 0..tables.len() {
        let table = &tables[i];
        let name = table.name.as_str();
        if container_named(atlas, name).is_some() {
            return Some(i);
        }
    }
    None
}

/// How many containers' names are not born.
fn new_containers(tables: &[ScriptContainer], atlas: &PlainAtlas) -> usize
    requires { HasFewNames atlas.now }
    ensures count { result ≡ new_of_containers (atlas_of atlas.now) (map container_of tables.now) }
    ensures few { result ≤ length tables.now }
{
    let mut count = 0;
    for table in tables {
        let name = table.name.as_str();
        if number_of(atlas, name).is_none() {
            count += 1;
        }
    }
    count
}

/// How many loci's names are not born.
fn new_loci(tables: &[ScriptLocus], atlas: &PlainAtlas) -> usize
    requires { HasFewNames atlas.now }
    ensures count { result ≡ new_of_loci (atlas_of atlas.now) (map locus_of tables.now) }
    ensures few { result ≤ length tables.now }
{
    let mut count = 0;
    for table in tables {
        let name = table.name.as_str();
        if number_of(atlas, name).is_none() {
            count += 1;
        }
    }
    count
}

/// A name's clash, at the table at this place.
fn clash(alloc: Global, kind: &str, place: usize) -> Result<Refusal, AllocError>
    ensures why { IfOk result (λ refusal. refusal.why ≡ AWhy.Clash) }
    ensures key { IfOk result (λ refusal. string_bytes refusal.key ≡ key_of_name kind.now place) }
{
    let mut refusal = Refusal::new(alloc, Why::Clash, kind)?;
    let mut digits = Buffer::new();
    refusal.key.push_str(".")?;
    refusal.key.push_str(digits.format(place))?;
    refusal.key.push_str(".name")?;
    Ok(refusal)
}

/// Refuses a script with a name that the atlas has as the other kind's.
fn check_kinds(alloc: Global, script: &Script, atlas: &PlainAtlas) -> Result<(), ScriptFault>
    requires { HasFewNames atlas.now }
    ensures ok { OnOk result (clash_key (atlas_of atlas.now) (tables_of script.now) ≡ None) }
    ensures refused { IfErr result (IsClash (atlas_of atlas.now) (tables_of script.now)) }
{
    if let Some(i) = container_clash(&script.containers, atlas) {
        return Err(ScriptFault::Refused(clash(alloc, "container", i)?));
    }
    if let Some(i) = locus_clash(&script.loci, atlas) {
        return Err(ScriptFault::Refused(clash(alloc, "locus", i)?));
    }
    Ok(())
}

/// Refuses a script with more new names than there are free numbers.
fn check_room(alloc: Global, script: &Script, atlas: &PlainAtlas) -> Result<(), ScriptFault>
    requires { HasFewNames atlas.now }
    ensures ok { OnOk result (room_key (atlas_of atlas.now) (tables_of script.now) ≡ None) }
    ensures refused { IfErr result (IsNoRoom (atlas_of atlas.now) (tables_of script.now)) }
{
    let containers = new_containers(&script.containers, atlas);
    if atlas.containers.len() + containers > MOST_CONTAINERS {
        return Err(ScriptFault::Refused(Refusal::new(alloc, Why::NoRoom, "container")?));
    }
    let loci = new_loci(&script.loci, atlas);
    if atlas.loci.len() + loci > MOST_LOCI {
        return Err(ScriptFault::Refused(Refusal::new(alloc, Why::NoRoom, "locus")?));
    }
    Ok(())
}

/// Refuses a script that can't be run from a state with these names: the first name that the atlas has as the other kind's,
/// and then a kind of which more names are new than numbers are free.
pub fn against(alloc: Global, script: &Script, atlas: &PlainAtlas) -> Result<(), ScriptFault>
    requires { HasFewNames atlas.now }
    ensures ok { OnOk result (Fits (atlas_of atlas.now) (tables_of script.now)) }
    ensures refused { IfErr result (IsMisfit (atlas_of atlas.now) (tables_of script.now)) }
{
    check_kinds(alloc, script, atlas)?;
    check_room(alloc, script, atlas)
}
