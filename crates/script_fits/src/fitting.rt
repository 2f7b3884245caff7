// Whether the names of a script can be born into an atlas.
ghost use Rattle.std.specs.Prelude.{◌≡◌, ◌+◌, ◌≤◌, OnOk, IfOk, IfErr, map, length, string_bytes, Some, None};
ghost use Rattle.data_atlas.specs.data_atlas_facts.Directory.{IsDirectory};
ghost use Rattle.model_births.specs.Fitting.{Fits, new_containers as new_of_containers, new_loci as new_of_loci};
ghost use Rattle.act_atlas_laws.specs.act_calls.Calls.{atlas_state};
ghost use Rattle.model_births.specs.Misfits.{IsClash, IsMisfit, IsNoRoom, clash_key, container_clash as clash_of_containers, locus_clash as clash_of_loci, name_key as key_of_name, room_key};
ghost use Rattle.script_types.specs.Scripts.{container_of, locus_of, tables_of};
ghost use Rattle.script_types.specs.declared.refusals.Why.{Why as AWhy};

use crate::names::{is_container, is_known, is_locus};
use base_types::{Kind, MOST_CONTAINERS, MOST_LOCI};
use data_atlas::Atlas;
use itoa::Buffer;
use script_types::{Refusal, Script, ScriptContainer, ScriptFault, ScriptLocus, Why};
use std::alloc::{AllocError, Global};

/// The first container's table whose name is a locus.
fn container_clash(tables: &[ScriptContainer], atlas: &Atlas) -> Option<usize>
    requires { IsDirectory atlas.now }
    ensures { result ≡ clash_of_containers (atlas_state atlas.now) (map container_of tables.now) 0 }
{
    for i in 0..tables.len() {
        let table = &tables[i];
        let name = table.name.as_str();
        if is_locus(atlas, name) {
            return Some(i);
        }
    }
    None
}

/// The first locus's table whose name is a container.
fn locus_clash(tables: &[ScriptLocus], atlas: &Atlas) -> Option<usize>
    requires { IsDirectory atlas.now }
    ensures { result ≡ clash_of_loci (atlas_state atlas.now) (map locus_of tables.now) 0 }
{
    for i in 0..tables.len() {
        let table = &tables[i];
        let name = table.name.as_str();
        if is_container(atlas, name) {
            return Some(i);
        }
    }
    None
}

/// How many containers' names are not born.
fn new_containers(tables: &[ScriptContainer], atlas: &Atlas) -> usize
    ensures count { result ≡ new_of_containers (atlas_state atlas.now) (map container_of tables.now) }
    ensures few { result ≤ length tables.now }
{
    let mut count = 0;
    for table in tables {
        let name = table.name.as_str();
        if !is_known(atlas, name) {
            count += 1;
        }
    }
    count
}

/// How many loci's names are not born.
fn new_loci(tables: &[ScriptLocus], atlas: &Atlas) -> usize
    ensures count { result ≡ new_of_loci (atlas_state atlas.now) (map locus_of tables.now) }
    ensures few { result ≤ length tables.now }
{
    let mut count = 0;
    for table in tables {
        let name = table.name.as_str();
        if !is_known(atlas, name) {
            count += 1;
        }
    }
    count
}

/// A name's clash, at the table at this place.
fn clash(alloc: Global, kind: &str, place: usize) -> Result<Refusal, AllocError>
    ensures why { IfOk result (λ refusal. refusal.why ≡ AWhy.Clash) }
    ensures key { IfOk result (λ refusal. string_bytes refusal.key ≡ key_of_name kind.now place) }
{
    let mut refusal = Refusal::new(alloc, Why::Clash, kind)?;
    let mut digits = Buffer::new();
    refusal.key.push_str(".")?;
    refusal.key.push_str(digits.format(place))?;
    refusal.key.push_str(".name")?;
    Ok(refusal)
}

/// Refuses a script with a name that the atlas has as the other kind's.
fn check_kinds(alloc: Global, script: &Script, atlas: &Atlas) -> Result<(), ScriptFault>
    requires { IsDirectory atlas.now }
    ensures ok { OnOk result (clash_key (atlas_state atlas.now) (tables_of script.now) ≡ None) }
    ensures refused { IfErr result (IsClash (atlas_state atlas.now) (tables_of script.now)) }
{
    if let Some(i) = container_clash(&script.containers, atlas) {
        return Err(ScriptFault::Refused(clash(alloc, "container", i)?));
    }
    if let Some(i) = locus_clash(&script.loci, atlas) {
        return Err(ScriptFault::Refused(clash(alloc, "locus", i)?));
    }
    Ok(())
}

/// Refuses a script with more new names than there are free numbers, where so many containers and loci are born.
fn check_room(
    alloc: Global,
    script: &Script,
    atlas: &Atlas,
    born: (u8, u8),
) -> Result<(), ScriptFault>
    requires { (born.0 ≡ length atlas.now.containers) × (born.1 ≡ length atlas.now.loci) }
    ensures ok { OnOk result (room_key (atlas_state atlas.now) (tables_of script.now) ≡ None) }
    ensures refused { IfErr result (IsNoRoom (atlas_state atlas.now) (tables_of script.now)) }
{
    let containers = new_containers(&script.containers, atlas);
    if born.0 as usize + containers > MOST_CONTAINERS {
        return Err(ScriptFault::Refused(Refusal::new(alloc, Why::NoRoom, "container")?));
    }
    let loci = new_loci(&script.loci, atlas);
    if born.1 as usize + loci > MOST_LOCI {
        return Err(ScriptFault::Refused(Refusal::new(alloc, Why::NoRoom, "locus")?));
    }
    Ok(())
}

/// Refuses a script that can't be run from a state with this atlas: the first name that the atlas has as the other kind's, by
/// containers and then loci, and then a kind of which more names are new than numbers are free. It takes memory for the key of a
/// refusal alone, and costs a pass over the names of the atlas for each name of the script.
pub fn against(alloc: Global, script: &Script, atlas: &Atlas) -> Result<(), ScriptFault>
    ensures ok { OnOk result (Fits (atlas_state atlas.now) (tables_of script.now)) }
    ensures refused { IfErr result (IsMisfit (atlas_state atlas.now) (tables_of script.now)) }
{
    let born = (atlas.named(Kind::Container), atlas.named(Kind::Locus));
    check_kinds(alloc, script, atlas)?;
    check_room(alloc, script, atlas, born)
}
