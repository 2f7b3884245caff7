// The tables of a script in the order of their births.
ghost use Rattle.std.specs.Prelude.{◌≡◌, ◌<◌, ◌≤◌, IfSome, IfNone, None, length, map, take, is_some, false, slice_get, Some};
ghost use Rattle.script_types.specs.model_kernel.Scripts.{Script as Tables, next_container_name, next_locus_name, next_name, number_of};
ghost use Rattle.script_types.specs.model_kernel.State.{AtlasState};
ghost use Rattle.script_types.specs.declared.ScriptContainer.{ScriptContainer as AContainer};
ghost use Rattle.script_types.specs.declared.ScriptLocus.{ScriptLocus as ALocus};
ghost use Rattle.script_types.specs.Scripts.{container_of, locus_of, tables_of};
ghost use Rattle.act_atlas_laws.specs.act_calls.Calls.{atlas_state};
ghost use Rattle.script_fits.specs.NextTables.{AreBornBefore, IsNextTable};

use crate::names::is_known;
use data_atlas::Atlas;
use script_types::{Script, ScriptContainer, ScriptLocus};

/// The table that is born next.
#[derive(Clone, Copy)]
pub enum NextTable<'a> {
    Container(&'a ScriptContainer),
    Locus(&'a ScriptLocus),
}

/// How far the births of a script have come: so many containers and loci, from the first on, are born.
#[derive(Clone, Copy, PartialEq, Eq, Debug)]
pub struct Progress {
    containers: usize,
    loci: usize,
}

impl Progress {
    /// Before the first birth.
    pub fn new() -> Progress
        ensures { (a : AtlasState) → (script : Tables) → AreBornBefore a script result }
    {
        Progress {
            containers: 0,
            loci: 0,
        }
    }
}

/// The first place from this one on of a container whose name is not in the atlas, or the end.
fn next_container(atlas: &Atlas, tables: &[ScriptContainer], from: usize) -> usize
    requires known { next_container_name (atlas_state atlas.now) (take from (map container_of tables.now)) ≡ None }
    requires within { from ≤ length tables.now }
    ensures before { next_container_name (atlas_state atlas.now) (take result (map container_of tables.now)) ≡ None }
    ensures new { (t : AContainer) → slice_get tables.now result ≡ Some t → is_some (number_of (atlas_state atlas.now) (container_of t).name) ≡ false }
    ensures within { result ≤ length tables.now }
{
    for i in from..tables.len() {
        let table = &tables[i];
        if !is_known(atlas, &table.name) {
            return i;
        }
    }
    tables.len()
}

/// The first place from this one on of a locus whose name is not in the atlas, or the end.
fn next_locus(atlas: &Atlas, tables: &[ScriptLocus], from: usize) -> usize
    requires known { next_locus_name (atlas_state atlas.now) (take from (map locus_of tables.now)) ≡ None }
    requires within { from ≤ length tables.now }
    ensures before { next_locus_name (atlas_state atlas.now) (take result (map locus_of tables.now)) ≡ None }
    ensures new { (t : ALocus) → slice_get tables.now result ≡ Some t → is_some (number_of (atlas_state atlas.now) (locus_of t).name) ≡ false }
    ensures within { result ≤ length tables.now }
{
    for i in from..tables.len() {
        let table = &tables[i];
        if !is_known(atlas, &table.name) {
            return i;
        }
    }
    tables.len()
}

/// The table that is born next: the first container, and then the first locus, whose name is not in the atlas. None exactly where
/// there is none. All births of a script cost one pass over its tables, and for each table a pass over the names of the atlas.
pub fn next_table<'a>(
    atlas: &Atlas,
    script: &'a Script,
    progress: &mut Progress,
) -> Option<NextTable<'a>>
    requires { AreBornBefore (atlas_state atlas.now) (tables_of script.now) progress.old }
    ensures some { IfSome result (λ table. IsNextTable (atlas_state atlas.now) (tables_of script.now) table) }
    ensures none { IfNone result (next_name (atlas_state atlas.now) (tables_of script.now) ≡ None) }
    ensures progress { AreBornBefore (atlas_state atlas.now) (tables_of script.now) progress.new }
{
    progress.containers = next_container(atlas, &script.containers, progress.containers);
    if let Some(table) = script.containers.get(progress.containers) {
        return Some(NextTable::Container(table));
    }
    progress.loci = next_locus(atlas, &script.loci, progress.loci);
    match script.loci.get(progress.loci) {
        Some(table) => Some(NextTable::Locus(table)),
        None => None,
    }
}
