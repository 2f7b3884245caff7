//! The walk through a whole source.
ghost use Rattle.std.specs.Prelude.{◌≡◌, ◌≤◌, [], List, Option, IfOk, length, map, string_bytes, codes};
ghost use Rattle.base_types.specs.declared.instructions.Instr.{Instr as AnInstr};
ghost use Rattle.script_types.specs.model_kernel.State.{Text};
ghost use Rattle.toml.specs.Parse.{parse_document};
ghost use Rattle.toml.specs.View.{view, table_view};
ghost use Rattle.base_instructions.specs.Reader.{IsReader};
ghost use Rattle.script_meaning.specs.Meaning.{a_pick, order_at, entities_at, top_keys, tree_meaning, meaning_by, script_meaning};
ghost use Rattle.script_meaning.specs.Fields.{only};
ghost use Rattle.script_meaning.specs.Reading.{or_refused, Reads};
ghost use Rattle.script_types.specs.Rules.{IsScript, locus_names};
ghost use Rattle.script_types.specs.Scripts.{tables_of, locus_of};
ghost use Rattle.script_reading.specs.Views.{framed_of, source_of, program_of};
ghost use Rattle.base_managers.specs.Managing.{AreScriptManagers, managers_of};

use crate::fields::{Limits, list_at, number_or, only, string_item};
use crate::keys::{refuse, refuse_item};
use crate::links::has_locus;
use crate::managers::read_managers;
use crate::programs::{Program, read_programs};
use crate::tables::{read_containers, read_loci};
use base_managers::ScriptManagers;
use base_types::MOST_SCRIPT_BYTES;
use script_types::{Script, ScriptFault, ScriptLocus, Why};
use std::alloc::Global;
use std::str;
use toml::{Table, Value};

/// How many names an order may have.
const MOST_PICKS: usize = 4096;

const STEP_LIMITS: Limits = Limits {
    low: 1,
    high: 40_000,
};

const FRAME_LIMITS: Limits = Limits { low: 1, high: 256 };

/// A script and the managers that it brings.
#[derive(Drop, Debug)]
pub struct ManagedScript {
    pub script: Script,
    pub managers: ScriptManagers,
}

/// The name at a place of the order.
fn read_pick(
    alloc: Global,
    value: &Value,
    loci: &[ScriptLocus],
    place: usize,
) -> Result<String, ScriptFault>
    ensures { (done : List Text) → length done ≡ place → Reads string_bytes (a_pick (locus_names (map locus_of loci.now)) done (view value.now)) result }
{
    let name = string_item(alloc, value, "order", place)?;
    if has_locus(loci, name) {
        Ok(String::from_str(alloc, name)?)
    } else {
        Err(refuse_item(alloc, Why::Unknown, "order", place))
    }
}

fn read_order(
    alloc: Global,
    table: &Table,
    loci: &[ScriptLocus],
) -> Result<Vec<String>, ScriptFault>
    ensures { Reads (λ order. map string_bytes order.items) (order_at (locus_names (map locus_of loci.now)) (table_view table.now)) result }
{
    let values = list_at(alloc, table, "", "order", MOST_PICKS)?;
    let mut order = Vec::new(alloc);
    for value in values {
        let place = order.len();
        let pick = read_pick(alloc, value, loci, place)?;
        order.push(pick)?;
    }
    Ok(order)
}

/// Containers, loci and order, behind the numbers and the programs.
fn read_entities(
    alloc: Global,
    table: &Table,
    steps: u32,
    frames: u16,
    programs: &[Program],
) -> Result<Script, ScriptFault>
    ensures { Reads framed_of (entities_at steps frames (map program_of programs.now) (table_view table.now)) result }
{
    let containers = read_containers(alloc, table, programs)?;
    let loci = read_loci(alloc, table, containers.as_slice())?;
    let order = read_order(alloc, table, loci.as_slice())?;
    Ok(Script {
        steps,
        frames,
        order,
        containers,
        loci,
    })
}

fn only_top_keys(alloc: Global, table: &Table) -> Result<(), ScriptFault>
    ensures { Reads (λ _. tt) (only top_keys [] (table_view table.now)) result }
{
    let keys = [
        "steps",
        "frames",
        "program",
        "container",
        "locus",
        "order",
        "supply",
        "policy",
    ];
    only(alloc, table, "", &keys)
}

fn read_tree(alloc: Global, table: &Table) -> Result<ManagedScript, ScriptFault>
    ensures { (spelled : Text → Option AnInstr) → IsReader spelled → Reads source_of (tree_meaning spelled (table_view table.now)) result }
{
    only_top_keys(alloc, table)?;
    let steps = number_or(alloc, table, "", "steps", STEP_LIMITS, 10_000)? as u32;
    let frames = number_or(alloc, table, "", "frames", FRAME_LIMITS, 32)? as u16;
    let programs = read_programs(alloc, table)?;
    let script = read_entities(alloc, table, steps, frames, programs.as_slice())?;
    let managers = read_managers(alloc, table, programs.as_slice())?;
    Ok(ManagedScript { script, managers })
}

/// The table that the text is.
fn parse(alloc: Global, text: &str) -> Result<Table, ScriptFault>
    ensures { Reads table_view (or_refused Why.NotToml (codes "-") (parse_document text.now)) result }
{
    match toml::table_from_str(alloc, text) {
        Ok(table) => Ok(table),
        Err(error) if error.is_memory() => Err(ScriptFault::Memory),
        Err(_) => Err(refuse(alloc, Why::NotToml, "", "-")),
    }
}

/// The walk, which goes by any reader of lines: all of them answer the same.
fn read_source(alloc: Global, bytes: &[u8]) -> Result<ManagedScript, ScriptFault>
    ensures { (spelled : Text → Option AnInstr) → IsReader spelled → Reads source_of (meaning_by spelled bytes.now) result }
{
    if bytes.len() > MOST_SCRIPT_BYTES {
        return Err(refuse(alloc, Why::Long, "", "-"));
    }
    let Ok(text) = str::from_utf8(bytes) else {
        return Err(refuse(alloc, Why::NotToml, "", "-"));
    };
    let table = parse(alloc, text)?;
    read_tree(alloc, &table)
}

/// The script that a source means, and its managers. A refusal is the first one of a walk through the source: its length,
/// its form as TOML, its keys, `steps`, `frames`, `program`, `container`, `locus`, `order`, `supply` and `policy`.
pub fn read_script(alloc: Global, bytes: &[u8]) -> Result<ManagedScript, ScriptFault>
    ensures meaning { Reads source_of (script_meaning bytes.now) result }
    ensures rules { IfOk result (λ read. IsScript (tables_of read.script)) }
    ensures frames { IfOk result (λ read. (1 ≤ read.script.frames) × (read.script.frames ≤ 256)) }
    ensures managers { IfOk result (λ read. AreScriptManagers (managers_of read.managers)) }
{
    read_source(alloc, bytes)
}
