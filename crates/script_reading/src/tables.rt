//! The tables of containers and loci.
ghost use Rattle.std.specs.Prelude.{◌≤◌, IfOk, map, string_bytes};
ghost use Rattle.toml.specs.View.{view, table_view};
ghost use Rattle.script_meaning.specs.Fields.{name_at, only};
ghost use Rattle.script_meaning.specs.Meaning.{names_of, every_at, code_at, entry_at, sized_container, coded_container, whole_container, container_keys, a_container, containers_at, host_at, whole_locus, locus_keys, a_locus, loci_at};
ghost use Rattle.script_meaning.specs.Reading.{Reads};
ghost use Rattle.script_types.specs.Scripts.{container_of, locus_of};
ghost use Rattle.script_reading.specs.Views.{program_of};

use crate::fields::{
    Limits, a_number, a_string, find, list_at, number_at, number_or, only, table_item, text_at,
};
use crate::keys::{item_key, refuse};
use crate::links::{Known, has_container, is_taken, read_caps, read_regions};
use crate::programs::{Program, code_named};
use crate::strings::is_given_name;
use base_types::{Instr, MOST_CONTAINERS, MOST_LOCI};
use script_types::{ScriptContainer, ScriptFault, ScriptLocus, Why};
use std::alloc::Global;
use toml::{Table, Value};

const PAGE_LIMITS: Limits = Limits { low: 1, high: 256 };

/// A tag is below 2^63.
const TAG_LIMITS: Limits = Limits {
    low: 0,
    high: 9_223_372_036_854_775_807,
};

/// What the policy of snapshots is asked with.
const EVERY: Limits = Limits {
    low: 0,
    high: 1_000_000,
};

/// The places of a program.
const PLACE: Limits = Limits { low: 0, high: 127 };

/// The name of a table, which none of these has.
fn read_name(
    alloc: Global,
    table: &Table,
    key: &str,
    containers: &[ScriptContainer],
    loci: &[ScriptLocus],
) -> Result<String, ScriptFault>
    ensures { Reads string_bytes (name_at (names_of (map container_of containers.now) (map locus_of loci.now)) key.now (table_view table.now)) result }
{
    let name = text_at(alloc, table, key, "name")?;
    if is_given_name(name) && !is_taken(containers, loci, name) {
        Ok(String::from_str(alloc, name)?)
    } else {
        Err(refuse(alloc, Why::Name, key, "name"))
    }
}

fn read_every(alloc: Global, table: &Table, key: &str) -> Result<u32, ScriptFault>
    ensures { Reads (λ n. n) (every_at key.now (table_view table.now)) result }
{
    Ok(number_or(alloc, table, key, "every", EVERY, 0)? as u32)
}

// ---- Containers

/// The name and the numbers of a container.
fn sized_container(
    alloc: Global,
    table: &Table,
    key: &str,
    before: &[ScriptContainer],
) -> Result<ScriptContainer, ScriptFault>
    ensures read { Reads container_of (sized_container (map container_of before.now) key.now (table_view table.now)) result }
    ensures small { IfOk result (λ container. container.pages ≤ 256) }
{
    let name = read_name(alloc, table, key, before, &[])?;
    let pages = number_at(alloc, table, key, "pages", PAGE_LIMITS)? as u16;
    let tag = number_or(alloc, table, key, "tag", TAG_LIMITS, 0)?;
    let every = read_every(alloc, table, key)?;
    Ok(ScriptContainer {
        name,
        pages,
        tag,
        every,
        code: Vec::new(alloc),
        entry: None,
        regions: Vec::new(alloc),
        caps: Vec::new(alloc),
    })
}

/// The code of the program that a container names.
fn read_code(
    alloc: Global,
    table: &Table,
    key: &str,
    programs: &[Program],
) -> Result<Vec<Instr>, ScriptFault>
    ensures { Reads (λ code. code.items) (code_at (map program_of programs.now) key.now (table_view table.now)) result }
{
    let Some(value) = find(table, "program") else {
        return Ok(Vec::new(alloc));
    };
    let name = a_string(alloc, value, key, "program")?;
    match code_named(programs, name) {
        Some(code) => Ok(code.to_vec(alloc)?),
        None => Err(refuse(alloc, Why::Unknown, key, "program")),
    }
}

fn read_entry(alloc: Global, table: &Table, key: &str) -> Result<Option<u8>, ScriptFault>
    ensures { Reads (λ entry. entry) (entry_at key.now (table_view table.now)) result }
{
    match find(table, "entry") {
        Some(value) => Ok(Some(a_number(alloc, value, key, "entry", PLACE)? as u8)),
        None => Ok(None),
    }
}

/// A container without regions and capabilities.
fn coded_container(
    alloc: Global,
    table: &Table,
    key: &str,
    programs: &[Program],
    before: &[ScriptContainer],
) -> Result<ScriptContainer, ScriptFault>
    ensures read { Reads container_of (coded_container (map program_of programs.now) (map container_of before.now) key.now (table_view table.now)) result }
    ensures small { IfOk result (λ container. container.pages ≤ 256) }
{
    let mut container = sized_container(alloc, table, key, before)?;
    container.code = read_code(alloc, table, key, programs)?;
    container.entry = read_entry(alloc, table, key)?;
    Ok(container)
}

fn whole_container(
    alloc: Global,
    table: &Table,
    key: &str,
    programs: &[Program],
    before: &[ScriptContainer],
) -> Result<ScriptContainer, ScriptFault>
    ensures { Reads container_of (whole_container (map program_of programs.now) (map container_of before.now) key.now (table_view table.now)) result }
{
    let mut container = coded_container(alloc, table, key, programs, before)?;
    container.regions = read_regions(alloc, table, key, container.pages, before)?;
    let known = Known {
        own: container.name.as_str(),
        containers: before,
        loci: &[],
    };
    container.caps = read_caps(alloc, table, key, known)?;
    Ok(container)
}

fn only_container_keys(alloc: Global, table: &Table, key: &str) -> Result<(), ScriptFault>
    ensures { Reads (λ _. tt) (only container_keys key.now (table_view table.now)) result }
{
    let keys = [
        "name", "pages", "tag", "every", "program", "entry", "regions", "caps",
    ];
    only(alloc, table, key, &keys)
}

/// The container at the next place.
fn read_container(
    alloc: Global,
    value: &Value,
    programs: &[Program],
    before: &[ScriptContainer],
) -> Result<ScriptContainer, ScriptFault>
    ensures { Reads container_of (a_container (map program_of programs.now) (map container_of before.now) (view value.now)) result }
{
    let table = table_item(alloc, value, "container", before.len())?;
    let key = item_key(alloc, "container", before.len())?;
    only_container_keys(alloc, table, key.as_str())?;
    whole_container(alloc, table, key.as_str(), programs, before)
}

/// All containers of a script.
pub(crate) fn read_containers(
    alloc: Global,
    table: &Table,
    programs: &[Program],
) -> Result<Vec<ScriptContainer>, ScriptFault>
    ensures { Reads (λ containers. map container_of containers.items) (containers_at (map program_of programs.now) (table_view table.now)) result }
{
    let values = list_at(alloc, table, "", "container", MOST_CONTAINERS)?;
    let mut containers = Vec::new(alloc);
    for value in values {
        let container = read_container(alloc, value, programs, containers.as_slice())?;
        containers.push(container)?;
    }
    Ok(containers)
}

// ---- Loci

/// The name of the container in which a locus begins.
fn read_host(
    alloc: Global,
    table: &Table,
    key: &str,
    containers: &[ScriptContainer],
) -> Result<String, ScriptFault>
    ensures { Reads string_bytes (host_at (map container_of containers.now) key.now (table_view table.now)) result }
{
    let host = text_at(alloc, table, key, "host")?;
    if has_container(containers, host) {
        Ok(String::from_str(alloc, host)?)
    } else {
        Err(refuse(alloc, Why::Unknown, key, "host"))
    }
}

fn whole_locus(
    alloc: Global,
    table: &Table,
    key: &str,
    containers: &[ScriptContainer],
    before: &[ScriptLocus],
) -> Result<ScriptLocus, ScriptFault>
    ensures { Reads locus_of (whole_locus (map container_of containers.now) (map locus_of before.now) key.now (table_view table.now)) result }
{
    let name = read_name(alloc, table, key, containers, before)?;
    let host = read_host(alloc, table, key, containers)?;
    let at = number_or(alloc, table, key, "at", PLACE, 0)? as u8;
    let every = read_every(alloc, table, key)?;
    let known = Known {
        own: name.as_str(),
        containers,
        loci: before,
    };
    let caps = read_caps(alloc, table, key, known)?;
    Ok(ScriptLocus {
        name,
        host,
        at,
        every,
        caps,
    })
}

fn only_locus_keys(alloc: Global, table: &Table, key: &str) -> Result<(), ScriptFault>
    ensures { Reads (λ _. tt) (only locus_keys key.now (table_view table.now)) result }
{
    let keys = ["name", "host", "at", "every", "caps"];
    only(alloc, table, key, &keys)
}

/// The locus at the next place.
fn read_locus(
    alloc: Global,
    value: &Value,
    containers: &[ScriptContainer],
    before: &[ScriptLocus],
) -> Result<ScriptLocus, ScriptFault>
    ensures { Reads locus_of (a_locus (map container_of containers.now) (map locus_of before.now) (view value.now)) result }
{
    let table = table_item(alloc, value, "locus", before.len())?;
    let key = item_key(alloc, "locus", before.len())?;
    only_locus_keys(alloc, table, key.as_str())?;
    whole_locus(alloc, table, key.as_str(), containers, before)
}

/// All loci of a script.
pub(crate) fn read_loci(
    alloc: Global,
    table: &Table,
    containers: &[ScriptContainer],
) -> Result<Vec<ScriptLocus>, ScriptFault>
    ensures { Reads (λ loci. map locus_of loci.items) (loci_at (map container_of containers.now) (table_view table.now)) result }
{
    let values = list_at(alloc, table, "", "locus", MOST_LOCI)?;
    let mut loci = Vec::new(alloc);
    for value in values {
        let locus = read_locus(alloc, value, containers, loci.as_slice())?;
        loci.push(locus)?;
    }
    Ok(loci)
}
