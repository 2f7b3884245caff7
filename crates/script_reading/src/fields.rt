//! Keys of tables and their values, of a kind and within a range.
ghost use Rattle.std.specs.Prelude.{◌≡◌, ◌≤◌, option_map, IfOk, map};
ghost use Rattle.toml.specs.Data.{get_member};
ghost use Rattle.toml.specs.View.{view, table_view};
ghost use Rattle.script_meaning.specs.Fields.{a_string, a_table, a_list, a_number, only, required, text_at, number_at, number_or, list_at, item_key};
ghost use Rattle.script_meaning.specs.Reading.{dotted, Reads};
ghost use Rattle.script_types.specs.Rules.{is_among};

use crate::keys::{refuse, refuse_item};
use crate::strings::is_same;
use script_types::{ScriptFault, Why};
use std::alloc::Global;
use toml::{Table, Value};

/// The least and the greatest number that a key takes.
#[derive(Clone, Copy)]
pub(crate) struct Limits {
    pub low: u64,
    pub high: u64,
}

// ---- Kinds. Each is told the key of the value by its two parts.

pub(crate) fn a_string<'a>(
    alloc: Global,
    value: &'a Value,
    key: &str,
    name: &str,
) -> Result<&'a str, ScriptFault>
    ensures { Reads (λ text. text.now) (a_string (dotted key.now name.now) (view value.now)) result }
{
    match value.as_str() {
        Some(text) => Ok(text),
        None => Err(refuse(alloc, Why::Kind, key, name)),
    }
}

pub(crate) fn string_item<'a>(
    alloc: Global,
    value: &'a Value,
    key: &str,
    place: usize,
) -> Result<&'a str, ScriptFault>
    ensures { Reads (λ text. text.now) (a_string (item_key key.now place) (view value.now)) result }
{
    match value.as_str() {
        Some(text) => Ok(text),
        None => Err(refuse_item(alloc, Why::Kind, key, place)),
    }
}

pub(crate) fn a_table<'a>(
    alloc: Global,
    value: &'a Value,
    key: &str,
    name: &str,
) -> Result<&'a Table, ScriptFault>
    ensures { Reads (λ table. table_view table.now) (a_table (dotted key.now name.now) (view value.now)) result }
{
    match value.as_table() {
        Some(table) => Ok(table),
        None => Err(refuse(alloc, Why::Kind, key, name)),
    }
}

pub(crate) fn table_item<'a>(
    alloc: Global,
    value: &'a Value,
    key: &str,
    place: usize,
) -> Result<&'a Table, ScriptFault>
    ensures { Reads (λ table. table_view table.now) (a_table (item_key key.now place) (view value.now)) result }
{
    match value.as_table() {
        Some(table) => Ok(table),
        None => Err(refuse_item(alloc, Why::Kind, key, place)),
    }
}

/// An array of at most so many items.
pub(crate) fn a_list<'a>(
    alloc: Global,
    value: &'a Value,
    key: &str,
    name: &str,
    most: usize,
) -> Result<&'a [Value], ScriptFault>
    ensures { Reads (λ values. map view values.now) (a_list most (dotted key.now name.now) (view value.now)) result }
{
    let Some(array) = value.as_array() else {
        return Err(refuse(alloc, Why::Kind, key, name));
    };
    if array.len() > most {
        return Err(refuse(alloc, Why::TooMany, key, name));
    }
    Ok(array.as_slice())
}

pub(crate) fn a_number(
    alloc: Global,
    value: &Value,
    key: &str,
    name: &str,
    limits: Limits,
) -> Result<u64, ScriptFault>
    ensures read { Reads (λ n. n) (a_number limits.low limits.high (dotted key.now name.now) (view value.now)) result }
    ensures within { IfOk result (λ n. (limits.low ≤ n) × (n ≤ limits.high)) }
{
    let Some(number) = value.as_integer() else {
        return Err(refuse(alloc, Why::Kind, key, name));
    };
    if number >= 0 && limits.low <= number as u64 && number as u64 <= limits.high {
        Ok(number as u64)
    } else {
        Err(refuse(alloc, Why::Range, key, name))
    }
}

// ---- Keys of a table. `key` is the table's own.

/// The value at a key.
pub(crate) fn find<'a>(table: &'a Table, name: &str) -> Option<&'a Value>
    ensures { option_map (λ value. view value.now) result ≡ get_member name.now (table_view table.now) }
{
    match table.get(name) {
        Some(value) => Some(value),
        None => None,
    }
}

fn is_key(names: &[&str], name: &str) -> bool
    ensures { result ≡ is_among (map (λ known. known.now) names.now) name.now }
{
    names.iter().any(|known| is_same(name, known))
}

/// Refuses the first key, in the order of bytes, that isn't one of these.
pub(crate) fn only(
    alloc: Global,
    table: &Table,
    key: &str,
    names: &[&str],
) -> Result<(), ScriptFault>
    ensures { Reads (λ _. tt) (only (map (λ known. known.now) names.now) key.now (table_view table.now)) result }
{
    for (name, _) in table {
        if !is_key(names, name.as_str()) {
            return Err(refuse(alloc, Why::Unknown, key, name.as_str()));
        }
    }
    Ok(())
}

pub(crate) fn required<'a>(
    alloc: Global,
    table: &'a Table,
    key: &str,
    name: &str,
) -> Result<&'a Value, ScriptFault>
    ensures { Reads (λ value. view value.now) (required key.now name.now (table_view table.now)) result }
{
    match find(table, name) {
        Some(value) => Ok(value),
        None => Err(refuse(alloc, Why::Missing, key, name)),
    }
}

pub(crate) fn text_at<'a>(
    alloc: Global,
    table: &'a Table,
    key: &str,
    name: &str,
) -> Result<&'a str, ScriptFault>
    ensures { Reads (λ text. text.now) (text_at key.now name.now (table_view table.now)) result }
{
    let value = required(alloc, table, key, name)?;
    a_string(alloc, value, key, name)
}

pub(crate) fn number_at(
    alloc: Global,
    table: &Table,
    key: &str,
    name: &str,
    limits: Limits,
) -> Result<u64, ScriptFault>
    ensures read { Reads (λ n. n) (number_at limits.low limits.high key.now name.now (table_view table.now)) result }
    ensures within { IfOk result (λ n. (limits.low ≤ n) × (n ≤ limits.high)) }
{
    let value = required(alloc, table, key, name)?;
    a_number(alloc, value, key, name, limits)
}

/// A number that may be missing, and then is `default`.
pub(crate) fn number_or(
    alloc: Global,
    table: &Table,
    key: &str,
    name: &str,
    limits: Limits,
    default: u64,
) -> Result<u64, ScriptFault>
    requires { (limits.low ≤ default) × (default ≤ limits.high) }
    ensures read { Reads (λ n. n) (number_or default limits.low limits.high key.now name.now (table_view table.now)) result }
    ensures within { IfOk result (λ n. (limits.low ≤ n) × (n ≤ limits.high)) }
{
    match find(table, name) {
        Some(value) => a_number(alloc, value, key, name, limits),
        None => Ok(default),
    }
}

/// A list that may be missing, and then is empty.
pub(crate) fn list_at<'a>(
    alloc: Global,
    table: &'a Table,
    key: &str,
    name: &str,
    most: usize,
) -> Result<&'a [Value], ScriptFault>
    ensures { Reads (λ values. map view values.now) (list_at most key.now name.now (table_view table.now)) result }
{
    match find(table, name) {
        Some(value) => a_list(alloc, value, key, name, most),
        None => Ok(&[]),
    }
}
