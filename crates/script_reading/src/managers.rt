//! The managers that a source brings.
ghost use Rattle.std.specs.Prelude.{◌≡◌, map};
ghost use Rattle.std.specs.List.{list_all};
ghost use Rattle.toml.specs.View.{view, table_view};
ghost use Rattle.base_managers.specs.Managing.{has_number, is_managing, manager_of, managers_of};
ghost use Rattle.script_meaning.specs.Fields.{item_key};
ghost use Rattle.script_meaning.specs.Meaning.{a_manager, both_kinds, managers_at, managing_code};
ghost use Rattle.script_meaning.specs.Reading.{Reads};
ghost use Rattle.script_reading.specs.Views.{program_of};

use crate::fields::{list_at, string_item};
use crate::keys::refuse_item;
use crate::programs::{Program, code_named};
use crate::strings::manager_words;
use base_managers::{
    GREATEST_EVERY, GREATEST_TAG, MOST_MANAGERS, ScriptManager, ScriptManagers, manages,
};
use base_types::Instr;
use script_types::{ScriptFault, Why};
use std::alloc::Global;
use toml::{Table, Value};

fn has_number(managers: &[ScriptManager], number: u64) -> bool
    ensures { result ≡ has_number (map manager_of managers.now) number }
{
    managers.iter().any(|manager| manager.number == number)
}

/// Whether a manager may have each of these instructions.
fn are_managing(code: &[Instr]) -> bool
    ensures { result ≡ list_all is_managing code.now }
{
    code.iter().all(|instr| manages(*instr))
}

/// The code of the program with this name, for the manager at a place of the list with this key.
fn managing_code<'a>(
    alloc: Global,
    programs: &'a [Program],
    name: &str,
    key: &str,
    place: usize,
) -> Result<&'a [Instr], ScriptFault>
    ensures { Reads (λ code. code.now) (managing_code (map program_of programs.now) (item_key key.now place) name.now) result }
{
    let Some(code) = code_named(programs, name) else {
        return Err(refuse_item(alloc, Why::Unknown, key, place));
    };
    if are_managing(code) {
        Ok(code)
    } else {
        Err(refuse_item(alloc, Why::BadCode, key, place))
    }
}

/// The manager at the next place of the list with this key.
fn read_manager(
    alloc: Global,
    value: &Value,
    key: &str,
    greatest: u64,
    programs: &[Program],
    before: &[ScriptManager],
) -> Result<ScriptManager, ScriptFault>
    ensures { Reads manager_of (a_manager greatest (map program_of programs.now) key.now (map manager_of before.now) (view value.now)) result }
{
    let place = before.len();
    let text = string_item(alloc, value, key, place)?;
    let Some(words) = manager_words(text) else {
        return Err(refuse_item(alloc, Why::BadCode, key, place));
    };
    if words.number < 1 || words.number > greatest {
        return Err(refuse_item(alloc, Why::Range, key, place));
    }
    let code = managing_code(alloc, programs, words.program, key, place)?;
    if has_number(before, words.number) {
        return Err(refuse_item(alloc, Why::Clash, key, place));
    }
    Ok(ScriptManager {
        number: words.number,
        code: code.to_vec(alloc)?,
    })
}

/// The managers of one kind, with their greatest number.
fn managers_at(
    alloc: Global,
    table: &Table,
    key: &str,
    greatest: u64,
    programs: &[Program],
) -> Result<Vec<ScriptManager>, ScriptFault>
    ensures { Reads (λ managers. map manager_of managers.items) (managers_at greatest (map program_of programs.now) key.now (table_view table.now)) result }
{
    let values = list_at(alloc, table, "", key, MOST_MANAGERS)?;
    let mut managers = Vec::new(alloc);
    for value in values {
        let manager = read_manager(alloc, value, key, greatest, programs, managers.as_slice())?;
        managers.push(manager)?;
    }
    Ok(managers)
}

/// The managers of both kinds.
pub(crate) fn read_managers(
    alloc: Global,
    table: &Table,
    programs: &[Program],
) -> Result<ScriptManagers, ScriptFault>
    ensures { Reads managers_of (both_kinds (map program_of programs.now) (table_view table.now)) result }
{
    let supply = managers_at(alloc, table, "supply", GREATEST_TAG, programs)?;
    let policy = managers_at(alloc, table, "policy", GREATEST_EVERY, programs)?;
    Ok(ScriptManagers { supply, policy })
}
