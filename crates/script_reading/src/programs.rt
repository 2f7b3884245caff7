//! The programs of a source.
ghost use Rattle.std.specs.Prelude.{◌≡◌, List, Option, length, option_map, map};
ghost use Rattle.base_types.specs.declared.instructions.Instr.{Instr as AnInstr};
ghost use Rattle.script_types.specs.model_kernel.State.{Text};
ghost use Rattle.toml.specs.View.{view, table_view};
ghost use Rattle.base_instructions.specs.Reader.{IsReader};
ghost use Rattle.script_meaning.specs.Meaning.{a_line, a_program, programs_in, programs_at, code_named};
ghost use Rattle.script_meaning.specs.Reading.{Reads};
ghost use Rattle.script_reading.specs.Views.{program_of};

use crate::fields::{a_list, a_table, find, string_item};
use crate::keys::{dotted, refuse_item};
use crate::strings::is_same;
use base_instructions::read_line;
use base_types::Instr;
use script_types::{ScriptFault, Why};
use std::alloc::Global;
use toml::{Table, Value};

/// How many lines a program may have.
const MOST_LINES: usize = 128;

/// A program and its name.
#[derive(Drop)]
pub(crate) struct Program {
    pub name: String,
    pub code: Vec<Instr>,
}

/// The line at a place of the program with this key.
fn read_program_line(
    alloc: Global,
    value: &Value,
    key: &str,
    place: usize,
) -> Result<Instr, ScriptFault>
    ensures { (spelled : Text → Option AnInstr) → IsReader spelled → (done : List AnInstr) → length done ≡ place → Reads (λ i. i) (a_line spelled key.now done (view value.now)) result }
{
    let text = string_item(alloc, value, key, place)?;
    match read_line(text) {
        Ok(instr) => Ok(instr),
        Err(_) => Err(refuse_item(alloc, Why::BadCode, key, place)),
    }
}

/// The code of a program.
fn read_program(alloc: Global, value: &Value, name: &str) -> Result<Vec<Instr>, ScriptFault>
    ensures { (spelled : Text → Option AnInstr) → IsReader spelled → Reads (λ code. code.items) (a_program spelled name.now (view value.now)) result }
{
    let lines = a_list(alloc, value, "program", name, MOST_LINES)?;
    let key = dotted(alloc, "program", name)?;
    let mut code = Vec::new(alloc);
    for line in lines {
        let place = code.len();
        code.push(read_program_line(alloc, line, key.as_str(), place)?)?;
    }
    Ok(code)
}

/// The programs of a table, in the order of their names' bytes.
fn read_table(alloc: Global, table: &Table) -> Result<Vec<Program>, ScriptFault>
    ensures { (spelled : Text → Option AnInstr) → IsReader spelled → Reads (λ programs. map program_of programs.items) (programs_in spelled (table_view table.now)) result }
{
    let mut programs = Vec::new(alloc);
    for (name, value) in table {
        let code = read_program(alloc, value, name.as_str())?;
        programs.push(Program {
            name: String::from_str(alloc, name.as_str())?,
            code,
        })?;
    }
    Ok(programs)
}

/// All programs of a source.
pub(crate) fn read_programs(alloc: Global, table: &Table) -> Result<Vec<Program>, ScriptFault>
    ensures { (spelled : Text → Option AnInstr) → IsReader spelled → Reads (λ programs. map program_of programs.items) (programs_at spelled (table_view table.now)) result }
{
    match find(table, "program") {
        Some(value) => read_table(alloc, a_table(alloc, value, "", "program")?),
        None => Ok(Vec::new(alloc)),
    }
}

/// The code of the program with this name.
pub(crate) fn code_named<'a>(programs: &'a [Program], name: &str) -> Option<&'a [Instr]>
    ensures { option_map (λ code. code.now) result ≡ code_named name.now (map program_of programs.now) }
{
    for program in programs {
        if is_same(name, program.name.as_str()) {
            return Some(program.code.as_slice());
        }
    }
    None
}
