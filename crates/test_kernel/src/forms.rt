//! Scripts read from a text, with other steps and frames.
ghost use Rattle.std.specs.Prelude.{◌≤◌, IfOk};
ghost use Rattle.script_types.specs.Rules.{IsScript};
ghost use Rattle.script_types.specs.Scripts.{tables_of};

use script_reading::read_script;
use script_types::Script;
use std::alloc::Global;
use std::test::Fail;

/// The script of a text.
pub(crate) fn script_of(alloc: Global, text: &str) -> Result<Script, Fail>
    ensures { IfOk result (λ script. IsScript (tables_of script)) }
{
    let read = read_script(alloc, text.as_bytes())?;
    Ok(read.script)
}

/// The script with so many steps of each locus.
pub(crate) fn with_steps(script: Script, steps: u32) -> Script
    requires script { IsScript (tables_of script) }
    requires least { 1 ≤ steps }
    requires most { steps ≤ 40000 }
    ensures { IsScript (tables_of result) }
{
    let mut script = script;
    script.steps = steps;
    script
}

/// The script with so many frames for each container.
pub(crate) fn with_frames(script: Script, frames: u16) -> Script
    requires script { IsScript (tables_of script) }
    ensures { IsScript (tables_of result) }
{
    let mut script = script;
    script.frames = frames;
    script
}
