//! Runs of scripts that are texts.
ghost use Rattle.std.specs.Prelude.{IfOk};
ghost use Rattle.plain_steps.specs.model_kernel.Soundness.{IsSound};
ghost use Rattle.plain_states.specs.Plains.{cells_of};

use plain_runs::{Played, has_no_snaps, play};
use script_reading::read_script;
use std::alloc::Global;
use std::test::Fail;

/// Plays the script from nothing, on a supplier whose words are the tag.
pub(crate) fn played(alloc: Global, text: &str) -> Result<Played, Fail>
    ensures { IfOk result (λ played. IsSound (cells_of (λ tag page place. tag) played.state)) }
{
    let script = read_script(alloc, text.as_bytes())?.script;
    if !has_no_snaps(&script) {
        return Err(Fail::from("a plain run makes no snapshot"));
    }
    Ok(play(alloc, &script, &|tag, _, _| tag))
}

/// Plays a program of locus `l`, over so many of its steps. It is the code of container `a` of one page, and `l` has a
/// capability of itself in slot 0.
pub(crate) fn program_played(alloc: Global, steps: u32, program: &str) -> Result<Played, Fail> {
    let text = format!(in alloc;
        "steps = {steps}
program.p = [{program}]
container = [{{ name = 'a', pages = 1, program = 'p' }}]
locus = [{{ name = 'l', host = 'a', caps = ['l k'] }}]
"
    )?;
    played(alloc, text.as_str())
}
