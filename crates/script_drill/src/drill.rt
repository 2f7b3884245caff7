//! The drill of a number.
ghost use Rattle.std.specs.Prelude.{◌≡◌, IfOk, map};
ghost use Rattle.script_types.specs.Rules.{IsScript};
ghost use Rattle.script_types.specs.Scripts.{container_of, locus_of, tables_of};
ghost use Rattle.script_drill.specs.Draws.{each, words_of};
ghost use Rattle.script_drill.specs.Drill.{container, drill, drill_of, locus};

use crate::tables::{draw_container, draw_locus};
use rand_pcg::Lcg64Xsh32;
use script_types::{Script, ScriptContainer, ScriptLocus};
use std::alloc::{AllocError, Global};

/// The containers of a drill.
pub const CONTAINERS: u32 = 12;

/// The loci of a drill.
const LOCI: u32 = 6;

/// The steps that each locus makes.
const STEPS: u32 = 5_000;

/// Few frames, so that containers of more pages evict.
const FRAMES: u16 = 4;

/// The generator's stream.
const STREAM: u64 = 54;

fn draw_containers(
    alloc: Global,
    words: &mut Lcg64Xsh32,
) -> Result<Vec<ScriptContainer>, AllocError>
    ensures value { IfOk result (λ tables. map container_of tables.items ≡ (each container CONTAINERS (words_of words.old)).0) }
    ensures left { IfOk result (λ _. words_of words.new ≡ (each container CONTAINERS (words_of words.old)).1) }
{
    let mut tables = Vec::new(alloc);
    for c in 0..CONTAINERS {
        tables.push(draw_container(alloc, words, c)?)?;
    }
    Ok(tables)
}

fn draw_loci(alloc: Global, words: &mut Lcg64Xsh32) -> Result<Vec<ScriptLocus>, AllocError>
    ensures { IfOk result (λ tables. map locus_of tables.items ≡ (each locus LOCI (words_of words.old)).0) }
{
    let mut tables = Vec::new(alloc);
    for l in 0..LOCI {
        tables.push(draw_locus(alloc, words, l)?)?;
    }
    Ok(tables)
}

/// The script that these words draw.
#[tactic(auto, unfolding(crate::specs::Drill::drill_of))]
fn draw_script(alloc: Global, words: &mut Lcg64Xsh32) -> Result<Script, AllocError>
    ensures drawn { IfOk result (λ script. tables_of script ≡ drill_of (words_of words.old)) }
    ensures frames { IfOk result (λ script. script.frames ≡ 4) }
{
    let containers = draw_containers(alloc, words)?;
    let loci = draw_loci(alloc, words)?;
    Ok(Script {
        steps: STEPS,
        frames: FRAMES,
        order: Vec::new(alloc),
        containers,
        loci,
    })
}

/// The drill of a number: twelve containers of 1 to 16 pages with programs of 40 instructions, and six loci of 5,000 steps
/// with capabilities on all of them, for 4 frames. Equal numbers have equal drills. It takes memory for the script alone.
pub fn drill_script(alloc: Global, number: u64) -> Result<Script, AllocError>
    ensures drill { IfOk result (λ script. tables_of script ≡ drill number) }
    ensures frames { IfOk result (λ script. script.frames ≡ 4) }
    ensures rules { IfOk result (λ script. IsScript (tables_of script)) }
{
    let mut words = Lcg64Xsh32::new(number, STREAM);
    let script = draw_script(alloc, &mut words)?;
    Ok(script)
}
