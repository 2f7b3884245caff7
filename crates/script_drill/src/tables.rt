//! Tables of a drill's containers and loci.
ghost use Rattle.std.specs.Prelude.{◌≡◌, ◌<◌, IfOk, map};
ghost use Rattle.script_types.specs.Scripts.{cap_of, container_of, locus_of, region_of};
ghost use Rattle.script_drill.specs.Draws.{words_of};
ghost use Rattle.script_drill.specs.Drill.{cap_on, caps, container, locus, regions};

use crate::draws::{draw, numbered};
use crate::drill::CONTAINERS;
use crate::programs::draw_program;
use base_types::Rights;
use rand_pcg::Lcg64Xsh32;
use script_types::{ScriptCap, ScriptContainer, ScriptLocus, ScriptRegion};
use std::alloc::{AllocError, Global};

/// Container c's regions: one onto an earlier container, or none.
#[tactic(auto, unfolding(crate::specs::Drill::regions))]
fn draw_regions(
    alloc: Global,
    words: &mut Lcg64Xsh32,
    c: u32,
) -> Result<Vec<ScriptRegion>, AllocError>
    ensures value { IfOk result (λ shown. map region_of shown.items ≡ (regions c (words_of words.old)).0) }
    ensures left { IfOk result (λ _. words_of words.new ≡ (regions c (words_of words.old)).1) }
{
    let mut shown = Vec::new(alloc);
    if c > 0 && draw(words, 2) == 1 {
        let target = draw(words, c);
        shown.push(ScriptRegion {
            at: 0,
            target: numbered(alloc, "c", target)?,
            from: 0,
            count: 1,
            rights: Rights(3),
        })?;
    }
    Ok(shown)
}

/// Container c's table.
#[tactic(auto, unfolding(crate::specs::Drill::container))]
pub fn draw_container(
    alloc: Global,
    words: &mut Lcg64Xsh32,
    c: u32,
) -> Result<ScriptContainer, AllocError>
    ensures value { IfOk result (λ table. container_of table ≡ (container c (words_of words.old)).0) }
    ensures left { IfOk result (λ _. words_of words.new ≡ (container c (words_of words.old)).1) }
{
    let name = numbered(alloc, "c", c)?;
    let pages = 1 + draw(words, 16) as u16;
    let tag = u64::from(draw(words, 1000));
    let every = draw(words, 40);
    let regions = draw_regions(alloc, words, c)?;
    let code = draw_program(alloc, words)?;
    Ok(ScriptContainer {
        name,
        pages,
        tag,
        every,
        code,
        entry: Some(0),
        regions,
        caps: Vec::new(alloc),
    })
}

/// A capability on container c.
fn draw_cap(alloc: Global, words: &mut Lcg64Xsh32, c: u32) -> Result<ScriptCap, AllocError>
    ensures value { IfOk result (λ cap. cap_of cap ≡ (cap_on c (words_of words.old)).0) }
    ensures left { IfOk result (λ _. words_of words.new ≡ (cap_on c (words_of words.old)).1) }
{
    let rights = draw(words, 128);
    Ok(ScriptCap {
        entity: numbered(alloc, "c", c)?,
        rights: Rights(rights as u8),
    })
}

/// The capabilities of a locus: one on each container, and one on the atlas.
fn draw_caps(alloc: Global, words: &mut Lcg64Xsh32) -> Result<Vec<ScriptCap>, AllocError>
    ensures value { IfOk result (λ held. map cap_of held.items ≡ (caps (words_of words.old)).0) }
    ensures left { IfOk result (λ _. words_of words.new ≡ (caps (words_of words.old)).1) }
{
    let mut caps = Vec::new(alloc);
    for c in 0..CONTAINERS {
        caps.push(draw_cap(alloc, words, c)?)?;
    }
    caps.push(ScriptCap {
        entity: String::from_str(alloc, "atlas")?,
        rights: Rights(128),
    })?;
    Ok(caps)
}

/// Locus l's table.
#[tactic(auto, unfolding(crate::specs::Drill::locus))]
pub fn draw_locus(alloc: Global, words: &mut Lcg64Xsh32, l: u32) -> Result<ScriptLocus, AllocError>
    ensures value { IfOk result (λ table. locus_of table ≡ (locus l (words_of words.old)).0) }
    ensures left { IfOk result (λ _. words_of words.new ≡ (locus l (words_of words.old)).1) }
{
    let host = draw(words, CONTAINERS);
    let every = draw(words, 40);
    Ok(ScriptLocus {
        name: numbered(alloc, "l", l)?,
        host: numbered(alloc, "c", host)?,
        at: 0,
        every,
        caps: draw_caps(alloc, words)?,
    })
}
