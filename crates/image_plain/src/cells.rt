//! Containers and loci.
ghost use Rattle.std.specs.Prelude.{◌≡◌, IfOk};
ghost use Rattle.plain_states.specs.Plains.{container_of, locus_of};
ghost use Rattle.plain_states.specs.model_kernel.State.{Supply};
ghost use Rattle.act_calls.specs.act_alone.Loci.{container_with, locus_of as state_of};
ghost use Rattle.image_plain.specs.Words.{words_with};

use act_calls::{Head, Locus};
use plain_states::{PlainContainer, PlainLocus};
use std::alloc::{AllocError, Global};
use std::collections::BTreeMap;

/// The same locus in ordinary lists. It takes memory for them.
pub fn plain_locus(alloc: Global, locus: &Locus) -> Result<PlainLocus, AllocError>
    ensures { IfOk result (λ plain. locus_of plain ≡ state_of locus.now) }
{
    let code = locus.code.as_slice().to_vec(alloc)?;
    let chain = locus.chain.as_slice().to_vec(alloc)?;
    let privates = locus.privates.as_slice().to_vec(alloc)?;
    let caps = locus.caps.slots().to_vec(alloc)?;
    Ok(PlainLocus {
        registers: locus.registers,
        place: locus.place,
        code,
        host: locus.host,
        chain,
        privates,
        caps,
        walk: locus.walk,
        condition: locus.condition,
        every: locus.every,
        printed: locus.printed,
    })
}

/// The container of a head in ordinary lists, with these words; the others are the supplier's. It takes memory for the lists.
pub fn plain_head(
    alloc: Global,
    head: &Head,
    words: BTreeMap<u64, u64>,
) -> Result<PlainContainer, AllocError>
    ensures container { IfOk result (λ plain. (s : Supply) → container_of s plain ≡ container_with (words_with s head.now.tag words) head.now) }
    ensures words { IfOk result (λ plain. plain.words ≡ words) }
{
    let code = head.code.as_slice().to_vec(alloc)?;
    let regions = head.regions.as_slice().to_vec(alloc)?;
    let caps = head.caps.slots().to_vec(alloc)?;
    Ok(PlainContainer {
        pages: head.pages,
        tag: head.tag,
        every: head.every,
        entry: head.entry,
        code,
        regions,
        caps,
        words,
    })
}
