//! What a program gives birth to: containers that it makes and loci that it spawns.
ghost use Rattle.std.specs.Prelude.{◌≡◌, ◌<◌, ◌≤◌, IfOk, OnErr, length, string_bytes};
ghost use Rattle.model_kernel.specs.Outcomes.{code_for as code_given, holding, made_container as container_made, made_name as name_made, make as made_by, spawn as spawned_by, spawned as locus_spawned};
ghost use Rattle.model_kernel.specs.State.{Supply};
ghost use Rattle.plain_states.specs.Plains.{atlas_of, container_of, locus_of};
ghost use Rattle.plain_facts.specs.AtlasActs.{ActedOnAtlas, container_bears, locus_bears};

use crate::local_acts::finish;
use base_types::{Answer, Cap, Condition, Entity, Instr, MOST_CAPS, Reply, Rights};
use plain_states::reads::free_slot;
use plain_states::{PlainAtlas, PlainContainer, PlainLocus, free_container, free_locus};
use std::alloc::{AllocError, Global};
use std::collections::BTreeMap;

/// All rights but Stabilise.
const NEWBORN_RIGHTS: Rights = Rights(127);

/// The name that is made for a number: `#` and the number.
fn made_name(alloc: Global, number: Entity) -> Result<String, AllocError>
    ensures { IfOk result (λ name. string_bytes name ≡ name_made number) }
{
    format!(in alloc; "#{}", number.number())
}

/// The locus holds a capability of what is born, in its lowest empty slot.
fn hold(l: &mut PlainLocus, d: u8, newborn: Entity)
    requires register { d < 8 }
    requires slots { length l.old.caps.items ≡ 32 }
    ensures { locus_of l.new ≡ holding (locus_of l.old) d newborn }
{
    let slot = free_slot(&l.caps).unwrap_or(0);
    l.registers[d as usize] = slot as u64;
    l.caps[slot] = Some(Cap {
        entity: newborn,
        rights: NEWBORN_RIGHTS,
    });
}

/// The code of a container that the locus makes: its own where the container has an entry.
fn code_for(alloc: Global, l: &PlainLocus, entry: Option<u8>) -> Result<Vec<Instr>, AllocError>
    ensures { IfOk result (λ code. code.items ≡ code_given (locus_of l.now) entry) }
{
    match entry {
        Some(_) => Vec::from_slice(alloc, &l.code),
        None => Ok(Vec::new(alloc)),
    }
}

/// A container that the locus makes.
fn made_container(
    alloc: Global,
    l: &PlainLocus,
    pages: u16,
    tag: u64,
    entry: Option<u8>,
) -> Result<PlainContainer, AllocError>
    ensures { IfOk result (λ c. (s : Supply) → container_of s c ≡ container_made s (locus_of l.now) pages tag entry) }
{
    let code = code_for(alloc, l, entry)?;
    let caps = vec![in alloc; None; MOST_CAPS]?;
    Ok(PlainContainer {
        pages,
        tag,
        every: 0,
        entry,
        code,
        regions: Vec::new(alloc),
        caps,
        words: BTreeMap::new(alloc),
    })
}

/// A locus like this one, at another place, with nothing begun.
fn spawned(alloc: Global, l: &PlainLocus, place: u8) -> Result<PlainLocus, AllocError>
    ensures { IfOk result (λ m. locus_of m ≡ locus_spawned (locus_of l.now) place) }
{
    let code = Vec::from_slice(alloc, &l.code)?;
    let caps = Vec::from_slice(alloc, &l.caps)?;
    Ok(PlainLocus {
        registers: l.registers,
        place,
        code,
        host: l.host,
        chain: Vec::new(alloc),
        privates: Vec::new(alloc),
        caps,
        walk: None,
        condition: Condition::Running,
        every: l.every,
        printed: 0,
    })
}

/// What make answers, and the container that is born; none where no number is free.
#[derive(Drop)]
pub struct MadeContainer {
    pub answer: Answer,
    pub newborn: Option<PlainContainer>,
}

/// What make makes of the locus and the atlas, and the newborn, which the caller adds to the containers. On want of
/// memory nothing is changed.
#[tactic(auto, unfolding(model_kernel::specs::Outcomes::make))]
pub fn make(
    alloc: Global,
    l: &mut PlainLocus,
    atlas: &mut PlainAtlas,
    d: u8,
    pages: u16,
    tag: u64,
    entry: Option<u8>,
) -> Result<MadeContainer, AllocError>
    requires place { l.old.place ≤ 128 }
    requires register { d < 8 }
    requires slots { length l.old.caps.items ≡ 32 }
    ensures made { IfOk result (λ made. (s : Supply) → ActedOnAtlas (made_by s (locus_of l.old) (atlas_of atlas.old) d pages tag entry) (locus_of l.new) (atlas_of atlas.new) (container_bears s atlas.old made.newborn) made.answer) }
    ensures locus_stays { OnErr result (l.new ≡ l.old) }
    ensures atlas_stays { OnErr result (atlas_of atlas.new ≡ atlas_of atlas.old) }
    ensures edges { atlas.new.edges ≡ atlas.old.edges }
{
    let Some(newborn) = free_container(atlas) else {
        let answer = finish(l, Reply::NoNumber);
        return Ok(MadeContainer {
            answer,
            newborn: None,
        });
    };
    let name = made_name(alloc, newborn)?;
    let container = made_container(alloc, l, pages, tag, entry)?;
    atlas.containers.push(name)?;
    hold(l, d, newborn);
    let answer = finish(l, Reply::Ok);
    Ok(MadeContainer {
        answer,
        newborn: Some(container),
    })
}

/// What spawn answers, and the locus that is born; none where no number is free.
#[derive(Drop)]
pub struct SpawnedLocus {
    pub answer: Answer,
    pub newborn: Option<PlainLocus>,
}

/// What spawn makes of the locus and the atlas, and the newborn, which the caller adds to the loci. On want of memory
/// nothing is changed.
#[tactic(auto, unfolding(model_kernel::specs::Outcomes::spawn))]
pub fn spawn(
    alloc: Global,
    l: &mut PlainLocus,
    atlas: &mut PlainAtlas,
    d: u8,
    place: u8,
) -> Result<SpawnedLocus, AllocError>
    requires place { l.old.place ≤ 128 }
    requires register { d < 8 }
    requires slots { length l.old.caps.items ≡ 32 }
    ensures made { IfOk result (λ made. ActedOnAtlas (spawned_by (locus_of l.old) (atlas_of atlas.old) d place) (locus_of l.new) (atlas_of atlas.new) (locus_bears atlas.old made.newborn) made.answer) }
    ensures locus_stays { OnErr result (l.new ≡ l.old) }
    ensures atlas_stays { OnErr result (atlas_of atlas.new ≡ atlas_of atlas.old) }
    ensures edges { atlas.new.edges ≡ atlas.old.edges }
{
    let Some(newborn) = free_locus(atlas) else {
        let answer = finish(l, Reply::NoNumber);
        return Ok(SpawnedLocus {
            answer,
            newborn: None,
        });
    };
    let name = made_name(alloc, newborn)?;
    let locus = spawned(alloc, l, place)?;
    atlas.loci.push(name)?;
    hold(l, d, newborn);
    let answer = finish(l, Reply::Ok);
    Ok(SpawnedLocus {
        answer,
        newborn: Some(locus),
    })
}
