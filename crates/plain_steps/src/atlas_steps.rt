//! Steps that write the atlas: mappings, and what a program gives birth to.
ghost use Rattle.std.specs.Prelude.{◌≡◌, ℕ, ◌+◌, ◌<◌, ◌≤◌, IfOk, OnErr, None, length, false};
ghost use Rattle.base_types.specs.Instructions.{IsInstruction};
ghost use Rattle.base_types.specs.declared.entities.Kind.TheVariants.{Container as ContainerKind, Locus as LocusKind};
ghost use Rattle.model_kernel.specs.Acts.{beside_and_atlas, bearing};
ghost use Rattle.model_kernel.specs.Outcomes.{on_cell};
ghost use Rattle.model_kernel.specs.Refusals.{refusal};
ghost use Rattle.model_kernel.specs.Soundness.{IsSound};
ghost use Rattle.model_kernel.specs.State.{Supply, ContainerCell};
ghost use Rattle.plain_states.specs.EdgeLists.{AreReadyEdges};
ghost use Rattle.plain_states.specs.Born.{AreEdges};
ghost use Rattle.plain_states.specs.Events.{AreFewVersions, StepsTo, Stays};
ghost use Rattle.plain_states.specs.Lists.{IsActingAt};
ghost use Rattle.plain_states.specs.model_sound_runs.Names.{KeepsNames};
ghost use Rattle.plain_states.specs.Plains.{atlas_of, cells_of, container_of, edges_of, locus_of};
ghost use Rattle.plain_states.specs.model_act_facts.Readiness.{leaves_atlas};
ghost use Rattle.plain_facts.specs.AtlasActs.{ActedOnBoth};

use crate::atlas_acts::{map, unmap};
use crate::program_births::{MadeContainer, SpawnedLocus, make, spawn};
use base_types::{Answer, Entity, Entry, Instr};
use plain_states::entries::{entry_of_three, entry_of_two, wrote};
use plain_states::reads::{new_region, register};
use plain_states::{Plain, PlainAtlas, PlainContainer, PlainLocus, push_within};
use std::alloc::AllocError;

// MAPPINGS

/// What map and unmap make of the locus, the atlas and the container. On want of memory nothing is changed.
fn mapping(
    l: &mut PlainLocus,
    atlas: &mut PlainAtlas,
    number: Entity,
    c: &mut PlainContainer,
    instr: Instr,
) -> Result<Answer, AllocError>
    requires place { l.old.place ≤ 128 }
    requires instruction { IsInstruction instr }
    requires allowed { refusal (locus_of l.old) instr ≡ None }
    requires maps { leaves_atlas instr ≡ false }
    requires edges { AreReadyEdges atlas.old.edges.items }
    requires few { (x y : ℕ) → edges_of atlas.old.edges.items x y < 255 }
    ensures made { IfOk result (λ answer. (s : Supply) → ActedOnBoth (on_cell s (locus_of l.old) (atlas_of atlas.old) number instr (ContainerCell (container_of s c.old))) (locus_of l.new) (atlas_of atlas.new) (ContainerCell (container_of s c.new)) answer) }
    ensures locus_stays { OnErr result (locus_of l.new ≡ locus_of l.old) }
    ensures atlas_stays { OnErr result (atlas_of atlas.new ≡ atlas_of atlas.old) }
    ensures container_stays { OnErr result ((s : Supply) → container_of s c.new ≡ container_of s c.old) }
    ensures edges { AreEdges atlas.new.edges.items }
{
    match instr {
        Instr::Map(_, a, c_slot, b, n, rights) => {
            let region = new_region(l, a, c_slot, b, n, rights);
            map(l, atlas, number, c, region)
        }
        Instr::Unmap(_, a) => {
            let at = register(l, a);
            Ok(unmap(l, atlas, number, c, at))
        }
        _ => unreachable!(),
    }
}

/// The step of a locus that shows pages of one container in another, or no longer does. On want of memory nothing is
/// changed.
pub fn step_mapping(
    state: &mut Plain,
    versions: &mut [u64; 64],
    locus: Entity,
    place: usize,
    instr: Instr,
    container: Entity,
) -> Result<Entry, AllocError>
    ghost s: { Supply }
    requires sound { IsSound (cells_of s state.old) }
    requires few { AreFewVersions versions.old }
    requires edges { AreEdges state.old.atlas.edges.items }
    requires acting { IsActingAt state.old.loci.items locus place (beside_and_atlas instr container) }
    ensures step { IfOk result (λ e. StepsTo s locus (cells_of s state.old) versions.old e (cells_of s state.new) versions.new) }
    ensures err { OnErr result (Stays (cells_of s state.old) versions.old (cells_of s state.new) versions.new) }
    ensures edges { AreEdges state.new.atlas.edges.items }
    ensures names { KeepsNames (atlas_of state.old.atlas) (atlas_of state.new.atlas) }
{
    let at = container.number() as usize - 1;
    let l = &mut state.loci[place];
    let c = &mut state.containers[at];
    let answer = mapping(l, &mut state.atlas, container, c, instr)?;
    Ok(entry_of_three(versions, locus, Entity::ATLAS, container, locus, answer))
}

// BIRTHS

/// The number of the container that was named last.
fn last_container(atlas: &PlainAtlas) -> Entity
    requires { length atlas.now.containers.items ≤ 40 }
    ensures { result ≡ length atlas.now.containers.items }
{
    Entity::new(atlas.containers.len() as u8).unwrap_or(Entity::ATLAS)
}

/// The number of the locus that was named last.
fn last_locus(atlas: &PlainAtlas) -> Entity
    requires { length atlas.now.loci.items ≤ 23 }
    ensures { result ≡ length atlas.now.loci.items + 40 }
{
    Entity::new(atlas.loci.len() as u8 + 40).unwrap_or(Entity::ATLAS)
}

/// The step of a locus that makes a container. On want of memory nothing is changed.
pub fn step_make(
    state: &mut Plain,
    versions: &mut [u64; 64],
    locus: Entity,
    place: usize,
    instr: Instr,
) -> Result<Entry, AllocError>
    ghost s: { Supply }
    requires sound { IsSound (cells_of s state.old) }
    requires few { AreFewVersions versions.old }
    requires acting { IsActingAt state.old.loci.items locus place (bearing instr ContainerKind) }
    ensures step { IfOk result (λ e. StepsTo s locus (cells_of s state.old) versions.old e (cells_of s state.new) versions.new) }
    ensures err { OnErr result (Stays (cells_of s state.old) versions.old (cells_of s state.new) versions.new) }
    ensures edges { state.new.atlas.edges ≡ state.old.atlas.edges }
    ensures names { KeepsNames (atlas_of state.old.atlas) (atlas_of state.new.atlas) }
{
    let Instr::Make(d, n, t, entry) = instr else {
        unreachable!()
    };
    state.containers.reserve(1)?;
    let alloc = *state.containers.allocator();
    let l = &mut state.loci[place];
    let pages = register(l, n) as u16;
    let tag = register(l, t);
    let MadeContainer { answer, newborn } = make(alloc, l, &mut state.atlas, d, pages, tag, entry)?;
    let Some(container) = newborn else {
        return Ok(entry_of_two(versions, locus, wrote(Entity::ATLAS), wrote(locus), answer));
    };
    push_within(&mut state.containers, container);
    let number = last_container(&state.atlas);
    Ok(entry_of_three(versions, locus, Entity::ATLAS, number, locus, answer))
}

/// The step of a locus that spawns another. On want of memory nothing is changed.
pub fn step_spawn(
    state: &mut Plain,
    versions: &mut [u64; 64],
    locus: Entity,
    place: usize,
    instr: Instr,
) -> Result<Entry, AllocError>
    ghost s: { Supply }
    requires sound { IsSound (cells_of s state.old) }
    requires few { AreFewVersions versions.old }
    requires acting { IsActingAt state.old.loci.items locus place (bearing instr LocusKind) }
    ensures step { IfOk result (λ e. StepsTo s locus (cells_of s state.old) versions.old e (cells_of s state.new) versions.new) }
    ensures err { OnErr result (Stays (cells_of s state.old) versions.old (cells_of s state.new) versions.new) }
    ensures edges { state.new.atlas.edges ≡ state.old.atlas.edges }
    ensures names { KeepsNames (atlas_of state.old.atlas) (atlas_of state.new.atlas) }
{
    let Instr::Spawn(d, p) = instr else {
        unreachable!()
    };
    state.loci.reserve(1)?;
    let alloc = *state.loci.allocator();
    let l = &mut state.loci[place];
    let SpawnedLocus { answer, newborn } = spawn(alloc, l, &mut state.atlas, d, p)?;
    let Some(spawned) = newborn else {
        return Ok(entry_of_two(versions, locus, wrote(Entity::ATLAS), wrote(locus), answer));
    };
    push_within(&mut state.loci, spawned);
    let number = last_locus(&state.atlas);
    Ok(entry_of_three(versions, locus, Entity::ATLAS, locus, number, answer))
}
