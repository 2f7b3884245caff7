ghost use Rattle.std.specs.Prelude.{◌≡◌, ◌+◌, ◌<◌, ◌↔◌, ◌^◌, [], ◌∷◌, ◌++◌, true, IfOk, IfSome, IfNone, IsNone, None, Some, OnOk, OnErr, slice_index, vec_len, vec_capacity};
ghost use Rattle.model_kernel.specs.Outcomes.{free_container as free_container_number};
ghost use Rattle.model_kernel.specs.Soundness.{IsSound};
ghost use Rattle.model_kernel.specs.State.{Supply};
ghost use Rattle.script_types.specs.Rules.{IsScript};
ghost use Rattle.script_types.specs.Scripts.{tables_of, container_of as container_table_of, locus_of as locus_table_of};
ghost use Rattle.plain_states.specs.Born.{AreEdges, AreOfOneKind, BearsContainer, BearsLocus, BearsNoLocus, IsReadyContainerTable, IsReadyLocusTable, IsUndefined, KnowsNames, entry_of_container, entry_of_locus, risen};
ghost use Rattle.plain_states.specs.Events.{AreFewVersions, Bears, Stays};
ghost use Rattle.plain_states.specs.Plains.{atlas_of, cells_of};

use crate::names::{
    container_named, container_table, free_container, free_locus, locus_table, number_of,
};
use crate::plain::{Edge, Plain, PlainContainer, PlainLocus};
use crate::tables::{container_from, edges_from, locus_from};
use base_types::{Answer, Entity, Entry, Event, Touch, Touched};
use script_types::{Script, ScriptContainer, ScriptLocus};
use std::alloc::{AllocError, Global};

/// The version of a written entity rises.
fn touch(versions: &mut [u64; 64], entity: Entity) -> Touch
    requires few { slice_index versions.old entity < 2 ^ 63 }
    ensures touch { result ≡ record { version = slice_index versions.old entity + 1; entity = entity; wrote = true } }
    ensures versions { versions.new ≡ risen versions.old entity }
{
    let n = entity.number() as usize;
    versions[n] += 1;
    Touch {
        version: versions[n],
        entity,
        wrote: true,
    }
}

/// The entry of a birth.
fn birth_entry(newborn: Entity, touched: Touched) -> Entry
    ensures { result ≡ record { event = Event.Birth; actor = newborn; touched = touched; version = 0; answer = Answer.Quiet } }
{
    Entry {
        event: Event::Birth,
        actor: newborn,
        touched,
        version: 0,
        answer: Answer::Quiet,
    }
}

/// The entry of a container's birth. The versions of the atlas and the container rise.
fn container_entry(versions: &mut [u64; 64], newborn: Entity) -> Entry
    requires few { AreFewVersions versions.old }
    requires apart { 0 < newborn }
    ensures entry { result ≡ entry_of_container versions.old newborn }
    ensures versions { versions.new ≡ risen (risen versions.old 0) newborn }
{
    let atlas = touch(versions, Entity::ATLAS);
    let container = touch(versions, newborn);
    birth_entry(newborn, Touched::two(atlas, container))
}

/// The entry of a locus's birth. The versions of the atlas, the host and the locus rise.
fn locus_entry(versions: &mut [u64; 64], host: Entity, newborn: Entity) -> Entry
    requires few { AreFewVersions versions.old }
    requires first { 0 < host }
    requires second { host < newborn }
    ensures entry { result ≡ entry_of_locus versions.old host newborn }
    ensures versions { versions.new ≡ risen (risen (risen versions.old 0) host) newborn }
{
    let atlas = touch(versions, Entity::ATLAS);
    let host = touch(versions, host);
    let locus = touch(versions, newborn);
    birth_entry(newborn, Touched::three(atlas, host, locus))
}

/// Appends where room was made before.
pub fn push_within<T: Drop>(list: &mut Vec<T>, item: T)
    requires room { vec_len list.old < vec_capacity list.old }
    ensures { list.new.items ≡ list.old.items ++ item ∷ [] }
{
    let _ = list.push(item);
}

/// Appends a container, its name and its edges. On want of memory nothing is changed.
fn add_container(
    state: &mut Plain,
    name: String,
    container: PlainContainer,
    edges: &[Edge],
) -> Result<(), AllocError>
    ensures names { OnOk result (state.new.atlas.containers.items ≡ state.old.atlas.containers.items ++ name ∷ []) }
    ensures edges { OnOk result (state.new.atlas.edges.items ≡ state.old.atlas.edges.items ++ edges.now) }
    ensures containers { OnOk result (state.new.containers.items ≡ state.old.containers.items ++ container ∷ []) }
    ensures locus_names { state.new.atlas.loci.items ≡ state.old.atlas.loci.items }
    ensures loci { state.new.loci.items ≡ state.old.loci.items }
    ensures names_stay { OnErr result (state.new.atlas.containers.items ≡ state.old.atlas.containers.items) }
    ensures edges_stay { OnErr result (state.new.atlas.edges.items ≡ state.old.atlas.edges.items) }
    ensures containers_stay { OnErr result (state.new.containers.items ≡ state.old.containers.items) }
{
    state.containers.reserve(1)?;
    state.atlas.containers.reserve(1)?;
    state.atlas.edges.extend_from_slice(edges)?;
    push_within(&mut state.atlas.containers, name);
    push_within(&mut state.containers, container);
    Ok(())
}

/// Appends a locus and its name. On want of memory nothing is changed.
fn add_locus(state: &mut Plain, name: String, locus: PlainLocus) -> Result<(), AllocError>
    ensures names { OnOk result (state.new.atlas.loci.items ≡ state.old.atlas.loci.items ++ name ∷ []) }
    ensures loci { OnOk result (state.new.loci.items ≡ state.old.loci.items ++ locus ∷ []) }
    ensures container_names { state.new.atlas.containers.items ≡ state.old.atlas.containers.items }
    ensures edges { state.new.atlas.edges.items ≡ state.old.atlas.edges.items }
    ensures containers { state.new.containers.items ≡ state.old.containers.items }
    ensures names_stay { OnErr result (state.new.atlas.loci.items ≡ state.old.atlas.loci.items) }
    ensures loci_stay { OnErr result (state.new.loci.items ≡ state.old.loci.items) }
{
    state.loci.reserve(1)?;
    state.atlas.loci.reserve(1)?;
    push_within(&mut state.atlas.loci, name);
    push_within(&mut state.loci, locus);
    Ok(())
}

/// The birth of a container from its table. None where no number is free.
fn container_birth(
    alloc: Global,
    state: &mut Plain,
    versions: &mut [u64; 64],
    table: &ScriptContainer,
) -> Result<Option<Entry>, AllocError>
    requires sound { (s : Supply) → IsSound (cells_of s state.old) }
    requires edges { AreEdges state.old.atlas.edges.items }
    requires few { AreFewVersions versions.old }
    requires table { IsReadyContainerTable (atlas_of state.old.atlas) (container_table_of table.now) }
    ensures birth { IfOk result (λ r. IfSome r (λ e. (s : Supply) → BearsContainer s (container_table_of table.now) (atlas_of state.old.atlas) (cells_of s state.old) versions.old e (cells_of s state.new) versions.new)) }
    ensures full { IfOk result (λ r. IfNone r (free_container_number (atlas_of state.old.atlas) ≡ None)) }
    ensures none { IfOk result (λ r. IfNone r ((s : Supply) → Stays (cells_of s state.old) versions.old (cells_of s state.new) versions.new)) }
    ensures err { OnErr result ((s : Supply) → Stays (cells_of s state.old) versions.old (cells_of s state.new) versions.new) }
    ensures edges { AreEdges state.new.atlas.edges.items }
    ensures sound { (s : Supply) → IsSound (cells_of s state.new) }
{
    let Some(newborn) = free_container(&state.atlas) else {
        return Ok(None);
    };
    let container = container_from(alloc, &state.atlas, newborn, table)?;
    let edges = edges_from(alloc, newborn, &container.regions)?;
    let name = table.name.clone()?;
    add_container(state, name, container, &edges)?;
    Ok(Some(container_entry(versions, newborn)))
}

/// The birth of a locus from its table. None where its host isn't born or no number is free.
fn locus_birth(
    alloc: Global,
    state: &mut Plain,
    versions: &mut [u64; 64],
    table: &ScriptLocus,
) -> Result<Option<Entry>, AllocError>
    requires sound { (s : Supply) → IsSound (cells_of s state.old) }
    requires few { AreFewVersions versions.old }
    requires table { IsReadyLocusTable (atlas_of state.old.atlas) (locus_table_of table.now) }
    ensures birth { IfOk result (λ r. IfSome r (λ e. (s : Supply) → BearsLocus (locus_table_of table.now) (atlas_of state.old.atlas) (cells_of s state.old) versions.old e (cells_of s state.new) versions.new)) }
    ensures full { IfOk result (λ r. IfNone r (BearsNoLocus (atlas_of state.old.atlas) (locus_table_of table.now))) }
    ensures none { IfOk result (λ r. IfNone r ((s : Supply) → Stays (cells_of s state.old) versions.old (cells_of s state.new) versions.new)) }
    ensures err { OnErr result ((s : Supply) → Stays (cells_of s state.old) versions.old (cells_of s state.new) versions.new) }
    ensures edges { state.new.atlas.edges.items ≡ state.old.atlas.edges.items }
    ensures sound { (s : Supply) → IsSound (cells_of s state.new) }
{
    let Some(host) = container_named(&state.atlas, &table.host) else {
        return Ok(None);
    };
    let Some(newborn) = free_locus(&state.atlas) else {
        return Ok(None);
    };
    let place = host.number() as usize - 1;
    let code = &state.containers[place].code;
    let locus = locus_from(alloc, &state.atlas, newborn, table, host, code)?;
    let name = table.name.clone()?;
    add_locus(state, name, locus)?;
    Ok(Some(locus_entry(versions, host, newborn)))
}

/// Gives birth to the container or locus of this name. None exactly where the script doesn't name it, the atlas does,
/// its host isn't born or no number is free; then, and on want of memory, nothing is changed.
pub fn plain_birth(
    alloc: Global,
    state: &mut Plain,
    versions: &mut [u64; 64],
    script: &Script,
    name: &str,
) -> Result<Option<Entry>, AllocError>
    requires sound { (s : Supply) → IsSound (cells_of s state.old) }
    requires edges { AreEdges state.old.atlas.edges.items }
    requires few { AreFewVersions versions.old }
    requires script { IsScript (tables_of script.now) }
    requires known { KnowsNames (atlas_of state.old.atlas) (tables_of script.now) name.now }
    requires kinds { AreOfOneKind (atlas_of state.old.atlas) (tables_of script.now) }

    ensures birth { IfOk result (λ r. IfSome r (λ e. (s : Supply) → Bears s (tables_of script.now) name.now (cells_of s state.old) versions.old e (cells_of s state.new) versions.new)) }
    ensures undefined { IfOk result (λ r. IsNone r ↔ ((s : Supply) → IsUndefined s (tables_of script.now) name.now (cells_of s state.old) versions.old)) }
    ensures none { IfOk result (λ r. IfNone r ((s : Supply) → Stays (cells_of s state.old) versions.old (cells_of s state.new) versions.new)) }
    ensures err { OnErr result ((s : Supply) → Stays (cells_of s state.old) versions.old (cells_of s state.new) versions.new) }

    // The state stays one that events may be made from.
    ensures edges { AreEdges state.new.atlas.edges.items }
    ensures sound { (s : Supply) → IsSound (cells_of s state.new) }
{
    if number_of(&state.atlas, name).is_some() {
        return Ok(None);
    }
    if let Some(table) = container_table(&script.containers, name) {
        return container_birth(alloc, state, versions, table);
    }
    match locus_table(&script.loci, name) {
        Some(table) => locus_birth(alloc, state, versions, table),
        None => Ok(None),
    }
}
