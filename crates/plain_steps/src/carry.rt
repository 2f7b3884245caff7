//! What a running locus's step makes of a state, by what its act touches.
ghost use Rattle.std.specs.Prelude.{◌≡◌, ℕ, ◌<◌, ◌≤◌, ◌^◌, IfOk, OnErr, Some, None, true, [], ◌∷◌, nat_lt, if◌then◌else◌};
ghost use Rattle.base_types.specs.declared.instructions.Instr.{Instr as AnInstr};
ghost use Rattle.model_kernel.specs.Acts.{alone, beside};
ghost use Rattle.model_kernel.specs.Soundness.{IsSound};
ghost use Rattle.model_kernel.specs.State.{Supply};
ghost use Rattle.plain_states.specs.Entries.{step_entry, versions_after};
ghost use Rattle.plain_states.specs.Events.{AreFewVersions, StepsTo, Stays};
ghost use Rattle.plain_states.specs.Lists.{IsActingAt};
ghost use Rattle.plain_states.specs.Plains.{cells_of, locus_of};
ghost use Rattle.plain_facts.specs.Acts.{controlled as controlled_by};

use crate::acts::beside_container;
use crate::beside_acts::{let_go_on, stop_other};
use crate::local_acts::{finish, local};
use base_types::{Answer, Entity, Entry, FIRST_LOCUS, Instr, Reply};
use plain_states::entries::{Mark, entry_alone, entry_of_two, wrote};
use plain_states::{Plain, PlainLocus};
use std::alloc::AllocError;

/// The step of a locus that refuses its act itself.
pub fn step_refused(
    state: &mut Plain,
    versions: &mut [u64; 64],
    locus: Entity,
    place: usize,
    reply: Reply,
) -> Entry
    ghost s: { Supply }
    requires sound { IsSound (cells_of s state.old) }
    requires few { AreFewVersions versions.old }
    requires acting { (instr : AnInstr) × IsActingAt state.old.loci.items locus place (alone instr (Some reply)) }
    ensures step { StepsTo s locus (cells_of s state.old) versions.old result (cells_of s state.new) versions.new }
    ensures atlas { state.new.atlas ≡ state.old.atlas }
{
    let answer = finish(&mut state.loci[place], reply);
    entry_alone(versions, locus, answer)
}

/// The step of a locus whose act touches it alone. On want of memory nothing is changed.
pub fn step_local(
    state: &mut Plain,
    versions: &mut [u64; 64],
    locus: Entity,
    place: usize,
    instr: Instr,
) -> Result<Entry, AllocError>
    ghost s: { Supply }
    requires sound { IsSound (cells_of s state.old) }
    requires few { AreFewVersions versions.old }
    requires acting { IsActingAt state.old.loci.items locus place (alone instr None) }
    ensures step { IfOk result (λ e. StepsTo s locus (cells_of s state.old) versions.old e (cells_of s state.new) versions.new) }
    ensures err { OnErr result (Stays (cells_of s state.old) versions.old (cells_of s state.new) versions.new) }
    ensures atlas { state.new.atlas ≡ state.old.atlas }
{
    let answer = local(&mut state.loci[place], instr)?;
    Ok(entry_alone(versions, locus, answer))
}

/// The step of a locus beside a container. On want of memory nothing is changed.
pub fn step_container<S: Fn(u64, u32, u16) -> u64>(
    state: &mut Plain,
    versions: &mut [u64; 64],
    locus: Entity,
    place: usize,
    instr: Instr,
    container: Entity,
    supply: &S,
) -> Result<Entry, AllocError>
    ghost s: { Supply }
    requires callable { (t p a : ℕ) → t < 2 ^ 64 → p < 256 → a < 128 → S.pre supply.now t p a }
    requires answers { (t p a r : ℕ) → t < 2 ^ 64 → p < 256 → a < 128 → S.post supply.now t p a r → r ≡ s t p a }
    requires sound { IsSound (cells_of s state.old) }
    requires few { AreFewVersions versions.old }
    requires acting { IsActingAt state.old.loci.items locus place (beside instr container) }
    requires some { 0 < container }
    requires low { container < 41 }
    ensures step { IfOk result (λ e. StepsTo s locus (cells_of s state.old) versions.old e (cells_of s state.new) versions.new) }
    ensures err { OnErr result (Stays (cells_of s state.old) versions.old (cells_of s state.new) versions.new) }
    ensures atlas { state.new.atlas ≡ state.old.atlas }
{
    let at = container.number() as usize - 1;
    let l = &mut state.loci[place];
    let made = beside_container(l, container, &mut state.containers[at], instr, supply)?;
    let of_container = Mark {
        entity: container,
        wrote: made.wrote,
    };
    Ok(entry_of_two(versions, locus, of_container, wrote(locus), made.answer))
}

/// The step of a locus that records the atlas.
pub fn step_atlas(state: &mut Plain, versions: &mut [u64; 64], locus: Entity, place: usize) -> Entry
    ghost s: { Supply }
    requires sound { IsSound (cells_of s state.old) }
    requires few { AreFewVersions versions.old }
    requires acting { (instr : AnInstr) × IsActingAt state.old.loci.items locus place (beside instr 0) }
    ensures step { StepsTo s locus (cells_of s state.old) versions.old result (cells_of s state.new) versions.new }
    ensures atlas { state.new.atlas ≡ state.old.atlas }
{
    let answer = finish(&mut state.loci[place], Reply::Ok);
    entry_of_two(versions, locus, wrote(Entity::ATLAS), wrote(locus), answer)
}

/// What stop and go make of another locus.
fn control(m: &mut PlainLocus, instr: Instr)
    ensures { locus_of m.new ≡ controlled_by instr (locus_of m.old) }
{
    match instr {
        Instr::Stop(_) => stop_other(m),
        Instr::Go(_) => let_go_on(m),
        _ => {}
    }
}

/// The entry of a step that writes another locus too.
fn entry_of_loci(versions: &mut [u64; 64], locus: Entity, other: Entity, answer: Answer) -> Entry
    requires few { AreFewVersions versions.old }
    requires apart { other ≡ locus → ⊥ }
    ensures entry { result ≡ step_entry versions.old locus (if nat_lt other locus then record { entity = other; wrote = true } ∷ record { entity = locus; wrote = true } ∷ [] else record { entity = locus; wrote = true } ∷ record { entity = other; wrote = true } ∷ []) answer }
    ensures versions { versions.new ≡ versions_after versions.old (if nat_lt other locus then record { entity = other; wrote = true } ∷ record { entity = locus; wrote = true } ∷ [] else record { entity = locus; wrote = true } ∷ record { entity = other; wrote = true } ∷ []) }
{
    if other.number() < locus.number() {
        return entry_of_two(versions, locus, wrote(other), wrote(locus), answer);
    }
    entry_of_two(versions, locus, wrote(locus), wrote(other), answer)
}

/// The step of a locus that stops another, lets it go on, or records it.
pub fn step_locus(
    state: &mut Plain,
    versions: &mut [u64; 64],
    locus: Entity,
    place: usize,
    instr: Instr,
    other: Entity,
) -> Entry
    ghost s: { Supply }
    requires sound { IsSound (cells_of s state.old) }
    requires few { AreFewVersions versions.old }
    requires acting { IsActingAt state.old.loci.items locus place (beside instr other) }
    requires high { 41 ≤ other }
    ensures step { StepsTo s locus (cells_of s state.old) versions.old result (cells_of s state.new) versions.new }
    ensures atlas { state.new.atlas ≡ state.old.atlas }
{
    let at = (other.number() - FIRST_LOCUS) as usize;
    control(&mut state.loci[at], instr);
    let answer = finish(&mut state.loci[place], Reply::Ok);
    entry_of_loci(versions, locus, other, answer)
}
