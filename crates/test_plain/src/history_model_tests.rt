ghost use Rattle.std.specs.Prelude.{◌≡◌, IfOk, None, codes};
ghost use Rattle.plain_steps.specs.model_kernel.Scripts.{container_named as container_number, locus_named as locus_number};
ghost use Rattle.plain_steps.specs.model_kernel.Soundness.{IsSound};
ghost use Rattle.plain_steps.specs.model_kernel.State.{AtlasState, Supply, Text};
ghost use Rattle.script_types.specs.Rules.{IsScript};
ghost use Rattle.script_types.specs.Scripts.{tables_of};
ghost use Rattle.plain_states.specs.Born.{AreEdges, AreOfOneKind, KnowsNames};
ghost use Rattle.plain_states.specs.Events.{AreFewVersions};
ghost use Rattle.plain_states.specs.Plains.{cells_of};

use base_types::{Answer, Cap, Entity, Entry, Instr, Reply, Rights};
use plain_states::{Plain, PlainAtlas, PlainLocus, container_named, number_among, plain_birth};
use plain_steps::plain_step;
use script_types::{Script, ScriptContainer, ScriptLocus};
use std::alloc::{AllocError, Global};
use std::process::Abort;
use std::test::Fail;

/// Container `a` of one page, whose program prints a word that it stored and spawns a locus, and locus `l` in it.
fn one_of_each(alloc: Global) -> Result<Script, AllocError>
    ensures script { IfOk result (λ s. IsScript (tables_of s)) }
    ensures known { IfOk result (λ s. (a : AtlasState) → (name : Text) → KnowsNames a (tables_of s) name) }
    ensures kinds { IfOk result (λ s. (a : AtlasState) → locus_number a (codes "a") ≡ None → container_number a (codes "l") ≡ None → AreOfOneKind a (tables_of s)) }
{
    let code = vec![in alloc;
        Instr::Set(0, 5),
        Instr::Store(1, 0),
        Instr::Load(2, 1),
        Instr::Print(2),
        Instr::Set(7, 9),
        Instr::Spawn(3, 1),
        Instr::Halt,
    ]?;
    let container = ScriptContainer {
        name: String::from_str(alloc, "a")?,
        pages: 1,
        tag: 0,
        every: 0,
        code,
        entry: None,
        regions: Vec::new(alloc),
        caps: Vec::new(alloc),
    };
    let locus = ScriptLocus {
        name: String::from_str(alloc, "l")?,
        host: String::from_str(alloc, "a")?,
        at: 0,
        every: 5,
        caps: Vec::new(alloc),
    };
    Ok(Script {
        steps: 10_000,
        frames: 32,
        order: Vec::new(alloc),
        containers: vec![in alloc; container]?,
        loci: vec![in alloc; locus]?,
    })
}

/// Nothing but the atlas is born.
fn empty_state(alloc: Global) -> Plain
    ensures sound { (s : Supply) → IsSound (cells_of s result) }
    ensures edges { AreEdges result.atlas.edges.items }
{
    Plain {
        atlas: PlainAtlas {
            containers: Vec::new(alloc),
            loci: Vec::new(alloc),
            edges: Vec::new(alloc),
        },
        containers: Vec::new(alloc),
        loci: Vec::new(alloc),
    }
}

fn bear(
    rt: &impl Abort,
    alloc: Global,
    state: &mut Plain,
    versions: &mut [u64; 64],
    script: &Script,
    name: &str,
) -> Result<Option<Entry>, AllocError>
    requires sound { (s : Supply) → IsSound (cells_of s state.old) }
    requires edges { AreEdges state.old.atlas.edges.items }
    requires script { IsScript (tables_of script.now) }
    requires known { (a : AtlasState) → (name : Text) → KnowsNames a (tables_of script.now) name }
    requires kinds { (a : AtlasState) → locus_number a (codes "a") ≡ None → container_number a (codes "l") ≡ None → AreOfOneKind a (tables_of script.now) }
    ensures sound { (s : Supply) → IsSound (cells_of s state.new) }
    ensures edges { AreEdges state.new.atlas.edges.items }
{
    assert!(rt; versions.iter().all(|v| *v < 1 << 63));
    assert!(rt; number_among(&state.atlas.loci, "a", 41).is_none());
    assert!(rt; container_named(&state.atlas, "l").is_none());
    plain_birth(alloc, state, versions, script, name)
}

/// The versions that the birth of this entity left: of the atlas, of the host of a locus, and its own.
fn wrote(entry: Option<Entry>, newborn: u8, versions: &[(u8, u64)]) -> bool {
    let Some(entry) = entry else {
        return false;
    };
    let touches = entry.touched.as_slice();
    entry.actor.number() == newborn
        && touches.len() == versions.len()
        && touches.iter().zip(versions).all(|(touch, (entity, version))| {
            touch.wrote && touch.entity.number() == *entity && touch.version == *version
        })
}

#[test]
fn a_locus_is_born_after_its_host_and_each_name_once(rt: HostRuntime) -> Result<(), Fail> {
    let script = one_of_each(rt.alloc())?;
    let mut state = empty_state(rt.alloc());
    let mut versions = [0; 64];
    assert!(rt; bear(&rt, rt.alloc(), &mut state, &mut versions, &script, "l")? == None);
    let of_a = bear(&rt, rt.alloc(), &mut state, &mut versions, &script, "a")?;
    assert!(rt; wrote(of_a, 1, &[(0, 1), (1, 1)]));
    let of_l = bear(&rt, rt.alloc(), &mut state, &mut versions, &script, "l")?;
    assert!(rt; wrote(of_l, 41, &[(0, 2), (1, 2), (41, 1)]));
    assert!(rt; bear(&rt, rt.alloc(), &mut state, &mut versions, &script, "a")? == None);
    assert!(rt; bear(&rt, rt.alloc(), &mut state, &mut versions, &script, "b")? == None);
    Ok(())
}

/// A step on a supplier of zeros.
fn step(
    state: &mut Plain,
    versions: &mut [u64; 64],
    locus: Entity,
) -> Result<Option<Entry>, AllocError>
    requires sound { IsSound (cells_of (λ tag page place. 0) state.old) }
    requires few { AreFewVersions versions.old }
    requires edges { AreEdges state.old.atlas.edges.items }
    ensures sound { IsSound (cells_of (λ tag page place. 0) state.new) }
    ensures edges { AreEdges state.new.atlas.edges.items }
{
    plain_step(state, versions, locus, &|_, _, _| 0)
}

/// The same, where the versions are below 2^63.
fn checked_step(
    rt: &impl Abort,
    state: &mut Plain,
    versions: &mut [u64; 64],
    locus: Entity,
) -> Result<Option<Entry>, AllocError>
    requires sound { IsSound (cells_of (λ tag page place. 0) state.old) }
    requires edges { AreEdges state.old.atlas.edges.items }
    ensures sound { IsSound (cells_of (λ tag page place. 0) state.new) }
    ensures edges { AreEdges state.new.atlas.edges.items }
{
    assert!(rt; versions.iter().all(|v| *v < 1 << 63));
    step(state, versions, locus)
}

#[test]
fn a_locus_that_is_not_born_makes_no_step(rt: HostRuntime) -> Result<(), Fail> {
    let mut state = empty_state(rt.alloc());
    let mut versions = [0; 64];
    let locus = Entity::new(63).ok_or("a locus")?;
    assert!(rt; checked_step(&rt, &mut state, &mut versions, locus)? == None);
    Ok(())
}

/// What the last of so many steps of the locus answers, None if it made none.
fn last_answer(
    rt: &impl Abort,
    state: &mut Plain,
    versions: &mut [u64; 64],
    locus: Entity,
    steps: u8,
) -> Result<Option<Answer>, AllocError>
    requires sound { IsSound (cells_of (λ tag page place. 0) state.old) }
    requires edges { AreEdges state.old.atlas.edges.items }
{
    let mut last = None;
    for _ in 0..steps {
        last = checked_step(rt, state, versions, locus)?;
    }
    Ok(last.map(|entry| entry.answer))
}

/// The state in which both are born and locus `l` has spawned another.
fn spawned(rt: &impl Abort, alloc: Global) -> Result<Plain, Fail> {
    let script = one_of_each(alloc)?;
    let mut state = empty_state(alloc);
    let mut versions = [0; 64];
    for &name in &["a", "l"] {
        let born = bear(rt, alloc, &mut state, &mut versions, &script, name)?;
        assert!(rt; born.is_some(), "{name}");
    }
    let first = Entity::new(41).ok_or("a locus")?;
    let answer = last_answer(rt, &mut state, &mut versions, first, 6)?;
    assert!(rt; answer == Some(Answer::Reply(Reply::Ok)));
    Ok(state)
}

/// Whether a newborn has its spawner's registers, no capability, and nothing printed.
fn has_nothing_begun(newborn: &PlainLocus) -> bool {
    (newborn.place, newborn.every, newborn.printed) == (1, 5, 0)
        && newborn.registers == [5, 0, 5, 0, 0, 0, 0, 9]
        && newborn.caps.iter().all(|slot| slot.is_none())
}

/// Whether a locus that printed once holds a capability of locus 42 in slot 0.
fn holds_newborn(l: &PlainLocus) -> Result<bool, Fail> {
    let held = Cap {
        entity: Entity::new(42).ok_or("a locus")?,
        rights: Rights(127),
    };
    Ok(l.caps.first().copied() == Some(Some(held)) && l.printed == 1)
}

#[test]
fn a_spawned_locus_has_nothing_begun(rt: HostRuntime) -> Result<(), Fail> {
    let state = spawned(&rt, rt.alloc())?;
    let (loci, names) = (state.loci.as_slice(), state.atlas.loci.as_slice());
    assert!(rt; loci.len() == 2 && names.len() == 2);
    assert!(rt; has_nothing_begun(&loci[1]));
    assert!(rt; holds_newborn(&loci[0])?);
    assert!(rt; names[1].as_str() == "#42");
    Ok(())
}
