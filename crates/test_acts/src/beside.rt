ghost use Rattle.std.specs.Prelude.{◌≡◌, ◌<◌, IfSome, None, codes};
ghost use Rattle.plain_states.specs.model_kernel.Scripts.{container_named as container_number, locus_named as locus_number};
ghost use Rattle.plain_states.specs.model_kernel.Soundness.{IsSound};
ghost use Rattle.plain_states.specs.model_kernel.State.{AtlasState, Supply, Text};
ghost use Rattle.script_types.specs.Rules.{IsScript};
ghost use Rattle.script_types.specs.Scripts.{tables_of};
ghost use Rattle.plain_states.specs.Born.{AreEdges, AreOfOneKind, KnowsNames};
ghost use Rattle.plain_states.specs.Plains.{cells_of};

use crate::both::{Seen, step_both};
use crate::programs::{Draws, program, script_of};
use base_types::{Answer, Entity, Entry, Instr, Kind, Reply};
use data_atlas::Atlas;
use plain_states::{Plain, PlainAtlas, container_named, number_among, plain_birth};
use script_types::Script;
use std::alloc::{AllocError, Global};
use std::process::Abort;
use std::test::Fail;

/// Nothing but the atlas is born.
fn empty_state(alloc: Global) -> Plain
    ensures sound { (s : Supply) → IsSound (cells_of s result) }
    ensures edges { AreEdges result.atlas.edges.items }
{
    Plain {
        atlas: PlainAtlas {
            containers: Vec::new(alloc),
            loci: Vec::new(alloc),
            edges: Vec::new(alloc),
        },
        containers: Vec::new(alloc),
        loci: Vec::new(alloc),
    }
}

fn bear(
    rt: &impl Abort,
    alloc: Global,
    state: &mut Plain,
    versions: &mut [u64; 64],
    script: &Script,
    name: &str,
) -> Result<Option<Entry>, AllocError>
    requires sound { (s : Supply) → IsSound (cells_of s state.old) }
    requires edges { AreEdges state.old.atlas.edges.items }
    requires script { IsScript (tables_of script.now) }
    requires known { (a : AtlasState) → (name : Text) → KnowsNames a (tables_of script.now) name }
    requires kinds { (a : AtlasState) → locus_number a (codes "a") ≡ None → container_number a (codes "l") ≡ None → AreOfOneKind a (tables_of script.now) }
    ensures sound { (s : Supply) → IsSound (cells_of s state.new) }
    ensures edges { AreEdges state.new.atlas.edges.items }
{
    assert!(rt; versions.iter().all(|v| *v < 1 << 63));
    assert!(rt; number_among(&state.atlas.loci, "a", 41).is_none());
    assert!(rt; container_named(&state.atlas, "l").is_none());
    plain_birth(alloc, state, versions, script, name)
}

/// The calls of which each has to be made with both kinds of answer.
const CALLS: usize = 15;

/// A spawn is refused where 23 loci are born, which these programs don't reach.
const NEVER_REFUSED: usize = 11;

/// The place of a call in the count.
fn call_of(instr: Instr) -> Option<usize>
    ensures { IfSome result (λ call. call < 15) }
{
    match instr {
        Instr::Invoke(_) => Some(0),
        Instr::Leave(_) => Some(1),
        Instr::Return => Some(2),
        Instr::Map(..) => Some(3),
        Instr::Unmap(..) => Some(4),
        Instr::Lmap(..) => Some(5),
        Instr::Lunmap(_) => Some(6),
        Instr::Take(..) => Some(7),
        Instr::Give(..) => Some(8),
        Instr::Drop(_) => Some(9),
        Instr::Make(..) => Some(10),
        Instr::Spawn(..) => Some(11),
        Instr::Stop(_) => Some(12),
        Instr::Go(_) => Some(13),
        Instr::Stabilise(_) => Some(14),
        _ => None,
    }
}

/// Counts a call that answered Ok, and one that was refused.
fn count(done: &mut [u32; CALLS], refused: &mut [u32; CALLS], seen: Seen) {
    let Seen::Same(instr, Answer::Reply(reply)) = seen else {
        return;
    };
    let Some(call) = call_of(instr) else {
        return;
    };
    match reply {
        Reply::Ok => done[call] = done[call].saturating_add(1),
        _ => refused[call] = refused[call].saturating_add(1),
    }
}

/// The directory in which container `a` and locus `l` are born.
fn directory(rt: &impl Abort) -> Atlas {
    let mut atlas = Atlas::new();
    assert!(rt; atlas.find("a").is_none());
    assert!(rt; atlas.birth(Some("a"), Kind::Container).is_ok());
    assert!(rt; atlas.find("l").is_none());
    assert!(rt; atlas.birth(Some("l"), Kind::Locus).is_ok());
    atlas
}

/// 80 steps of a program, mostly of the first two loci.
fn run(
    rt: &impl Abort,
    alloc: Global,
    draws: &mut Draws,
    done: &mut [u32; CALLS],
    refused: &mut [u32; CALLS],
) -> Result<(), AllocError> {
    let code = program(alloc, draws)?;
    assert!(rt; code.len() <= 128);
    let script = script_of(alloc, code)?;
    let mut state = empty_state(alloc);
    let mut versions = [0; 64];
    let mut atlas = directory(rt);
    let _ = bear(rt, alloc, &mut state, &mut versions, &script, "a")?;
    let _ = bear(rt, alloc, &mut state, &mut versions, &script, "l")?;
    for n in 0..80 {
        let number = if n < 13 {
            41
        } else {
            41 + draws.below(3) as u8
        };
        let Some(me) = Entity::new(number) else {
            return Ok(());
        };
        let seen = step_both(rt, &mut state, &mut versions, &mut atlas, me)?;
        count(done, refused, seen);
    }
    Ok(())
}

#[test]
fn both_kernels_make_the_same_of_programs_that_are_drawn(rt: HostRuntime) -> Result<(), Fail> {
    let mut draws = Draws::new(2026);
    let mut done = [0; CALLS];
    let mut refused = [0; CALLS];
    for _ in 0..30 {
        run(&rt, rt.alloc(), &mut draws, &mut done, &mut refused)?;
    }
    for (call, count) in done.iter().enumerate() {
        assert!(rt; *count > 0, "no call of {call} was made");
    }
    for (call, count) in refused.iter().enumerate() {
        assert!(rt;
            *count > 0 || call == NEVER_REFUSED,
            "no call of {call} was refused"
        );
    }
    Ok(())
}
