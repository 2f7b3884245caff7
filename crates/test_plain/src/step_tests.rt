use crate::scripts_played::{played, program_played};
use base_types::{Answer, Cap, Entity, Event, Instr, Region, Reply, Right, Rights};
use plain_runs::Played;
use plain_states::Edge;
use std::alloc::Global;
use std::test::Fail;

/// What the steps of the locus answer, until it makes none.
fn answers_of(alloc: Global, program: &str) -> Result<Vec<Answer>, Fail> {
    let played = program_played(alloc, 100, program)?;
    let mut answers = Vec::new(alloc);
    for entry in &played.history {
        if entry.event == Event::Step && entry.actor.number() == 41 {
            answers.push(entry.answer)?;
        }
    }
    Ok(answers)
}

#[test]
fn a_locus_that_stops_itself_has_passed_the_stop(rt: HostRuntime) -> Result<(), Fail> {
    let answers = answers_of(rt.alloc(), "'stop r0', 'go r0', 'print r7', 'halt'")?;
    assert!(rt; answers.as_slice() == [Answer::Reply(Reply::Ok)].as_slice());
    Ok(())
}

/// Whether the steps of a program's locus answer this at these places.
fn answers_at(alloc: Global, program: &str, wanted: &[(usize, Answer)]) -> Result<bool, Fail> {
    let answers = answers_of(alloc, program)?;
    Ok(wanted.iter().all(|(at, answer)| answers.get(*at).is_some_and(|given| given == answer)))
}

// 22 times a birth and a jump, then NoNumber, no jump, the print and the halt.
const SPAWNS: &str = "'spawn r1 @5', 'jz r7 @0', 'print r7', 'halt', 'halt', 'halt'";

const SPAWNED: &[(usize, Answer)] = &[
    (44, Answer::Reply(Reply::NoNumber)),
    (46, Answer::Print(10)),
];

const CALLS: &str = "'set r0 1', 'make r1 r0 r2 @2', 'invoke r1', 'print r7', 'halt'";

const CALLED: &[(usize, Answer)] = &[
    (65, Answer::Reply(Reply::Ok)),
    (66, Answer::Reply(Reply::ListFull)),
    (67, Answer::Print(6)),
];

const LOOKS: &str =
    "'set r0 1', 'set r2 7', 'make r1 r0 r2 @8', 'set r6 8', 'make r3 r0 r6 -', 'lmap r4 r3 r4 r0 r', 'load r5 r4', 'leave r1', 'load r5 r4', 'print r5', 'halt'";

const LOOKED: &[(usize, Answer)] = &[
    (6, Answer::Read(8)),
    (8, Answer::Read(7)),
    (9, Answer::Print(7)),
];

const MAPS_ON: &str =
    "'set r0 1', 'make r1 r0 r2 @6', 'make r3 r0 r2 -', 'map r1 r2 r3 r2 r0 r', 'map r3 r2 r1 r2 r0 r', 'leave r1', 'load r4 r2', 'store r2 r4', 'halt'";

const MAPPED_ON: &[(usize, Answer)] = &[
    (3, Answer::Reply(Reply::Ok)),
    (4, Answer::Reply(Reply::Circle)),
    (6, Answer::Hop),
    (7, Answer::Read(0)),
    (8, Answer::Reply(Reply::Denied(Right::Write))),
];

const GIVES: &str =
    "'set r0 1', 'make r1 r0 r2 -', 'give r3 r1 r1 r', 'take r4 r1 r3', 'print r4', 'take r4 r1 r4', 'give r3 r4 r1 r', 'halt'";

const GIVEN: &[(usize, Answer)] = &[
    (2, Answer::Reply(Reply::Ok)),
    (3, Answer::Reply(Reply::Ok)),
    (4, Answer::Print(2)),
    (5, Answer::Reply(Reply::NoSlot)),
    (6, Answer::Reply(Reply::Denied(Right::Copy))),
];

#[test]
fn loci_are_spawned_until_no_number_is_left(rt: HostRuntime) -> Result<(), Fail> {
    assert!(rt; answers_of(rt.alloc(), SPAWNS)?.len() == 48);
    assert!(rt; answers_at(rt.alloc(), SPAWNS, SPAWNED)?);
    Ok(())
}

#[test]
fn a_chain_takes_64_calls(rt: HostRuntime) -> Result<(), Fail> {
    assert!(rt; answers_of(rt.alloc(), CALLS)?.len() == 69);
    assert!(rt; answers_at(rt.alloc(), CALLS, CALLED)?);
    Ok(())
}

#[test]
fn a_private_region_counts_in_its_host_alone(rt: HostRuntime) -> Result<(), Fail> {
    assert!(rt; answers_at(rt.alloc(), LOOKS, LOOKED)?);
    Ok(())
}

#[test]
fn a_mapping_denies_and_closes_no_circle(rt: HostRuntime) -> Result<(), Fail> {
    assert!(rt; answers_at(rt.alloc(), MAPS_ON, MAPPED_ON)?);
    Ok(())
}

#[test]
fn what_is_given_is_cut_and_what_is_taken_goes_to_the_lowest_slot(
    rt: HostRuntime,
) -> Result<(), Fail> {
    assert!(rt; answers_at(rt.alloc(), GIVES, GIVEN)?);
    Ok(())
}

/// A region of one page, at page 2.
fn region_of(target: Entity) -> Region {
    Region {
        at: 2,
        count: 1,
        target,
        from: 0,
        rights: Rights(3),
    }
}

/// A region of `b` is mapped into `a`; then one is unmapped where none is, and then this one.
const MAPS: &str =
    "program.p = ['set r7 9', 'set r1 1', 'set r2 2', 'map r0 r2 r1 r3 r1 rw', 'set r5 3', 'unmap r0 r5', 'unmap r0 r2', 'halt']
container = [{ name = 'a', pages = 4, program = 'p' }, { name = 'b', pages = 1 }]
locus = [{ name = 'l', host = 'a', caps = ['a m', 'b rw'] }]
";

const MAPS_ITSELF: &str = "program.p = ['set r1 1', 'set r2 2', 'map r0 r2 r0 r3 r1 rw', 'halt']
container = [{ name = 'a', pages = 4, program = 'p' }]
locus = [{ name = 'l', host = 'a', caps = ['a rwm'] }]
";

/// Whether a run that is cut off after so many steps has this answer last, in the place behind, and these regions and edges.
fn leaves(
    alloc: Global,
    script: &str,
    steps: u8,
    reply: Reply,
    mapped: (&[Region], &[Edge]),
) -> Result<bool, Fail> {
    let text = format!(in alloc; "steps = {steps}\n{script}")?;
    let run = played(alloc, text.as_str())?;
    let last = run.history.last().ok_or("an entry")?;
    let a = run.state.containers.first().ok_or("a container")?;
    let l = run.state.loci.first().ok_or("a locus")?;
    Ok(
        last.answer == Answer::Reply(reply)
            && (a.regions.as_slice(), run.state.atlas.edges.as_slice()) == mapped
            && (l.registers[7], l.place) == (reply.number(), steps),
    )
}

#[test]
fn a_region_is_mapped_with_its_edge_and_taken_away(rt: HostRuntime) -> Result<(), Fail> {
    let alloc = rt.alloc();
    let regions = [region_of(Entity::new(2).ok_or("a container")?)];
    let edges = [Edge {
        from: 1,
        to: 2,
        count: 1,
    }];
    assert!(rt; leaves(alloc, MAPS, 4, Reply::Ok, (&regions, &edges))?);
    assert!(rt; leaves(alloc, MAPS, 6, Reply::NoRegion, (&regions, &edges))?);
    assert!(rt; leaves(alloc, MAPS, 7, Reply::Ok, (&[], &[]))?);
    Ok(())
}

#[test]
fn a_region_of_the_container_itself_is_a_circle(rt: HostRuntime) -> Result<(), Fail> {
    assert!(rt; leaves(rt.alloc(), MAPS_ITSELF, 3, Reply::Circle, (&[], &[]))?);
    Ok(())
}

/// A container of two pages with tag 7, which is entered at place 1.
const MAKES: &str = "steps = 5
program.p = ['set r0 2', 'set r1 7', 'set r3 9', 'set r7 9', 'make r3 r0 r1 @1', 'halt']
container = [{ name = 'a', pages = 1, program = 'p' }]
locus = [{ name = 'l', host = 'a' }]
";

/// The code of `MAKES`.
const MADE: &[Instr] = &[
    Instr::Set(0, 2),
    Instr::Set(1, 7),
    Instr::Set(3, 9),
    Instr::Set(7, 9),
    Instr::Make(3, 0, 1, Some(1)),
    Instr::Halt,
];

/// Whether the second container is one of two pages with tag 7, which is entered at place 1, and has a made name.
fn is_made(run: &Played) -> Result<bool, Fail> {
    let c = run.state.containers.get(1).ok_or("a container")?;
    let name = run.state.atlas.containers.get(1).ok_or("a name")?;
    Ok(
        (c.pages, c.tag, c.entry) == (2, 7, Some(1))
            && c.code.as_slice() == MADE
            && run.state.atlas.containers.len() == 2
            && name.as_str() == "#2",
    )
}

/// Whether the locus has gone on with the slot in register 3, which holds a capability of container 2.
fn holds_it(run: &Played) -> Result<bool, Fail> {
    let l = run.state.loci.first().ok_or("a locus")?;
    let held = Cap {
        entity: Entity::new(2).ok_or("a container")?,
        rights: Rights(127),
    };
    Ok(
        (l.registers[3], l.registers[7], l.place) == (0, 0, 5)
            && l.caps.first().copied() == Some(Some(held)),
    )
}

#[test]
fn a_locus_makes_a_container_with_its_code(rt: HostRuntime) -> Result<(), Fail> {
    let run = played(rt.alloc(), MAKES)?;
    let last = run.history.last().ok_or("an entry")?;
    assert!(rt; last.answer == Answer::Reply(Reply::Ok));
    assert!(rt; is_made(&run)?);
    assert!(rt; holds_it(&run)?);
    Ok(())
}
