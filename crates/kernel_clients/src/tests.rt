//! A counter that is found behind a stop: at the last look with its count, right behind the opening not born yet. And one that runs to its end.
ghost use Rattle.std.specs.Prelude.{◌≤◌, IfOk};
ghost use Rattle.script_types.specs.Rules.{IsScript};
ghost use Rattle.script_types.specs.Scripts.{tables_of};

use crate::{Found, keep_and_stop, open_objects, run_to_end};
use base_types::{Entity, Event};
use edge_disk::{MemoryDisk, Torn};
use edge_managers::{CountedWords, EveryVersions, Gate};
use image_format::format;
use script_reading::read_script;
use script_types::Script;
use std::alloc::Global;
use std::test::Fail;

const COUNTER: &str = "steps = 20
program.count = ['set r2 1', 'load r1 r0', 'add r1 r2', 'store r0 r1', 'stabilise r3', 'jump @1']
container = [{ name = 'box', pages = 1, program = 'count' }]
locus = [{ name = 'counter', host = 'box', caps = ['atlas t'] }]
";

fn script_of(alloc: Global) -> Result<Script, Fail>
    ensures rules { IfOk result (λ script. IsScript (tables_of script)) }
    ensures frames { IfOk result (λ script. (1 ≤ script.frames) × (script.frames ≤ 256)) }
{
    let read = read_script(alloc, COUNTER.as_bytes())?;
    Ok(read.script)
}

// A new image.
fn new_image(alloc: Global) -> Result<MemoryDisk, Fail> {
    let disk = format(MemoryDisk::new(alloc, 2600, 400, Vec::new(alloc))?, 2600);
    let disk = disk.ok().ok_or("an image")?;
    Ok(disk)
}

// What is found of the counter that has looked so often, on a new image, so many writes and syncs behind its opening.
fn found(alloc: Global, looks: usize, after: u64) -> Result<Found, Fail> {
    let script = script_of(alloc)?;
    let disk = new_image(alloc)?;
    let turns = vec![in alloc; Entity::of(41); looks]?;
    let found = keep_and_stop(alloc, &script, disk, &turns, after, Torn::Old);
    let found = found.ok().ok_or("a machine")?;
    Ok(found)
}

// How many steps stand in the history of the counter that was looked at so often, and then to its end.
fn steps_to_end(alloc: Global, looks: usize) -> Result<usize, Fail> {
    let script = script_of(alloc)?;
    let disk = new_image(alloc)?;
    let turns = vec![in alloc; Entity::of(41); looks]?;
    match open_objects(alloc, &script, disk) {
        Ok(mut kernel) => {
            run_to_end(&mut kernel, &turns, &Gate::new(CountedWords, EveryVersions));
            let history = kernel.history();
            Ok(
                history
                    .iter()
                    .filter(|entry| entry.event == Event::Step)
                    .count(),
            )
        }
        Err(_) => Err(Fail::from("a kernel")),
    }
}

// How many containers there are, and the word at address 0 of the first, where it was stored to.
fn count_of(found: &Found) -> Result<(usize, u64), Fail> {
    let facts = found.facts.as_ref().ok().ok_or("an image")?;
    let containers = &facts.state.containers;
    let count = match containers.first() {
        Some(container) => container.words.get(&0).copied().unwrap_or(0),
        None => 0,
    };
    Ok((containers.len(), count))
}

#[test]
fn a_counter_is_found_behind_a_stop(rt: HostRuntime) -> Result<(), Fail> {
    let alloc = rt.alloc();
    // The sync of the opening has ended, and nobody is born.
    let first = found(alloc, 10, 1)?;
    assert!(rt; count_of(&first)? == (0, 0));
    // Five looks end with the first Stable, five more with the second.
    let last = found(alloc, 5, 1_000_000)?;
    assert!(rt; count_of(&last)? == (1, 1));
    let more = found(alloc, 10, 1_000_000)?;
    assert!(rt; count_of(&more)? == (1, 2));
    Ok(())
}

#[test]
fn a_counter_runs_to_its_end(rt: HostRuntime) -> Result<(), Fail> {
    let alloc = rt.alloc();
    // It never stops, so it makes the twenty steps that it may, whatever the looks before.
    assert!(rt; steps_to_end(alloc, 0)? == 20);
    assert!(rt; steps_to_end(alloc, 7)? == 20);
    Ok(())
}
