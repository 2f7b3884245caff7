//! Runs over the cells of kernels that were taken apart.
ghost use Rattle.std.specs.Prelude.{◌≡◌, true, IfOk};
ghost use Rattle.edge_managers.specs.Managers.{counted_word};
ghost use Rattle.kernel_core.specs.Parts.{held_of};
ghost use Rattle.kernel_core.specs.kernel_core_facts.Kernels.{IsKept, StaysClean};
ghost use Rattle.kernel_core.specs.kernel_core_facts.model_births.Fitting.{Fits};
ghost use Rattle.kernel_core.specs.kernel_core_facts.table_births.Births.{atlas_state_in};
ghost use Rattle.script_types.specs.Scripts.{tables_of};
ghost use Rattle.kernel_core.specs.kernel_core_facts.kernel_record_facts.Cells.{words_on};
ghost use Rattle.kernel_core.specs.kernel_core_facts.store_facts.State.{books};
ghost use Rattle.thread_cell_steps.specs.table_laws.Tables.{AreClean, AreFewWrites, IsOrderly};

use crate::images::advance_over_image;
use base_types::{Answer, Entity, Reply};
use edge_disk::{Disk, DiskFault, MemoryDisk};
use edge_managers::{CountedWords, EveryVersions, Gate};
use image_format::format;
use kernel_core::{Apart, Kernel, Store};
use open_kernel::open_image;
use script_fits::against;
use script_reading::read_script;
use script_types::Script;
use std::alloc::Global;
use std::test::Fail;
use thread_cell_steps::{Cell, Idle, StepFault};

/// Whether a script fits the names that are born.
fn is_fit<D: Disk>(alloc: Global, kernel: &Kernel<D>, script: &Script) -> bool
    ensures { result ≡ true → Fits (atlas_state_in kernel.now.parts.cells) (tables_of script.now) }
{
    !kernel.cells().is_empty() && against(alloc, script, kernel.atlas()).is_ok()
}

/// The parts of a kernel over an image of 4,096 blocks, behind the births of a script.
fn born<D: Disk + Drop>(alloc: Global, disk: D, text: &str) -> Result<Apart<D>, Fail>
    ensures lawful { IfOk result (λ parts. IsKept D.Disk (held_of parts.store parts.cells.items parts.notes parts.stopped)) }
    ensures clean { IfOk result (λ parts. StaysClean D.Disk counted_word (held_of parts.store parts.cells.items parts.notes parts.stopped)) }
{
    let script = read_script(alloc, text.as_bytes())?.script;
    let (frames, steps) = (script.frames, script.steps);
    if frames == 0 || frames > 256 || steps > 40_000 {
        return Err(Fail::from("an allowed script"));
    }
    let Ok(disk) = format(disk, 4096) else {
        return Err(DiskFault.into());
    };
    let Ok(mut kernel) = open_image(alloc, disk, frames, steps) else {
        return Err(Fail::from("an image"));
    };
    if !is_fit(alloc, &kernel, &script) || kernel.births(&script).is_err() {
        return Err(Fail::from("births"));
    }
    Ok(kernel.apart())
}

/// Whether each version may rise.
fn may_rise(cells: &[Cell]) -> bool
    ensures { result ≡ true → AreFewWrites cells.now }
{
    cells.iter().all(|cell| cell.clock.version < 1 << 63)
}

/// What one step of locus 41 answers, or why it makes none; no reason where versions are too high.
fn step<D: Disk>(cells: &mut [Cell], store: &mut Store<D>) -> Result<Answer, Option<StepFault>>
    requires orderly { IsOrderly (books store.old).held cells.old }
    requires clean { D.tells → AreClean counted_word (words_on (D.reading store.old.disk)) cells.old }
    ensures orderly { IsOrderly (books store.new).held cells.new }
    ensures clean { D.tells → IfOk result (λ _. AreClean counted_word (words_on (D.reading store.new.disk)) cells.new) }
{
    if !may_rise(cells) {
        return Err(None);
    }
    let gate = Gate::new(CountedWords, EveryVersions);
    match advance_over_image(cells, Entity::of(41), store, &gate) {
        Ok(made) => Ok(made.entry.answer),
        Err(why) => Err(Some(why)),
    }
}

/// What at most so many steps answer, and why no other was made.
fn steps<D: Disk>(
    alloc: Global,
    cells: &mut [Cell],
    store: &mut Store<D>,
    most: usize,
) -> Result<(Vec<Answer>, Option<StepFault>), Fail>
    requires orderly { IsOrderly (books store.old).held cells.old }
    requires clean { D.tells → AreClean counted_word (words_on (D.reading store.old.disk)) cells.old }
{
    let mut answers = Vec::new(alloc);
    for _ in 0..most {
        match step(cells, store) {
            Ok(answer) => answers.push(answer)?,
            Err(why) => return Ok((answers, why)),
        }
    }
    Ok((answers, None))
}

/// The same over the parts of a kernel behind the births of a script.
fn answers(
    alloc: Global,
    text: &str,
    most: usize,
) -> Result<(Vec<Answer>, Option<StepFault>), Fail> {
    let disk = MemoryDisk::new(alloc, 4096, 1000, Vec::new(alloc))?;
    let parts = born(alloc, disk, text)?;
    if parts.stopped.is_some() {
        return Err(Fail::from("a kernel that goes on"));
    }
    let Apart {
        mut cells,
        mut store,
        ..
    } = parts;
    steps(alloc, &mut cells, &mut store, most)
}

#[test]
fn a_word_is_stored_loaded_and_printed(rt: HostRuntime) -> Result<(), Fail> {
    let text = "program.p = ['set r0 5', 'store r1 r0', 'load r2 r1', 'print r2', 'halt']
container = [{ name = 'a', pages = 1, program = 'p' }]
locus = [{ name = 'l', host = 'a' }]
";
    let (answers, why) = answers(rt.alloc(), text, 9)?;
    let told = [
        Answer::Quiet,
        Answer::Reply(Reply::Ok),
        Answer::Read(5),
        Answer::Print(5),
        Answer::Quiet,
    ];
    assert!(rt; answers.as_slice() == told.as_slice());
    assert!(rt; why == Some(StepFault::Idle(Idle::Halted)));
    Ok(())
}

#[test]
fn loci_are_spawned_until_no_number_is_free(rt: HostRuntime) -> Result<(), Fail> {
    let text = "steps = 100
program.p = ['spawn r1 @5', 'jz r7 @0', 'print r7', 'halt', 'halt', 'halt']
container = [{ name = 'a', pages = 1, program = 'p' }]
locus = [{ name = 'l', host = 'a' }]
";
    let (answers, why) = answers(rt.alloc(), text, 100)?;
    // 22 loci are spawned beside the first, and for the next one no number is free.
    assert!(rt; answers.len() == 2 * 23 + 2);
    assert!(rt;
        answers[42] == Answer::Reply(Reply::Ok) && answers[44] == Answer::Reply(Reply::NoNumber)
    );
    assert!(rt; answers[46] == Answer::Print(10));
    assert!(rt; why == Some(StepFault::Idle(Idle::Halted)));
    Ok(())
}
