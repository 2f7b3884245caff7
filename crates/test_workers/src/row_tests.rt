//! Runs on threads of scripts whose output, or what their image shows, doesn't hang on the order of looks; and words that are none.
use command_outcomes::Outcome;
use edge_disk::MemoryDisk;
use std::alloc::Global;
use std::sync::Wait;
use std::test::Fail;
use std::thread::Threads;
use test_system::{OpenGate, formatted, put_on_threads, scripts, shown, small};

// Two loci, each of which prints a number of its own.
const TWO: &[u8] = b"program.p = ['set r0 5', 'print r0', 'halt']
program.q = ['set r0 6', 'print r0', 'halt']
container = [{ name = 'a', pages = 1, program = 'p' }, { name = 'b', pages = 1, program = 'q' }]
locus = [{ name = 'l', host = 'a' }, { name = 'm', host = 'b' }]
";

// Words that begin with `run` and are no command.
const NO_COMMANDS: &[&[&str]] = &[
    &["run", "--workers", "0"],
    &["run", "--workers", "17"],
    &["run", "--workers"],
    &["run", "--workers", "2", "--workers", "2"],
    &["run", "--trace", "--trace"],
];

// What a run by so many workers puts, and what it leaves.
fn run_by<R: Threads + Wait + Sync + Alloc<A = Global>>(
    rt: &R,
    workers: &str,
    script: &[u8],
    disk: MemoryDisk,
) -> Result<(String, Outcome<MemoryDisk>), Fail> {
    let words = ["run", "--workers", workers];
    put_on_threads(rt, rt.alloc(), &words, script, &[], disk, &OpenGate)
}

#[test]
fn two_loci_print_in_either_order(rt: HostRuntime) -> Result<(), Fail> {
    let (lines, outcome) = run_by(&rt, "2", TWO, formatted(rt.alloc(), &[])?)?;
    assert!(rt; outcome.status.number() == 0);
    assert!(rt;
        lines.as_str() == "l 5\nm 6\n" || lines.as_str() == "m 6\nl 5\n",
        "{lines}"
    );
    Ok(())
}

#[test]
fn a_stable_is_the_same_by_three_workers(rt: HostRuntime) -> Result<(), Fail> {
    let (lines, outcome) = run_by(&rt, "3", scripts::COUNTS_ON, formatted(rt.alloc(), &[])?)?;
    assert!(rt; outcome.status.number() == 0 && lines.is_empty());
    assert!(rt; shown(rt.alloc(), outcome.disk)?.as_str() == scripts::STABLE);
    Ok(())
}

#[test]
fn too_few_blocks_are_told_with_both_numbers(rt: HostRuntime) -> Result<(), Fail> {
    let script = scripts::all_pages_by(rt.alloc(), b"1")?;
    let (lines, outcome) = run_by(&rt, "2", &script, small(rt.alloc(), &[])?)?;
    assert!(rt;
        outcome.status.number() == 9 && lines.as_str() == "fault 9 1 0\n",
        "{lines}"
    );
    assert!(rt; shown(rt.alloc(), outcome.disk)?.as_str() == scripts::ALL_PAGES_BORN);
    Ok(())
}

#[test]
fn all_numbers_are_taken_by_three_workers(rt: HostRuntime) -> Result<(), Fail> {
    let script = scripts::SPAWNS_TO_THE_LAST;
    let (lines, outcome) = run_by(&rt, "3", script, formatted(rt.alloc(), &[])?)?;
    assert!(rt;
        outcome.status.number() == 0 && lines.as_str() == "l 10\n",
        "{lines}"
    );
    // Of 22 loci that are spawned each makes one step, whoever looks at it.
    assert!(rt; outcome.history.len() == 76);
    Ok(())
}

#[test]
fn other_words_are_refused(rt: HostRuntime) -> Result<(), Fail> {
    for words in NO_COMMANDS {
        let disk = small(rt.alloc(), &[])?;
        let (lines, outcome) = put_on_threads(&rt, rt.alloc(), words, TWO, &[], disk, &OpenGate)?;
        assert!(rt; lines.as_str() == "fault 2 usage\n");
        assert!(rt; outcome.status.number() == 2 && outcome.history.is_empty());
    }
    Ok(())
}
