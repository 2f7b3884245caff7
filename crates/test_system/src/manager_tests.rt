//! Managers that a script brings.
use crate::scripts::{
    BORN_WISHED_BY_PROGRAM, NEVER_HALTS, PAGE_AND_PLACE, PRINTS, WISHED, WISHED_BY_PROGRAM,
};
use crate::{put, run, shown};
use command_outcomes::Status;
use std::test::Fail;

#[test]
fn a_program_makes_the_words_of_its_tag(rt: HostRuntime) -> Result<(), Fail> {
    let runs: [(&[u8], &str); 3] = [
        (PAGE_AND_PLACE, "l 3\n"),
        (NEVER_HALTS, "l 0\n"),
        (PRINTS, "fault 3 8 supply.0\n"),
    ];
    for &(script, lines) in &runs {
        let (text, _) = run(rt.alloc(), script)?;
        assert!(rt; text.as_str() == lines);
    }
    Ok(())
}

#[test]
fn a_program_says_when_a_snapshot_is_wished(rt: HostRuntime) -> Result<(), Fail> {
    let alloc = rt.alloc();
    let (_, by_program) = run(alloc, WISHED_BY_PROGRAM)?;
    let (_, by_number) = run(alloc, WISHED)?;
    assert!(rt; matches!(by_program.status, Status::Done));
    assert!(rt; by_program.history.as_slice() == by_number.history.as_slice());
    assert!(rt; shown(alloc, by_program.disk)?.as_str() == BORN_WISHED_BY_PROGRAM);
    Ok(())
}

// A word that no run stored is made anew by each run's own supplier.
#[test]
fn an_image_keeps_no_managers(rt: HostRuntime) -> Result<(), Fail> {
    let alloc = rt.alloc();
    let (_, outcome) = run(alloc, NEVER_HALTS)?;
    let (text, outcome) = put(alloc, &["run"], PAGE_AND_PLACE, outcome.disk)?;
    assert!(rt; text.as_str() == "l 3\n");
    let (text, _) = put(alloc, &["show"], b"", outcome.disk)?;
    assert!(rt; text.as_str() == "container a 2 7 0 -\nlocus l a 0 running 0 0 0 0 0 0 0 0 0\n");
    Ok(())
}
