//! Sources and sinks that fail.
use crate::scripts::{FIVE, PAST_THE_PAGE};
use crate::{formatted, put_failing};
use command_outcomes::Status;
use std::test::Fail;

#[test]
fn a_source_that_fails_gives_its_own_status(rt: HostRuntime) -> Result<(), Fail> {
    let alloc = rt.alloc();
    // The first take fails, and then the one that would tell the end.
    for &take in &[1, 2] {
        let disk = formatted(alloc, &[])?;
        let (lines, outcome) = put_failing(alloc, &["run"], FIVE, (&[take], &[]), disk)?;
        assert!(rt; lines.as_str() == "fault 6 source\n");
        assert!(rt; matches!(outcome.status, Status::SourceFault));
        assert!(rt; outcome.history.is_empty());
    }
    Ok(())
}

#[test]
fn a_sink_that_fails_holds_a_front_of_the_lines(rt: HostRuntime) -> Result<(), Fail> {
    let alloc = rt.alloc();
    for &(put, held) in &[(1, ""), (2, "l 3\n")] {
        let disk = formatted(alloc, &[])?;
        let (lines, outcome) = put_failing(alloc, &["run"], PAST_THE_PAGE, (&[], &[put]), disk)?;
        assert!(rt; lines.as_str() == held);
        assert!(rt; matches!(outcome.status, Status::SinkFault));
        assert!(rt; outcome.history.len() == 10);
    }
    Ok(())
}

#[test]
fn a_sink_that_fails_at_the_last_line_changes_no_status(rt: HostRuntime) -> Result<(), Fail> {
    let alloc = rt.alloc();
    let disk = formatted(alloc, &[])?;
    let (lines, outcome) = put_failing(alloc, &[], FIVE, (&[], &[1]), disk)?;
    assert!(rt; lines.is_empty());
    assert!(rt; matches!(outcome.status, Status::Usage));
    Ok(())
}
