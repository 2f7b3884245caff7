//! Images that runs leave.
ghost use Rattle.std.specs.Prelude.{◌≡◌, IfOk};

use crate::scripts::{
    ALL_PAGES_BORN, ALWAYS_STABLE, BORN, BORN_WISHED, COUNTS_ON, FIVE, PRINTED_ONCE, PRINTS_TWICE,
    STABILISES, STABLE, STOPPED, STOPPED_AND_STABLE, WISHED, WISHED_BY_TWO, WISHED_BY_TWO_KEPT,
    WISHES, WISHES_KEPT, all_pages_by,
};
use crate::{FORMAT_CALLS, copy_of, formatted_with, put, run, shown, small};
use base_types::{Entity, Event, Touch, Touched};
use command_outcomes::Status;
use std::test::Fail;

#[test]
fn a_state_is_shown_as_it_was_made_stable(rt: HostRuntime) -> Result<(), Fail> {
    let alloc = rt.alloc();
    // What no snapshot holds is gone, and a record that needs one of another entity is not taken without it.
    let runs = [
        (STABILISES, STABLE),
        (COUNTS_ON, STABLE),
        (WISHED, BORN_WISHED),
        (WISHES, WISHES_KEPT),
        (STOPPED_AND_STABLE, STOPPED),
    ];
    for &(script, kept) in &runs {
        let (lines, outcome) = run(alloc, script)?;
        assert!(rt; lines.as_str() == "");
        assert!(rt; matches!(outcome.status, Status::Done));
        assert!(rt; shown(alloc, outcome.disk)?.as_str() == kept);
    }
    Ok(())
}

// What was not made stable is done again. The lines of two runs in a row, and what the image shows between them.
const TWICE: &[(&[u8], &str, &str, &str)] = &[
    (FIVE, "l 5\n", BORN, "l 5\n"),
    (PRINTS_TWICE, "l 5\nl 5\n", PRINTED_ONCE, "l 5\n"),
];

#[test]
fn runs_go_on_from_the_image(rt: HostRuntime) -> Result<(), Fail> {
    let alloc = rt.alloc();
    for &(script, lines, kept, again) in TWICE {
        let (first, outcome) = run(alloc, script)?;
        assert!(rt; first.as_str() == lines);
        assert!(rt; shown(alloc, copy_of(&outcome.disk)?)?.as_str() == kept);
        let (second, outcome) = put(alloc, &["run"], script, outcome.disk)?;
        assert!(rt; second.as_str() == again);
        assert!(rt; outcome.status.number() == 0);
    }
    Ok(())
}

fn write(number: u8, version: u64) -> Result<Touch, Fail>
    ensures { IfOk result (λ touch. touch.entity ≡ number) }
{
    Ok(Touch {
        version,
        entity: Entity::new(number).ok_or("an entity")?,
        wrote: true,
    })
}

#[test]
fn an_abandoned_record_is_not_taken(rt: HostRuntime) -> Result<(), Fail> {
    let alloc = rt.alloc();
    let (_, outcome) = run(alloc, WISHED)?;
    let (lines, outcome) = put(alloc, &["run"], WISHED_BY_TWO, outcome.disk)?;
    assert!(rt; lines.as_str() == "");
    let birth = outcome.history.first().ok_or("a birth")?;
    let touched = Touched::three(write(0, 3)?, write(1, 3)?, write(42, 1)?);
    assert!(rt; birth.event == Event::Birth);
    assert!(rt; birth.touched == touched);
    assert!(rt; shown(alloc, outcome.disk)?.as_str() == WISHED_BY_TWO_KEPT);
    Ok(())
}

#[test]
fn a_report_tells_the_log_and_the_cut(rt: HostRuntime) -> Result<(), Fail> {
    let alloc = rt.alloc();
    let (_, outcome) = run(alloc, FIVE)?;
    let (text, outcome) = put(alloc, &["report"], b"", outcome.disk)?;
    let report = "area B epoch 2 used 3
rec 0 0 2 chosen
rec 1 1 2 chosen
rec 2 41 1 chosen
cut 0 2
cut 1 2
cut 41 1
";
    assert!(rt; text.as_str() == report);
    assert!(rt; matches!(outcome.status, Status::Done));
    Ok(())
}

#[test]
fn a_full_log_is_turned(rt: HostRuntime) -> Result<(), Fail> {
    let alloc = rt.alloc();
    let disk = formatted_with(alloc, 4096, 6000)?;
    let (_, outcome) = put(alloc, &["run"], ALWAYS_STABLE, disk)?;
    assert!(rt; outcome.marks.len() == 701);
    let (text, _) = put(alloc, &["report"], b"", outcome.disk)?;
    let front = "area A epoch 3 used 66
rec 0 0 2 chosen
rec 1 1 2 chosen
rec 2 41 1274 earlier
";
    let rest = "rec 65 41 1400 chosen
cut 0 2
cut 1 2
cut 41 1400
";
    assert!(rt; text.as_bytes().starts_with(front.as_bytes()));
    assert!(rt; text.as_bytes().ends_with(rest.as_bytes()));
    Ok(())
}

#[test]
fn too_few_blocks_stop_a_run_and_keep_its_births(rt: HostRuntime) -> Result<(), Fail> {
    let alloc = rt.alloc();
    // With 35 blocks for pages and records, and one page in memory.
    let disk = small(alloc, &[])?;
    let (lines, outcome) = put(alloc, &["run"], &all_pages_by(alloc, b"1")?, disk)?;
    assert!(rt; lines.as_str() == "fault 9 1 0\n");
    assert!(rt; outcome.status.number() == 9);
    assert!(rt; shown(alloc, outcome.disk)?.as_str() == ALL_PAGES_BORN);
    Ok(())
}

#[test]
fn an_image_that_is_made_anew_is_empty(rt: HostRuntime) -> Result<(), Fail> {
    let alloc = rt.alloc();
    let (_, outcome) = run(alloc, STABILISES)?;
    let before = outcome.disk.moments();
    let (lines, outcome) = put(alloc, &["format", "4096"], b"", outcome.disk)?;
    assert!(rt; lines.as_str() == "");
    assert!(rt; outcome.disk.moments() == before.saturating_add(FORMAT_CALLS));
    assert!(rt; shown(alloc, outcome.disk)?.as_str() == "");
    Ok(())
}
