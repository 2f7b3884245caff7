//! Words and scripts that are refused.
use crate::scripts::FIVE;
use crate::{disk_of, formatted, put, run};
use command_outcomes::Status;
use edge_disk::Disk;
use std::test::Fail;

// Lists of words that are no command.
const OTHERS: &[&[&str]] = &[
    &["run", "run"],
    &[],
    &["walk"],
    &["Run"],
    &["run "],
    &["run", "--trace", "--trace"],
    &["format"],
    &["show", "--"],
    &["report", "report"],
    &["format", "4096", "run"],
    &["run", "show"],
];

#[test]
fn other_words_are_refused(rt: HostRuntime) -> Result<(), Fail> {
    let alloc = rt.alloc();
    for &words in OTHERS {
        let (lines, outcome) = put(alloc, words, FIVE, formatted(alloc, &[])?)?;
        assert!(rt; lines.as_str() == "fault 2 usage\n");
        assert!(rt; matches!(outcome.status, Status::Usage));
        assert!(rt; outcome.history.is_empty());
    }
    Ok(())
}

#[test]
fn a_refused_source_is_told_by_its_key(rt: HostRuntime) -> Result<(), Fail> {
    let (lines, outcome) = run(rt.alloc(), b"steps = 0")?;
    assert!(rt; lines.as_str() == "fault 3 6 steps\n");
    assert!(rt; matches!(outcome.status, Status::Script(_)));
    assert!(rt; outcome.history.is_empty());
    Ok(())
}

#[test]
fn a_source_past_a_mebibyte_is_too_long(rt: HostRuntime) -> Result<(), Fail> {
    let alloc = rt.alloc();
    for &(len, line, status) in &[(1_048_576, "", 0), (1_048_577, "fault 3 9 -\n", 3)] {
        let mut bytes = Vec::new(alloc);
        bytes.resize(len, b'\n')?;
        let (lines, outcome) = run(alloc, &bytes)?;
        assert!(rt; lines.as_str() == line);
        assert!(rt; outcome.status.number() == status);
    }
    Ok(())
}

#[test]
fn a_script_that_does_not_fit_the_image_is_refused(rt: HostRuntime) -> Result<(), Fail> {
    let alloc = rt.alloc();
    let (_, outcome) = run(alloc, FIVE)?;
    let clash = b"container = [{ name = 'x', pages = 1 }]
locus = [{ name = 'a', host = 'x' }]
";
    let (lines, outcome) = put(alloc, &["run"], clash, outcome.disk)?;
    assert!(rt; lines.as_str() == "fault 3 11 locus.0.name\n");
    assert!(rt; outcome.status.number() == 3);
    assert!(rt; outcome.history.is_empty());
    Ok(())
}

#[test]
fn a_forty_first_container_has_no_room(rt: HostRuntime) -> Result<(), Fail> {
    let alloc = rt.alloc();
    let mut script = String::new(alloc);
    for number in 0..40 {
        let table = format!(in alloc; "[[container]]\nname = 'c{number}'\npages = 1\n")?;
        script.push_str(table.as_str())?;
    }
    let (_, outcome) = run(alloc, script.as_bytes())?;
    assert!(rt; outcome.status.number() == 0);
    let one_more = b"container = [{ name = 'x', pages = 1 }]";
    let (lines, outcome) = put(alloc, &["run"], one_more, outcome.disk)?;
    assert!(rt; lines.as_str() == "fault 3 10 container\n");
    assert!(rt; outcome.status.number() == 3);
    Ok(())
}

#[test]
fn a_disk_that_is_too_small_takes_no_image(rt: HostRuntime) -> Result<(), Fail> {
    let alloc = rt.alloc();
    let (lines, outcome) = put(alloc, &["format", "4096"], b"", disk_of(alloc, 3000, &[])?)?;
    assert!(rt; lines.as_str() == "fault 9 4096 3000\n");
    assert!(rt; outcome.status.number() == 9);
    assert!(rt; outcome.disk.calls() == 0);
    Ok(())
}
