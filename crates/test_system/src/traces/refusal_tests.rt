//! Sources of which no trace is checked.
use crate::scripts::FIVE;
use crate::tracing::{checked, told};
use crate::{formatted, run};
use std::alloc::Global;
use std::test::Fail;

// So many line feeds, and what follows them.
fn blanks_before(alloc: Global, count: usize, text: &[u8]) -> Result<Vec<u8>, Fail> {
    let mut bytes = Vec::new(alloc);
    bytes.resize(count, b'\n')?;
    bytes.extend_from_slice(text)?;
    Ok(bytes)
}

#[test]
fn a_source_has_a_script_that_ends_with_a_rule(rt: HostRuntime) -> Result<(), Fail> {
    let alloc = rt.alloc();
    let sources: [(usize, &[u8], &str); 9] = [
        (0, b"", "fault 3 2 ---\n"),
        (0, FIVE, "fault 3 2 ---\n"),
        (0, b"steps = 0\n----\n", "fault 3 2 ---\n"),
        (0, b"steps = 0\n---\n", "fault 3 6 steps\n"),
        (0, b"steps = 1\n---\n", "ok 0\n"),
        // The script's part may have as many bytes as a script of its own.
        (1_048_576, b"---\n", "ok 0\n"),
        (1_048_577, b"---\n", "fault 3 9 -\n"),
        // A source is too long for a script without a rule, and not for a trace.
        (1_048_577, b"", "fault 3 2 ---\n"),
        (0, b"---\nsteps = 0\n---\n", "fault 10 1 want none\n"),
    ];
    for &(count, text, wanted) in &sources {
        let source = blanks_before(alloc, count, text)?;
        let (line, _) = told(alloc, &source, formatted(alloc, &[])?)?;
        assert!(rt; line.as_str() == wanted, "behind {count}");
    }
    Ok(())
}

#[test]
fn a_script_that_does_not_fit_the_image_has_no_trace(rt: HostRuntime) -> Result<(), Fail> {
    let alloc = rt.alloc();
    let (_, outcome) = run(alloc, FIVE)?;
    let clash = b"container = [{ name = 'x', pages = 1 }]
locus = [{ name = 'a', host = 'x' }]
";
    let line = checked(alloc, clash, "", outcome.disk)?;
    assert!(rt; line.as_str() == "fault 3 11 locus.0.name\n", "{line}");
    Ok(())
}
