//! A counter by workers on threads, that is stopped at its return, and whose trace is checked.
use edge_disk::Torn;
use std::test::Fail;
use test_system::{run_on_threads_and_stop, scripts, trace_on_threads_and_check};

#[test]
fn a_counter_that_was_made_stable_is_shown(rt: HostRuntime) -> Result<(), Fail> {
    let alloc = rt.alloc();
    let torn = Torn::Fill(7);
    let shown = run_on_threads_and_stop(&rt, alloc, "2", scripts::COUNT, u64::MAX, torn)?;
    assert!(rt;
        (
            shown.formatted.number(),
            shown.ran.number(),
            shown.shown.number()
        ) == (0, 0, 0)
    );
    assert!(rt; shown.lines.as_slice() == b"counter 1\n".as_slice());
    let text = std::str::from_utf8(&shown.text).ok().ok_or("text")?;
    assert!(rt; text == scripts::COUNTED);
    Ok(())
}

#[test]
fn its_own_trace_is_accepted(rt: HostRuntime) -> Result<(), Fail> {
    let checked = trace_on_threads_and_check(&rt, rt.alloc(), "3", scripts::COUNT)?;
    assert!(rt; checked.formatted.number() == 0 && checked.ran.number() == 0);
    assert!(rt; checked.formatted_again.number() == 0 && checked.checked.number() == 0);
    assert!(rt; checked.verdict.as_slice() == b"ok 10\n".as_slice());
    Ok(())
}
