//! A counter that is stopped at its return, and early.
use crate::scripts::{COUNT, COUNTED};
use edge_disk::Torn;
use hopper_clients::run_and_stop;
use std::test::Fail;

#[test]
fn a_counter_that_was_made_stable_is_shown(rt: HostRuntime) -> Result<(), Fail> {
    let shown = run_and_stop(rt.alloc(), COUNT, u64::MAX, Torn::Fill(7))?;
    assert!(rt;
        (
            shown.formatted.number(),
            shown.ran.number(),
            shown.shown.number()
        ) == (0, 0, 0)
    );
    assert!(rt; shown.lines.as_slice() == b"counter 1\n".as_slice());
    assert!(rt; shown.marks.len() == 2);
    let text = std::str::from_utf8(&shown.text).ok().ok_or("text")?;
    assert!(rt; text == COUNTED);
    Ok(())
}

#[test]
fn a_stop_before_the_first_record_leaves_nothing(rt: HostRuntime) -> Result<(), Fail> {
    let shown = run_and_stop(rt.alloc(), COUNT, 1, Torn::Fill(7))?;
    assert!(rt;
        (
            shown.formatted.number(),
            shown.ran.number(),
            shown.shown.number()
        ) == (0, 0, 0)
    );
    assert!(rt; shown.text.is_empty());
    Ok(())
}
