//! Runs by two workers that are stopped at each moment: what the image means then holds all that was acknowledged.
use crate::fault_tests::TWO;
use crate::gates::Crowd;
use script_reading::read_script;
use std::test::Fail;
use test_replays::{are_rising, commits_of, fronts_from};
use test_system::{FORMAT_CALLS, formatted, put_on_threads, scripts, wrong_stop};

#[test]
fn each_stop_leaves_what_was_acknowledged(rt: HostRuntime) -> Result<(), Fail> {
    let alloc = rt.alloc();
    let words = ["run", "--workers", "2"];
    for text in [scripts::WISHES, scripts::COUNTS_ON, TWO] {
        let script = read_script(alloc, text)?.script;
        let disk = formatted(alloc, &[])?;
        let (_, outcome) = put_on_threads(&rt, alloc, &words, text, &[], disk, &Crowd)?;
        assert!(rt; outcome.status.number() == 0);
        let end = outcome.disk.moments().saturating_sub(FORMAT_CALLS);
        assert!(rt; are_rising(&outcome.marks, end));
        let commits = commits_of(alloc, &outcome.history)?;
        let fronts = fronts_from(alloc, &script, &outcome.history, &commits.recs, 0)?;
        let wrong = wrong_stop(alloc, &outcome, &commits, &fronts)?;
        assert!(rt; wrong.is_none(), "{wrong:?}");
    }
    Ok(())
}
