//! Drawn runs by threads.
use crate::again::worked;
use crate::cases::Case;
use crate::kinds::Kinds;
use crate::workers::Work;
use std::test::Fail;
use test_draws::drawn;
use thread_workers::OpenGate;

#[test]
fn drawn_runs_by_threads_are_serial(rt: HostRuntime) -> Result<(), Fail> {
    let alloc = rt.alloc();
    for number in 1..=2 {
        let text = drawn(alloc, number)?;
        // one page of each container in memory at most
        let text = format!(in alloc; "frames = 1\n{text}")?;
        let case = Case::read(alloc, text.as_bytes(), 3000)?;
        for workers in [2_usize, 4, 16] {
            let left = worked(&rt, alloc, &case, &[], &OpenGate, Work::of(workers, 30))?;
            assert!(&rt; left.ended.stopped.is_none());
            assert!(&rt;
                Kinds::of(&left.ended.history).alone > 0,
                "{number} {workers}"
            );
        }
    }
    Ok(())
}
