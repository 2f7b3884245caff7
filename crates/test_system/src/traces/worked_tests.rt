//! Worked runs, told entry by entry, and what their images show.
use crate::scripts::{
    BORN_WISHED, DENIED_OVER_A_MAPPING, FIVE, LOADS, STABILISES, STABLE, STORES_ON, WISHED,
    WISHED_BY_TWO, WISHED_BY_TWO_KEPT, WISHES, WISHES_KEPT,
};
use crate::traces::worked::{
    DENIED_TRACE, FIVE_TRACE, LOADS_TRACE, STABILISES_TRACE, STORES_ON_TRACE, WISHED_BY_TWO_TRACE,
    WISHED_TRACE, WISHES_TRACE,
};
use crate::tracing::traced;
use crate::{formatted, put};
use edge_disk::MemoryDisk;
use std::alloc::Global;
use std::test::Fail;

// A script, the trace of its run, and what the image shows then.
type Worked = (&'static [u8], &'static str, &'static str);

const BORN: &str = "container a 1 0 0 -
locus l a 0 running 0 0 0 0 0 0 0 0 0
";

const BORN_MAPPED: &str = "container c 1 0 0 -
container b 1 0 0 -
region b 0 c 0 1 r
container a 1 0 0 -
region a 0 b 0 1 rw
locus l a 0 running 0 0 0 0 0 0 0 0 0
";

const LOADED: &str = "container a 1 0 0 -
locus l a 2 running 2 0 0 0 0 0 0 0 0
";

// Makes the run on this disk: what isn't as it was worked out, and the disk.
fn wrong(
    alloc: Global,
    worked: Worked,
    disk: MemoryDisk,
) -> Result<(&'static str, MemoryDisk), Fail> {
    let (script, trace, text) = worked;
    let (told, outcome) = traced(alloc, script, disk)?;
    let (shown, reading) = put(alloc, &["show"], b"", outcome.disk)?;
    let fault = if outcome.status.number() != 0 || reading.status.number() != 0 {
        "the status"
    } else if told.as_str() != trace {
        "the trace"
    } else if shown.as_str() != text {
        "what is shown"
    } else {
        ""
    };
    Ok((fault, reading.disk))
}

#[test]
fn a_traced_run_tells_each_entry(rt: HostRuntime) -> Result<(), Fail> {
    let alloc = rt.alloc();
    let runs: [Worked; 7] = [
        (FIVE, FIVE_TRACE, BORN),
        (DENIED_OVER_A_MAPPING, DENIED_TRACE, BORN_MAPPED),
        (WISHED, WISHED_TRACE, BORN_WISHED),
        (WISHES, WISHES_TRACE, WISHES_KEPT),
        (LOADS, LOADS_TRACE, LOADED),
        (STORES_ON, STORES_ON_TRACE, BORN_WISHED),
        (STABILISES, STABILISES_TRACE, STABLE),
    ];
    for &worked in &runs {
        let (fault, _) = wrong(alloc, worked, formatted(alloc, &[])?)?;
        assert!(rt; fault == "", "of {}", worked.1);
    }
    Ok(())
}

#[test]
fn a_second_run_tells_its_own_entries_alone(rt: HostRuntime) -> Result<(), Fail> {
    let alloc = rt.alloc();
    let mut disk = formatted(alloc, &[])?;
    let runs: [Worked; 2] = [
        (WISHED, WISHED_TRACE, BORN_WISHED),
        (WISHED_BY_TWO, WISHED_BY_TWO_TRACE, WISHED_BY_TWO_KEPT),
    ];
    for &worked in &runs {
        let (fault, left) = wrong(alloc, worked, disk)?;
        assert!(rt; fault == "", "of {}", worked.1);
        disk = left;
    }
    Ok(())
}
