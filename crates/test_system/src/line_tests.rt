//! The line of each fault.
use command_outcomes::{Fault, put_fault};
use edge_disk::NoBlocks;
use edge_streams::{MemorySink, SinkFault};
use script_types::{Refusal, Why};
use std::alloc::{AllocError, Global};
use std::test::Fail;

fn refused(alloc: Global, why: Why, key: &str) -> Result<Fault, AllocError> {
    Ok(Fault::Script(Refusal {
        why,
        key: String::from_str(alloc, key)?,
    }))
}

#[test]
fn each_fault_has_its_last_line(rt: HostRuntime) -> Result<(), Fail> {
    let alloc = rt.alloc();
    let faults = [
        (Fault::Usage, "fault 2 usage\n"),
        (
            refused(alloc, Why::BadCode, "program.p.0")?,
            "fault 3 8 program.p.0\n",
        ),
        (refused(alloc, Why::Long, "-")?, "fault 3 9 -\n"),
        (
            refused(alloc, Why::Clash, "locus.0.name")?,
            "fault 3 11 locus.0.name\n",
        ),
        (
            Fault::Foreign {
                block: 1285,
                place: 0,
            },
            "fault 4 1285 0\n",
        ),
        (Fault::DiskFault, "fault 5 disk\n"),
        (Fault::Source, "fault 6 source\n"),
        (Fault::Memory, "fault 8 memory\n"),
        (
            Fault::NoBlocks(NoBlocks {
                need: u32::MAX,
                free: 1281,
            }),
            "fault 9 4294967295 1281\n",
        ),
    ];
    for (fault, line) in &faults {
        let mut sink = MemorySink::new(alloc, 100, Vec::new(alloc))?;
        assert!(rt; put_fault(&mut sink, fault) == Ok(()));
        assert!(rt; sink.held() == line.as_bytes());
    }
    Ok(())
}

#[test]
fn a_sink_with_no_room_for_the_key_holds_a_front_of_the_line(rt: HostRuntime) -> Result<(), Fail> {
    let alloc = rt.alloc();
    let fault = refused(alloc, Why::BadCode, "program.p.0")?;
    let mut sink = MemorySink::new(alloc, 12, Vec::new(alloc))?;
    assert!(rt; put_fault(&mut sink, &fault) == Err(SinkFault));
    assert!(rt; sink.held() == b"fault 3 8 ".as_slice());
    Ok(())
}
