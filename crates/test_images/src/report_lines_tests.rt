//! A report of three records, as a sink in memory holds it.
use base_types::{Cut, Entity, Rec};
use edge_streams::MemorySink;
use image_blocks::Area;
use line_report::{LogFacts, put_report};
use std::test::Fail;

fn record(entity: Entity, version: u64) -> Rec {
    Rec {
        entity,
        version,
        stamp: [0; 64],
        length: 9,
        blocks: [0; 8],
    }
}

#[test]
fn a_log_of_three_records(rt: HostRuntime) -> Result<(), Fail> {
    let locus = Entity::of(41);
    let recs = [
        record(Entity::ATLAS, 2),
        record(locus, 1274),
        record(locus, 1401),
    ];
    let mut cut = Cut([0; 64]);
    cut.0[0] = 2;
    cut.0[41] = 1400;
    let facts = LogFacts {
        area: Area::B,
        epoch: 3,
        recs: &recs,
        cut,
    };
    let mut sink = MemorySink::new(rt.alloc(), 1000, Vec::new(rt.alloc()))?;
    put_report(&mut sink, &facts)?;
    let text =
        b"area B epoch 3 used 3\nrec 0 0 2 chosen\nrec 1 41 1274 earlier\nrec 2 41 1401 later\ncut 0 2\ncut 41 1400\n";
    assert!(rt; sink.held() == text.as_slice());
    Ok(())
}
