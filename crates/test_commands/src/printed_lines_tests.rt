//! Printed values of two loci, and a sink that fails.
use base_types::{Answer, Entity, Entry, Event, Kind, Touched};
use data_atlas::Atlas;
use edge_streams::MemorySink;
use line_runs::put_output;
use std::alloc::Global;
use std::test::Fail;

// Two loci with made names, `#41` and `#42`.
fn atlas() -> Atlas {
    let mut atlas = Atlas::new();
    let _ = atlas.birth(None, Kind::Locus);
    let _ = atlas.birth(None, Kind::Locus);
    atlas
}

fn step(locus: u8, answer: Answer) -> Entry {
    Entry {
        event: Event::Step,
        actor: Entity::new(locus).unwrap_or(Entity::ATLAS),
        touched: Touched::none(),
        version: 0,
        answer,
    }
}

// Puts the lines of three steps, into a sink of which the calls of these numbers fail, and tells whether it took all.
fn put(alloc: Global, fails: &[u64]) -> Result<(bool, MemorySink), Fail> {
    let mut sink = MemorySink::new(alloc, 100, fails.to_vec(alloc)?)?;
    let history = [
        step(42, Answer::Print(5)),
        step(42, Answer::Read(7)),
        step(41, Answer::Print(60)),
    ];
    let done = put_output(&mut sink, &atlas(), &history).is_ok();
    Ok((done, sink))
}

#[test]
fn each_value_has_a_line(rt: HostRuntime) -> Result<(), Fail> {
    let (done, sink) = put(rt.alloc(), &[])?;
    assert!(rt; done && sink.held() == b"#42 5\n#41 60\n".as_slice());
    Ok(())
}

#[test]
fn lines_before_a_fault_stay(rt: HostRuntime) -> Result<(), Fail> {
    let (done, sink) = put(rt.alloc(), &[2])?;
    assert!(rt; !done && sink.held() == b"#42 5\n".as_slice());
    Ok(())
}
