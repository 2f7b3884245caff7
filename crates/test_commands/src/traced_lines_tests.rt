//! A worked trace, and a sink that fails.
ghost use Rattle.std.specs.Prelude.{◌≡◌};

use base_types::{Answer, Entity, Entry, Event, Kind, Reply, Touch, Touched};
use data_atlas::Atlas;
use edge_streams::MemorySink;
use line_runs::put_traced;
use std::alloc::Global;
use std::test::Fail;

// A container `a` and a locus `l`.
fn atlas() -> Atlas {
    let mut atlas = Atlas::new();
    let _ = atlas.birth(Some("a"), Kind::Container);
    let _ = atlas.birth(Some("l"), Kind::Locus);
    atlas
}

fn locus(version: u64) -> Touch
    ensures { result.entity ≡ 41 }
{
    Touch {
        version,
        entity: Entity::of(41),
        wrote: true,
    }
}

fn container(version: u64, wrote: bool) -> Touch
    ensures { result.entity ≡ 1 }
{
    Touch {
        version,
        entity: Entity::of(1),
        wrote,
    }
}

fn step(touched: Touched, answer: Answer) -> Entry {
    Entry {
        event: Event::Step,
        actor: Entity::of(41),
        touched,
        version: 0,
        answer,
    }
}

// Puts the lines of four entries, into a sink of which the calls of these numbers fail, and tells whether it took all.
fn put(alloc: Global, fails: &[u64]) -> Result<(bool, MemorySink), Fail> {
    let mut sink = MemorySink::new(alloc, 200, fails.to_vec(alloc)?)?;
    let stable = Entry {
        event: Event::Stable,
        actor: Entity::ATLAS,
        touched: Touched::none(),
        version: 0,
        answer: Answer::Quiet,
    };
    let history = [
        stable,
        step(
            Touched::two(container(3, true), locus(3)),
            Answer::Reply(Reply::Ok),
        ),
        step(Touched::two(container(3, false), locus(4)), Answer::Read(5)),
        step(Touched::one(locus(5)), Answer::Print(5)),
    ];
    let done = put_traced(&mut sink, &atlas(), &history).is_ok();
    Ok((done, sink))
}

#[test]
fn each_entry_has_a_line(rt: HostRuntime) -> Result<(), Fail> {
    let (done, sink) = put(rt.alloc(), &[])?;
    let text =
        b"stable atlas\nstep l a:3,l:3 reply 0\nstep l a=3,l:4 read 5\nstep l l:5 print 5\n".as_slice();
    assert!(rt; done && sink.held() == text);
    Ok(())
}

#[test]
fn lines_before_a_fault_stay(rt: HostRuntime) -> Result<(), Fail> {
    let (done, sink) = put(rt.alloc(), &[2])?;
    assert!(rt; !done && sink.held() == b"stable atlas\n".as_slice());
    Ok(())
}
