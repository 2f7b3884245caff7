ghost use Rattle.std.specs.Prelude.{◌≡◌, ◌<◌};

use base_types::{Answer, Entity, Entry, Event, Reply, Right, Touch, Touched};
use edge_streams::MemorySink;
use line_entries::{put_summary, put_trace};
use line_text::NameLists;
use std::alloc::Global;
use std::test::Fail;

fn touch(number: u8, version: u64, wrote: bool) -> Touch
    requires { number < 64 }
    ensures { result.entity ≡ number }
{
    Touch {
        version,
        entity: Entity::of(number),
        wrote,
    }
}

fn entry(event: Event, number: u8, touched: Touched, version: u64, answer: Answer) -> Entry {
    Entry {
        event,
        actor: Entity::new(number).unwrap_or(Entity::ATLAS),
        touched,
        version,
        answer,
    }
}

fn step(touched: Touched, answer: Answer) -> Entry {
    entry(Event::Step, 41, touched, 0, answer)
}

fn of_three(version: u64) -> Touched {
    Touched::three(
        touch(0, 2, true),
        touch(2, 1, false),
        touch(41, version, true),
    )
}

fn alone(version: u64) -> Touched {
    Touched::one(touch(41, version, true))
}

/// What was put for these entries, in two lists of names.
fn shown(alloc: Global, entries: &[Entry]) -> Result<MemorySink, Fail> {
    let mut containers = Vec::new(alloc);
    containers.push(String::from_str(alloc, "a")?)?;
    containers.push(String::from_str(alloc, "b-2")?)?;
    let mut loci = Vec::new(alloc);
    loci.push(String::from_str(alloc, "l")?)?;
    let names = NameLists {
        containers: &containers,
        loci: &loci,
    };
    let mut sink = MemorySink::new(alloc, 1000, Vec::new(alloc))?;
    if names.are_short() {
        put_trace(&mut sink, &names, entries)?;
    }
    put_summary(&mut sink, entries)?;
    Ok(sink)
}

#[test]
fn events(rt: HostRuntime) -> Result<(), Fail> {
    let born = Touched::one(touch(0, 1, true));
    let sink = shown(
        rt.alloc(),
        &[
            entry(Event::Birth, 1, born, 0, Answer::Quiet),
            entry(Event::Stable, 0, Touched::none(), 0, Answer::Quiet),
            entry(Event::Snap, 2, Touched::none(), 3, Answer::Quiet),
            entry(Event::Tried, 41, Touched::none(), 12, Answer::Quiet),
        ],
    )?;
    let text =
        b"birth a atlas:1\nstable atlas\nsnap b-2 3\ntried l 12\nentries 4 prints 0 refused 0 snaps 1 stables 1 sum 0\n";
    assert!(rt; sink.held() == text.as_slice());
    Ok(())
}

#[test]
fn answers(rt: HostRuntime) -> Result<(), Fail> {
    let sink = shown(
        rt.alloc(),
        &[
            step(alone(2), Answer::Quiet),
            step(alone(3), Answer::Reply(Reply::Ok)),
            step(alone(4), Answer::Reply(Reply::Denied(Right::Write))),
            step(alone(5), Answer::Read(0)),
            step(alone(6), Answer::Print(u64::MAX)),
            step(alone(7), Answer::Print(3)),
            step(of_three(8), Answer::Hop),
        ],
    )?;
    let text =
        b"step l l:2 quiet\nstep l l:3 reply 0\nstep l l:4 reply 17\nstep l l:5 read 0\nstep l l:6 print 18446744073709551615\nstep l l:7 print 3\nstep l atlas:2,b-2=1,l:8 hop\nentries 7 prints 2 refused 1 snaps 0 stables 0 sum 2\n";
    assert!(rt; sink.held() == text.as_slice());
    Ok(())
}
