//! A step of one worker is made and answered while a step of another holds its locks.
use crate::gates::Overlapping;
use base_types::Entity;
use std::test::Fail;
use test_system::{formatted, put_on_threads};

// Two loci that store into a container of their own.
const APART: &[u8] = b"program.p = ['store r0 r1', 'halt']
container = [{ name = 'a', pages = 1, program = 'p' }, { name = 'b', pages = 1, program = 'p' }]
locus = [{ name = 'l', host = 'a' }, { name = 'm', host = 'b' }]
";

// By one worker, or where all steps have one lock, or the one has to wait for the other, this reaches its limit.
#[test]
fn steps_of_two_workers_overlap(rt: HostRuntime) -> Result<(), Fail> {
    let gate = Overlapping::new(Entity::of(1), Entity::of(2), Entity::of(42));
    let words = ["run", "--workers", "2"];
    let disk = formatted(rt.alloc(), &[])?;
    let (_, outcome) = put_on_threads(&rt, rt.alloc(), &words, APART, &[], disk, &gate)?;
    assert!(rt; outcome.status.number() == 0);
    assert!(rt; gate.has_overlapped());
    Ok(())
}
