//! Sources in memory: a script, refused ones, the longest, and takes that fail.
use command_outcomes::Fault;
use command_source::read_source;
use edge_streams::{MemorySource, Source};
use script_types::{Refusal, Why};
use std::alloc::Global;
use std::test::Fail;

/// How many bytes a source may have.
const MOST: usize = 1_048_576;

const SCRIPT: &[u8] = b"steps = 7
frames = 2
program.p = ['snap r0']
program.m = ['halt']
supply = ['7 m']
container = [{ name = 'a', pages = 3, every = 5, program = 'p' }]
locus = [{ name = 'l', host = 'a', at = 9 }]
";

// A source of these bytes, of which the takes of these numbers fail.
fn source(alloc: Global, bytes: &[u8], fails: &[u64]) -> Result<MemorySource, Fail> {
    Ok(MemorySource::new(bytes.to_vec(alloc)?, fails.to_vec(alloc)?))
}

// Why a source with these bytes is refused.
fn refusal(alloc: Global, bytes: &[u8]) -> Result<Refusal, Fail> {
    let mut source = source(alloc, bytes, &[])?;
    match read_source(alloc, &mut source) {
        Err(Fault::Script(refusal)) => Ok(refusal),
        _ => Err(Fail::from("no refusal")),
    }
}

// As many blanks.
fn blanks(alloc: Global, count: usize) -> Result<Vec<u8>, Fail> {
    let mut bytes = Vec::new(alloc);
    for _ in 0..count {
        bytes.push(b' ')?;
    }
    Ok(bytes)
}

#[test]
fn a_source_is_read_to_its_end(rt: HostRuntime) -> Result<(), Fail> {
    let mut source = source(rt.alloc(), SCRIPT, &[])?;
    let Ok(read) = read_source(rt.alloc(), &mut source) else {
        return Err(Fail::from("no script"));
    };
    let script = &read.script;
    assert!(rt; (script.steps, script.frames) == (7, 2));
    assert!(rt; script.containers.len() == 1 && script.loci.len() == 1 && script.order.is_empty());
    assert!(rt; read.managers.supply.len() == 1 && read.managers.policy.is_empty());
    let (a, l) = (&script.containers[0], &script.loci[0]);
    assert!(rt; (a.pages, a.every, a.code.len()) == (3, 5, 1));
    assert!(rt; (l.name.as_str(), l.host.as_str(), l.at) == ("l", "a", 9));
    let mut piece = [0u8; 1];
    assert!(rt; matches!(source.take(&mut piece), Ok(0)));
    Ok(())
}

#[test]
fn a_refusal_has_its_reason_and_its_key(rt: HostRuntime) -> Result<(), Fail> {
    let alloc = rt.alloc();
    let long = blanks(alloc, MOST + 1)?;
    let rows = [
        (b"steps = 0".as_slice(), Why::Range, "steps"),
        (b"frames = 257".as_slice(), Why::Range, "frames"),
        (b"steps = ".as_slice(), Why::NotToml, "-"),
        (long.as_slice(), Why::Long, "-"),
    ];
    for &(bytes, why, key) in &rows {
        let told = refusal(alloc, bytes)?;
        assert!(rt; told.why == why && told.key.as_str() == key, "at {key}");
    }
    Ok(())
}

#[test]
fn a_source_of_the_most_bytes_is_read(rt: HostRuntime) -> Result<(), Fail> {
    let alloc = rt.alloc();
    let mut source = MemorySource::new(blanks(alloc, MOST)?, Vec::new(alloc));
    let script = read_source(alloc, &mut source);
    assert!(rt; matches!(script, Ok(_)));
    Ok(())
}

#[test]
fn a_take_that_fails_is_told(rt: HostRuntime) -> Result<(), Fail> {
    // The second take finds the end, and a third is not made.
    for &(call, failed) in &[(1, true), (2, true), (3, false)] {
        let mut source = source(rt.alloc(), SCRIPT, &[call])?;
        let script = read_source(rt.alloc(), &mut source);
        assert!(rt; matches!(script, Err(Fault::Source)) == failed, "at {call}");
        assert!(rt; script.is_ok() != failed, "at {call}");
    }
    Ok(())
}
