//! The sentences of refusals and faults.
use command_outcomes::Status;
use edge_disk::NoBlocks;
use edge_streams::{MemorySink, SinkFault};
use line_sentences::{put_sentence, put_unopened};
use script_types::{Refusal, Why};
use std::alloc::{AllocError, Global};
use std::test::Fail;

fn refused(alloc: Global, why: Why, key: &str) -> Result<Status, AllocError> {
    Ok(Status::Script(Refusal {
        why,
        key: String::from_str(alloc, key)?,
    }))
}

// Whether the sentence on a status is this one.
fn says(alloc: Global, status: &Status, sentence: &str) -> Result<bool, Fail> {
    let mut sink = MemorySink::new(alloc, 400, Vec::new(alloc))?;
    let put = put_sentence(&mut sink, status);
    Ok(put.is_ok() && sink.held() == sentence.as_bytes())
}

#[test]
fn a_refused_script_is_told_by_its_key(rt: HostRuntime) -> Result<(), Fail> {
    let alloc = rt.alloc();
    let refusals = [
        (
            Why::BadCode,
            "program.p.3",
            "refused: program.p.3 is no instruction (docs/SCRIPTS.md)\n",
        ),
        (
            Why::BadCode,
            "container.0.caps.1",
            "refused: container.0.caps.1 is no region or capability (docs/SCRIPTS.md)\n",
        ),
        (
            Why::Range,
            "steps",
            "refused: steps is out of its range (docs/SCRIPTS.md)\n",
        ),
        (
            Why::NotToml,
            "-",
            "refused: it is no TOML in UTF-8 (docs/SCRIPTS.md)\n",
        ),
    ];
    for &(why, key, sentence) in &refusals {
        assert!(rt;
            says(alloc, &refused(alloc, why, key)?, sentence)?,
            "{sentence}"
        );
    }
    Ok(())
}

#[test]
fn numbers_stand_in_their_sentences(rt: HostRuntime) -> Result<(), Fail> {
    let alloc = rt.alloc();
    let foreign = Status::Foreign {
        block: 1285,
        place: 8,
    };
    let sentence =
        "image refused: byte 8 of block 1285 is not as in an image; name another file, or make an empty image by format N (docs/IMAGE.md)\n";
    assert!(rt; says(alloc, &foreign, sentence)?);
    let few = Status::BlocksFull(NoBlocks { need: 5, free: 3 });
    let sentence =
        "too few blocks: 5 are needed and 3 are free; what was made stable stays, and format N makes a larger image, an empty one\n";
    assert!(rt; says(alloc, &few, sentence)?);
    let wrong = Status::TraceWrong {
        line: 6,
        want: None,
    };
    let sentence =
        "trace refused: line 6 is that of no entry that may come next in a run of the script; the output tells the birth or step that it may have been (docs/OUTPUT.md)\n";
    assert!(rt; says(alloc, &wrong, sentence)?);
    assert!(rt; says(alloc, &Status::Done, "")?);
    Ok(())
}

#[test]
fn an_unopened_file_is_told_by_its_path(rt: HostRuntime) -> Result<(), Fail> {
    let alloc = rt.alloc();
    let mut sink = MemorySink::new(alloc, 400, Vec::new(alloc))?;
    assert!(rt; put_unopened(&mut sink, "/no/where") == Ok(()));
    let sentence =
        b"disk fault: /no/where can't be opened or made as a file to read and write\n".as_slice();
    assert!(rt; sink.held() == sentence);
    let mut sink = MemorySink::new(alloc, 14, Vec::new(alloc))?;
    assert!(rt; put_unopened(&mut sink, "/no/where") == Err(SinkFault));
    assert!(rt; sink.held() == b"disk fault: ".as_slice());
    Ok(())
}
