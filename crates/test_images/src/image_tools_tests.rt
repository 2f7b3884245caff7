//! Images read, shown and reported, and read from a disk that fails.
ghost use Rattle.std.specs.Prelude.{IfOk};
ghost use Rattle.plain_states.specs.Plains.{cells_of};
ghost use Rattle.plain_states.specs.model_kernel.Soundness.{IsSound};

use crate::small_image::{WRITES, alter, cut, formatted, image};
use edge_disk::MemoryDisk;
use edge_streams::{MemorySink, SinkFault};
use image_blocks::Area;
use image_reading::{ImageFacts, read_image, write_report, write_show};
use log_reading::ReadingFault;
use plain_states::PlainContainer;
use std::alloc::Global;
use std::test::Fail;

// Reads over a supplier whose words are the tags.
fn read(alloc: Global, disk: &mut MemoryDisk) -> Result<ImageFacts, ReadingFault>
    ensures { IfOk result (λ facts. IsSound (cells_of (λ tag page place. tag) facts.state)) }
{
    read_image(alloc, disk, &|tag, _, _| tag)
}

fn show(facts: &ImageFacts, sink: &mut MemorySink) -> Result<(), SinkFault>
    requires { IsSound (cells_of (λ tag page place. tag) facts.now.state) }
{
    write_show(sink, facts, &|tag, _, _| tag)
}

// Puts the report and what is shown, and compares them.
fn prints(alloc: Global, disk: &mut MemoryDisk, text: &[u8]) -> Result<bool, Fail> {
    let mut sink = MemorySink::new(alloc, 1000, Vec::new(alloc))?;
    match read(alloc, disk) {
        Ok(facts) => {
            write_report(&mut sink, &facts)?;
            show(&facts, &mut sink)?;
            Ok(sink.held() == text)
        }
        Err(_) => Ok(false),
    }
}

fn fault_of(alloc: Global, disk: &mut MemoryDisk) -> Option<ReadingFault> {
    match read(alloc, disk) {
        Ok(_) => None,
        Err(fault) => Some(fault),
    }
}

// What is told of the small image with these bytes: a block, a place in it and a byte for each.
pub fn altered(alloc: Global, changes: &[(u32, usize, u8)]) -> Result<Option<ReadingFault>, Fail> {
    let mut disk = image(alloc, &[])?;
    for change in changes {
        alter(&mut disk, change.0, change.1, change.2)?;
    }
    Ok(fault_of(alloc, &mut disk))
}

// Whether this is the log of the small image, and the cut over it.
fn is_small_log(facts: &ImageFacts) -> bool {
    facts.log.area == Area::A
        && (facts.log.epoch, facts.log.blocks) == (1, 2600)
        && facts.log.recs.len() == 3
        && facts.cut == cut()
}

// Whether the words of a container that aren't the supplier's 7, of both pages, are these.
fn has_words(container: &PlainContainer) -> bool {
    container.words.len() == 2
        && container.words.get(&3).copied() == Some(5)
        && container.words.get(&129).copied() == Some(9)
}

#[test]
fn an_image_is_read(rt: HostRuntime) -> Result<(), Fail> {
    let mut disk = image(rt.alloc(), &[])?;
    let facts = read(rt.alloc(), &mut disk).ok().ok_or("an image")?;
    assert!(rt; is_small_log(&facts));
    assert!(rt; facts.state.containers.len() == 1 && facts.state.loci.len() == 1);
    assert!(rt; has_words(&facts.state.containers[0]));
    Ok(())
}

#[test]
fn an_image_is_printed(rt: HostRuntime) -> Result<(), Fail> {
    let mut disk = image(rt.alloc(), &[])?;
    let text =
        b"area A epoch 1 used 3\nrec 0 1 1 chosen\nrec 1 0 1 chosen\nrec 2 41 1 chosen\ncut 0 1\ncut 1 1\ncut 41 1\ncontainer a 2 7 0 -\nword a 3 5\nword a 129 9\nlocus l a 0 running 0 0 0 0 0 0 0 0 0\n";
    assert!(rt; prints(rt.alloc(), &mut disk, text)?);
    let mut disk = formatted(rt.alloc())?;
    assert!(rt; prints(rt.alloc(), &mut disk, b"area A epoch 1 used 0\n")?);
    Ok(())
}

// Whether the report of the small image and what it shows go into a sink of which the calls of these numbers fail.
fn goes_into(alloc: Global, fails: &[u64]) -> Result<bool, Fail> {
    let mut disk = image(alloc, &[])?;
    let mut sink = MemorySink::new(alloc, 1000, fails.to_vec(alloc)?)?;
    match read(alloc, &mut disk) {
        Ok(facts) => {
            let reported = write_report(&mut sink, &facts).is_ok();
            Ok(reported && show(&facts, &mut sink).is_ok())
        }
        Err(_) => Ok(false),
    }
}

#[test]
fn each_line_is_put_at_once(rt: HostRuntime) -> Result<(), Fail> {
    // Seven lines of the report, and four of the state.
    assert!(rt; goes_into(rt.alloc(), &[12])?);
    assert!(rt; !goes_into(rt.alloc(), &[11])?);
    Ok(())
}

#[test]
fn failed_reads_are_told(rt: HostRuntime) -> Result<(), Fail> {
    // Thirteen reads of the log, one of each of three blobs, and one of each of two pages.
    for read in 1..=18 {
        let mut disk = image(rt.alloc(), &[WRITES + read])?;
        assert!(rt; fault_of(rt.alloc(), &mut disk) == Some(ReadingFault::ReadFault));
    }
    let mut disk = image(rt.alloc(), &[WRITES + 19])?;
    assert!(rt; fault_of(rt.alloc(), &mut disk) == None);
    Ok(())
}
