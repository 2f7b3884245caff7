ghost use Rattle.std.specs.Prelude.{take};

use edge_disk::Disk;
use edge_streams::{
    FileDisk, MemorySink, MemorySource, ReadSource, ReadStop, Sink, SinkFault, Source, SourceFault,
    WriteSink, read_all,
};
use std::alloc::Global;
use std::fs::{self, File, Files, OpenOptions};
use std::io;
use std::io::{ErrorKind, Read, Write};
use std::test::Fail;

// A reader whose first read is interrupted, the second gives a byte, and each later one fails.
#[derive(Drop)]
struct Stutter {
    reads: u8,
}

impl Read for Stutter {
    fn read(&mut self, out: &mut [u8]) -> io::Result<usize> {
        self.reads = self.reads.saturating_add(1);
        if self.reads == 1 {
            return Err(io::Error::from(ErrorKind::Interrupted));
        }
        if self.reads > 2 || out.is_empty() {
            return Err(io::Error::from(ErrorKind::Other));
        }
        out[0] = 9;
        Ok(1)
    }
}

// A writer that accepts one byte at a time, and of these as many as there is room for.
#[derive(Drop)]
struct Narrow {
    room: u8,
}

impl Write for Narrow {
    fn write(&mut self, bytes: &[u8]) -> io::Result<usize> {
        if self.room == 0 || bytes.is_empty() {
            return Ok(0);
        }
        self.room -= 1;
        Ok(1)
    }

    fn flush(&mut self) -> io::Result<()> {
        Ok(())
    }
}

#[test]
fn a_memory_source_gives_its_bytes_in_order_and_fails_at_the_given_takes(
    rt: HostRuntime,
) -> Result<(), Fail> {
    let alloc = rt.alloc();
    let mut source = MemorySource::new([1, 2, 3, 4].to_vec(alloc)?, [2, 4].to_vec(alloc)?);
    let mut out = [0u8; 3];
    assert!(rt; source.take(&mut out) == Ok(3));
    assert!(rt; out.as_slice() == [1, 2, 3].as_slice());
    assert!(rt; source.take(&mut out) == Err(SourceFault));
    assert!(rt; source.take(&mut out) == Ok(1));
    assert!(rt; out[0] == 4);
    assert!(rt; source.take(&mut out) == Err(SourceFault));
    assert!(rt; source.take(&mut out) == Ok(0));
    Ok(())
}

#[test]
fn a_memory_sink_fails_at_the_given_puts_and_past_its_room(rt: HostRuntime) -> Result<(), Fail> {
    let alloc = rt.alloc();
    let mut sink = MemorySink::new(alloc, 4, [2].to_vec(alloc)?)?;
    let puts: [(&[u8], bool, &[u8]); 5] = [
        (b"ab", true, b"ab"),
        (b"c", false, b"ab"),
        (b"cde", false, b"ab"),
        (b"cd", true, b"abcd"),
        (b"e", false, b"abcd"),
    ];
    for &(bytes, succeeds, held) in &puts {
        assert!(rt; sink.put(bytes).is_ok() == succeeds);
        assert!(rt; sink.held() == held);
    }
    Ok(())
}

#[test]
fn a_memory_sink_of_a_hundred_bytes_is_made(rt: HostRuntime) {
    let alloc = rt.alloc();
    assert!(rt; MemorySink::new(alloc, 100, Vec::new(alloc)).is_ok());
}

#[test]
fn a_source_is_read_up_to_the_limit_and_not_past_it(rt: HostRuntime) -> Result<(), Fail> {
    let alloc = rt.alloc();
    for &(count, limit) in &[(0, 0), (1, 0), (3, 3), (4, 3), (5000, 5000), (5000, 4999)] {
        let bytes = vec![in alloc; 7u8; count]?;
        let mut source = MemorySource::new(bytes, Vec::new(alloc));
        match read_all(alloc, &mut source, limit) {
            Ok(read) => {
                assert!(rt; count <= limit, "{count} bytes within {limit}");
                assert!(rt; read.len() == count);
                assert!(rt; read.iter().all(|byte| *byte == 7));
            }
            Err(stop) => {
                assert!(rt; limit < count, "{count} bytes past {limit}");
                assert!(rt; stop == ReadStop::Long);
            }
        }
    }
    Ok(())
}

#[test]
fn a_source_that_fails_at_its_second_take_is_not_taken_as_ended(
    rt: HostRuntime,
) -> Result<(), Fail> {
    let alloc = rt.alloc();
    let mut source = MemorySource::new([1, 2, 3].to_vec(alloc)?, [2].to_vec(alloc)?);
    let Err(stop) = read_all(alloc, &mut source, 10) else {
        return Err(Fail::from("a failing source was read"));
    };
    assert!(rt; stop == ReadStop::Source(SourceFault));
    Ok(())
}

#[test]
fn a_reader_is_a_source(rt: HostRuntime) -> Result<(), Fail> {
    let alloc = rt.alloc();
    let bytes: &[u8] = b"abcde";
    let mut source = ReadSource::new(bytes);
    let read = read_all(alloc, &mut source, 5)?;
    assert!(rt; read.as_slice() == bytes);

    let mut out = [0u8; 4];
    let mut source = ReadSource::new(Stutter { reads: 0 });
    assert!(rt; source.take(&mut out) == Ok(1));
    assert!(rt; out[0] == 9);
    assert!(rt; source.take(&mut out) == Err(SourceFault));
    Ok(())
}

#[test]
fn a_writer_is_a_sink(rt: HostRuntime) -> Result<(), Fail> {
    let alloc = rt.alloc();
    let mut kept = Vec::new(alloc);
    let mut sink = WriteSink::new(&mut kept);
    assert!(rt; sink.put(b"ab") == Ok(()));
    assert!(rt; sink.put(b"c") == Ok(()));
    drop(sink);
    assert!(rt; kept.as_slice() == b"abc".as_slice());

    let mut sink = WriteSink::new(Narrow { room: 3 });
    assert!(rt; sink.put(b"ab") == Ok(()));
    assert!(rt; sink.put(b"cd") == Err(SinkFault));
    Ok(())
}

// An empty file for one test.
fn empty_file<R: Files>(files: &R) -> io::Result<R::File> {
    OpenOptions::new()
        .read(true)
        .write(true)
        .create(true)
        .truncate(true)
        .open(files, "a_file_is_a_disk.img")
}

// Whether a block of the disk reads as this.
fn reads(disk: &mut FileDisk, at: u32, wanted: &[u8; 1024]) -> bool {
    let mut block = [9; 1024];
    at < disk.blocks() && disk.read(at, &mut block).is_ok() && block == *wanted
}

#[test]
fn a_file_is_a_disk(rt: HostRuntime) -> Result<(), Fail> {
    let zeros = [0; 1024];
    let mut disk = FileDisk::new(empty_file(&rt)?);
    assert!(rt; reads(&mut disk, 0, &zeros));

    let mut file = empty_file(&rt)?;
    file.write_all(b"abc")?;
    let mut ends_inside = zeros;
    ends_inside[0] = b'a';
    ends_inside[1] = b'b';
    ends_inside[2] = b'c';
    let mut disk = FileDisk::new(file);
    assert!(rt; reads(&mut disk, 0, &ends_inside));
    assert!(rt; disk.write(2, &[7; 1024]).is_ok() && disk.sync().is_ok());
    for &(at, wanted) in &[(2, [7; 1024]), (1, zeros), (0, ends_inside)] {
        assert!(rt; reads(&mut disk, at, &wanted), "block {at}");
    }
    fs::remove_file(&rt, "a_file_is_a_disk.img")?;
    Ok(())
}

// Bytes of two whole blocks and a part of a third, of which the last is another.
fn bytes_past_two_blocks(alloc: Global) -> Result<Vec<u8>, Fail> {
    let mut bytes = vec![in alloc; 7u8; 2499]?;
    bytes.push(9)?;
    Ok(bytes)
}

#[test]
fn a_file_is_a_source(rt: HostRuntime) -> Result<(), Fail> {
    let alloc = rt.alloc();
    let path = "a_file_is_a_source.txt";
    let long = bytes_past_two_blocks(alloc)?;
    let contents: [&[u8]; 3] = [b"", b"abc", &long];
    for &content in &contents {
        fs::write(&rt, path, content)?;
        let mut source = ReadSource::new(File::open(&rt, path)?);
        let read = read_all(alloc, &mut source, 2500)?;
        assert!(rt; read.as_slice() == content);
        assert!(rt; source.take(&mut [0; 10]) == Ok(0));
    }
    fs::remove_file(&rt, path)?;
    Ok(())
}

#[test]
fn a_file_is_read_in_pieces_and_not_past_a_limit(rt: HostRuntime) -> Result<(), Fail> {
    let alloc = rt.alloc();
    let path = "a_file_in_pieces.txt";
    let long = bytes_past_two_blocks(alloc)?;
    fs::write(&rt, path, &long)?;
    let mut source = ReadSource::new(File::open(&rt, path)?);
    let mut out = [0; 1000];
    for &count in &[1000, 1000, 500, 0] {
        assert!(rt; source.take(&mut out) == Ok(count) && out[999] == 7);
    }
    assert!(rt; out[499] == 9);
    let mut source = ReadSource::new(File::open(&rt, path)?);
    let read = read_all(alloc, &mut source, 2499);
    assert!(rt; matches!(read, Err(ReadStop::Long)));
    fs::remove_file(&rt, path)?;
    Ok(())
}

#[test]
fn a_file_is_a_sink(rt: HostRuntime) -> Result<(), Fail> {
    let alloc = rt.alloc();
    let path = "a_file_is_a_sink.txt";
    drop(WriteSink::new(fs::create(&rt, path)?));
    let read = fs::read(&rt, path)?;
    assert!(rt; read.is_empty());

    let long = bytes_past_two_blocks(alloc)?;
    let mut sink = WriteSink::new(fs::create(&rt, path)?);
    let puts: [&[u8]; 4] = [b"ab", b"", &long, b"c\n"];
    let mut whole = Vec::new(alloc);
    for &bytes in &puts {
        assert!(rt; sink.put(bytes) == Ok(()));
        whole.extend_from_slice(bytes)?;
        // What was put is seen at once.
        let read = fs::read(&rt, path)?;
        assert!(rt; read.as_slice() == whole.as_slice());
    }
    fs::remove_file(&rt, path)?;
    Ok(())
}
