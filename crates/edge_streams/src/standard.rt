// Std's readers and writers as a source and a sink.
ghost use Rattle.std.specs.Prelude.{◌≡◌, ◌<◌, ◌≤◌, length, take, IfOk, OnOk, OnErr};
ghost use Rattle.std.specs.Io.KnownBytes.{Keeps, Appends};
ghost use Rattle.edge_disk.specs.Counts.{raised, Rose};
ghost use Rattle.edge_streams.specs.Streams.{Takes, Puts, AppendsPart};

use crate::{Sink, SinkFault, Source, SourceFault};
use std::io;
use std::io::{ErrorKind, Read, Write};

/// How often a call is made again that a signal interrupts.
const TRIES: u32 = 1000;

/// A reader as a source. It tells of the bytes that are left what the reader tells: a file, a pipe or a terminal tells
/// nothing, so what is read from there is taken as it comes. A read that a signal interrupts is made again, up to 1,000
/// times; any other error is a fault, and the next take tries the reader again.
#[derive(Debug, Drop)]
pub struct ReadSource<R> {
    reader: R,
    faults: u64,
}

impl<R> ReadSource<R> {
    ghost use Rattle.edge_streams.specs.Standard.{reader_of, faults_of_reads};

    pub fn new(reader: R) -> ReadSource<R>
        ensures reader { reader_of result ≡ reader }
        ensures faults { faults_of_reads result ≡ 0 }
    {
        ReadSource { reader, faults: 0 }
    }
}

impl<R: Read> Source for ReadSource<R> {
    ghost use Rattle.edge_streams.specs.Standard.{reader_of, faults_of_reads};

    ghost left = { λ s. R.remaining s.reader };

    ghost faults = { λ s. s.faults };

    fn take(&mut self, out: &mut [u8]) -> Result<usize, SourceFault>
        requires { 0 < length out.old }
        ensures within { IfOk result (λ n. n ≤ length out.new) }
        ensures bytes { Takes (R.remaining (reader_of self.old)) (R.remaining (reader_of self.new)) result out.new }
        ensures count { faults_of_reads self.old ≤ faults_of_reads self.new }
        ensures cause { OnErr result (Rose (faults_of_reads self.old) (faults_of_reads self.new)) }

        // Each fault is counted once, and nothing else is.
        ensures ok { OnOk result (faults_of_reads self.new ≡ faults_of_reads self.old) }
        ensures err { OnErr result (faults_of_reads self.new ≡ raised (faults_of_reads self.old)) }
    {
        match read_some(&mut self.reader, out) {
            Ok(n) => Ok(n),
            Err(_) => {
                self.faults = self.faults.saturating_add(1);
                Err(SourceFault)
            }
        }
    }
}

/// A writer as a sink. It tells of the bytes that are held what the writer tells: a file, a pipe or a terminal tells
/// nothing. Each put is flushed, so what was put is seen at once, and a fault is answered by the put that meets it. A
/// write that a signal interrupts is made again, up to 1,000 times; any other error, and a write that accepts nothing, is
/// a fault.
#[derive(Debug, Drop)]
pub struct WriteSink<W> {
    writer: W,
    faults: u64,
}

impl<W> WriteSink<W> {
    ghost use Rattle.edge_streams.specs.Standard.{writer_of, faults_of_writes};

    pub fn new(writer: W) -> WriteSink<W>
        ensures writer { writer_of result ≡ writer }
        ensures faults { faults_of_writes result ≡ 0 }
    {
        WriteSink { writer, faults: 0 }
    }

    /// The writer, with all that was put.
    pub fn into_writer(self) -> W
        ensures { result ≡ writer_of self }
    {
        self.writer
    }
}

impl<W: Write> Sink for WriteSink<W> {
    ghost use Rattle.edge_streams.specs.Standard.{writer_of, faults_of_writes};

    ghost held = { λ s. W.contents s.writer };

    ghost faults = { λ s. s.faults };

    fn put(&mut self, bytes: &[u8]) -> Result<(), SinkFault>
        ensures bytes { Puts (W.contents (writer_of self.old)) (W.contents (writer_of self.new)) result bytes.now }
        ensures count { faults_of_writes self.old ≤ faults_of_writes self.new }
        ensures cause { OnErr result (Rose (faults_of_writes self.old) (faults_of_writes self.new)) }

        // Each fault is counted once, and nothing else is.
        ensures ok { OnOk result (faults_of_writes self.new ≡ faults_of_writes self.old) }
        ensures err { OnErr result (faults_of_writes self.new ≡ raised (faults_of_writes self.old)) }
    {
        match write_whole(&mut self.writer, bytes) {
            Ok(()) => Ok(()),
            Err(_) => {
                self.faults = self.faults.saturating_add(1);
                Err(SinkFault)
            }
        }
    }
}

// One read, made again while a signal interrupts it.
pub(crate) fn read_some<R: Read>(reader: &mut R, out: &mut [u8]) -> io::Result<usize>
    requires { 0 < length out.old }
    ensures within { IfOk result (λ n. n ≤ length out.new) }
    ensures bytes { Takes (R.remaining reader.old) (R.remaining reader.new) result out.new }
{
    for _ in 0..TRIES {
        match reader.read(out) {
            Ok(n) => return Ok(n),
            Err(e) if e.kind() == ErrorKind::Interrupted => {}
            Err(e) => return Err(e),
        }
    }
    Err(io::Error::from(ErrorKind::Interrupted))
}

// One write, made again while a signal interrupts it.
fn write_some<W: Write>(writer: &mut W, bytes: &[u8]) -> io::Result<usize>
    ensures within { IfOk result (λ n. n ≤ length bytes.now) }
    ensures ok { IfOk result (λ n. Appends (W.contents writer.old) (W.contents writer.new) (take n bytes.now)) }
    ensures err { OnErr result (Keeps (W.contents writer.old) (W.contents writer.new)) }
{
    for _ in 0..TRIES {
        match writer.write(bytes) {
            Ok(n) => return Ok(n),
            Err(e) if e.kind() == ErrorKind::Interrupted => {}
            Err(e) => return Err(e),
        }
    }
    Err(io::Error::from(ErrorKind::Interrupted))
}

// Writes all the bytes and flushes. A write that accepts nothing is an error.
pub(crate) fn write_whole<W: Write>(writer: &mut W, bytes: &[u8]) -> io::Result<()>
    ensures ok { OnOk result (Appends (W.contents writer.old) (W.contents writer.new) bytes.now) }
    ensures err { OnErr result (AppendsPart (W.contents writer.old) (W.contents writer.new) bytes.now) }
{
    let mut at = 0;
    while at < bytes.len() {
        let n = write_some(writer, &bytes[at..])?;
        if n == 0 {
            return Err(io::Error::from(ErrorKind::WriteZero));
        }
        at += n;
    }
    writer.flush()
}
