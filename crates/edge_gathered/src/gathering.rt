ghost use Rattle.std.specs.Prelude.{◌≡◌, [], IfOk, IfErr, IsOk, OnOk};
ghost use Rattle.std.specs.IoError.{error_kind};
ghost use Rattle.std.specs.Io.KnownBytes.{Keeps};
ghost use Rattle.std.specs.declared.io.ErrorKind.TheVariants.{OutOfMemory};
ghost use Rattle.edge_gathered.specs.Gathering.{gathered, gathered_contents, inner_of};

use std::alloc::Global;
use std::io;
use std::io::{BufWriter, Write};

/// How many bytes are gathered at most.
const GATHERED_BYTES: usize = 8192;

/// A writer over another one, which hands on what is written in pieces: when 8,192 bytes are gathered, and at `finish`. A flush hands on
/// nothing, so whoever flushes behind each line writes no line by itself. A write that is larger than a piece goes on by itself, behind what was
/// gathered.
///
/// What is gathered and not handed on is lost where the program is killed, and an error of the writer below is met by the write that hands on a
/// piece, or by `finish`: so call that, and look at its answer.
#[derive(Drop)]
pub struct GatheringWriter<W: Write + Drop> {
    writer: BufWriter<W>,
}

impl<W: Write + Drop> GatheringWriter<W> {
    /// Nothing is gathered yet. The room for a piece is all the memory that it takes; where there is none the writer is dropped.
    pub fn new(alloc: Global, writer: W) -> io::Result<GatheringWriter<W>>
        ensures writer { IfOk result (λ made. inner_of made ≡ writer) }
        ensures empty { IfOk result (λ made. gathered made ≡ []) }
        ensures err { IfErr result (λ e. error_kind e ≡ OutOfMemory) }
    {
        Ok(GatheringWriter {
            writer: BufWriter::with_capacity(alloc, GATHERED_BYTES, writer)?,
        })
    }

    /// Hands on what was gathered, and flushes the writer below. What an error leaves stays gathered.
    pub fn finish(&mut self) -> io::Result<()>
        ensures bytes { Keeps (gathered_contents W.contents self.old) (gathered_contents W.contents self.new) }
        ensures ok { OnOk result (gathered self.new ≡ []) }
    {
        self.writer.flush()
    }
}

impl<W: Write + Drop> Write for GatheringWriter<W> {
    ghost contents = { gathered_contents W.contents };

    fn write(&mut self, buf: &[u8]) -> io::Result<usize> {
        self.writer.write(buf)
    }

    fn flush(&mut self) -> io::Result<()>
        ensures bytes { Keeps (gathered_contents W.contents self.old) (gathered_contents W.contents self.new) }
        ensures ok { IsOk result }
        ensures unchanged { self.new ≡ self.old }
    {
        Ok(())
    }
}
