//! A source and a sink over readers and writers of std. They tell what std tells of these, and count each error.
ghost use Rattle.std.specs.Prelude.{◌≡◌, ◌<◌, length};
ghost use Rattle.disk_base.specs.Adapters.{reader_faults, reader_of, writer_faults, writer_of};
ghost use Rattle.disk_base.specs.Count.{HasCause};
ghost use Rattle.disk_base.specs.Sink.{Appends};
ghost use Rattle.disk_base.specs.Source.{Reads};

use crate::{Got, Sink, Source, Wrote};
use ghost_values::Tally;
use std::io::{Read, Write};

/// A source over a reader. Each error of the reader is a failed read.
#[derive(Drop)]
pub struct ReaderSource<R: Read + Drop> {
    reader: R,
    faults: Tally,
}

impl<R: Read + Drop> ReaderSource<R> {
    /// A source of what the reader has left, with no fault yet.
    pub fn new(reader: R) -> ReaderSource<R>
        ensures reader { reader_of result ≡ reader }
        ensures faults { reader_faults result ≡ 0 }
    {
        ReaderSource {
            reader,
            faults: Tally::new(),
        }
    }
}

impl<R: Read + Drop> Source for ReaderSource<R> {
    ghost left = { λ source. R.remaining (reader_of source) };

    ghost faults = { λ source. reader_faults source };

    fn read(&mut self, buf: &mut [u8]) -> Got
        requires { 0 < length buf.old }
        ensures moved { Reads result (R.remaining (reader_of self.old)) (R.remaining (reader_of self.new)) buf.new }
        ensures cause { HasCause (reader_faults self.old) (reader_faults self.new) (result ≡ Got.Failed) }
    {
        match self.reader.read(buf) {
            Ok(0) => Got::End,
            Ok(count) => Got::Bytes(count),
            Err(_) => {
                self.faults = self.faults.next();
                Got::Failed
            }
        }
    }
}

/// A sink over a writer. Each error of the writer is a failed write, and so is a write that takes no byte.
#[derive(Drop)]
pub struct WriterSink<W: Write + Drop> {
    writer: W,
    faults: Tally,
}

impl<W: Write + Drop> WriterSink<W> {
    /// A sink that appends to the writer, with no fault yet.
    pub fn new(writer: W) -> WriterSink<W>
        ensures writer { writer_of result ≡ writer }
        ensures faults { writer_faults result ≡ 0 }
    {
        WriterSink {
            writer,
            faults: Tally::new(),
        }
    }

    /// Hands the writer back, which the caller flushes where it keeps bytes back.
    pub fn into_inner(self) -> W
        ensures { result ≡ writer_of self }
    {
        self.writer
    }
}

impl<W: Write + Drop> Sink for WriterSink<W> {
    ghost written = { λ sink. W.contents (writer_of sink) };

    ghost faults = { λ sink. writer_faults sink };

    fn write(&mut self, bytes: &[u8]) -> Wrote
        requires { 0 < length bytes.now }
        ensures appended { Appends result (W.contents (writer_of self.old)) (W.contents (writer_of self.new)) bytes.now }
        ensures cause { HasCause (writer_faults self.old) (writer_faults self.new) (result ≡ Wrote.Failed) }
    {
        match self.writer.write(bytes) {
            Ok(count) if count > 0 => Wrote::Bytes(count),
            _ => {
                self.faults = self.faults.next();
                Wrote::Failed
            }
        }
    }
}
