//! Sources and sinks, in memory and over readers and writers, of which some fail.
ghost use Rattle.std.specs.Prelude.{◌≡◌, ◌<◌, IfOk, length};

use disk_base::{Got, MemSink, MemSource, ReaderSource, Sink, Source, WriterSink, Wrote};
use std::io;
use std::process::Abort;
use std::test::Fail;

/// Reads two bytes at most, again and again, and compares how each read ends.
fn expect_reads<S: Source>(rt: &impl Abort, source: &mut S, wanted: &[(Got, [u8; 2])]) {
    let mut buf = [0; 2];
    for (end, bytes) in wanted {
        let got = source.read(&mut buf);
        assert_eq!(rt; got, *end);
        assert_eq!(rt; buf, *bytes);
    }
}

fn expect_writes<K: Sink>(rt: &impl Abort, sink: &mut K, bytes: &[u8], wanted: &[Wrote])
    requires { 0 < length bytes.now }
{
    for end in wanted {
        assert_eq!(rt; sink.write(bytes), *end);
    }
}

/// A reader and a writer that fail in every second call, and move one byte in the others.
#[derive(Drop)]
struct Halting {
    fails: bool,
}

impl Halting {
    fn turn(&mut self) -> io::Result<usize>
        ensures { IfOk result (λ n. n ≡ 1) }
    {
        self.fails = !self.fails;
        if self.fails {
            return Err(io::ErrorKind::Other.into());
        }
        Ok(1)
    }
}

impl io::Read for Halting {
    fn read(&mut self, buf: &mut [u8]) -> io::Result<usize> {
        if buf.is_empty() {
            return Ok(0);
        }
        buf[0] = b'x';
        self.turn()
    }
}

impl io::Write for Halting {
    fn write(&mut self, buf: &[u8]) -> io::Result<usize> {
        if buf.is_empty() {
            return Ok(0);
        }
        self.turn()
    }

    fn flush(&mut self) -> io::Result<()> {
        Ok(())
    }
}

#[test]
fn a_source_moves_what_did_not_fail(rt: HostRuntime) -> Result<(), Fail> {
    let mut source = MemSource::new(rt.alloc(), b"hello", &[2])?;
    let wanted = [
        (Got::Bytes(2), *b"he"),
        (Got::Failed, *b"he"),
        (Got::Bytes(2), *b"ll"),
        (Got::Bytes(1), *b"ol"),
        (Got::End, *b"ol"),
    ];
    expect_reads(&rt, &mut source, &wanted);
    let mut halting = ReaderSource::new(Halting { fails: false });
    let wanted = [(Got::Failed, *b"x\0"), (Got::Bytes(1), *b"x\0")];
    expect_reads(&rt, &mut halting, &wanted);
    let mut ended = ReaderSource::new(io::empty());
    expect_reads(&rt, &mut ended, &[(Got::End, *b"\0\0")]);
    Ok(())
}

#[test]
fn a_sink_keeps_what_did_not_fail(rt: HostRuntime) -> Result<(), Fail> {
    let mut sink = MemSink::new(rt.alloc(), &[1, 3])?;
    let wanted = [
        Wrote::Failed,
        Wrote::Bytes(2),
        Wrote::Failed,
        Wrote::Bytes(2),
    ];
    expect_writes(&rt, &mut sink, b"ab", &wanted);
    assert_eq!(rt; sink.written(), b"abab".as_slice());
    let mut halting = WriterSink::new(Halting { fails: false });
    expect_writes(&rt, &mut halting, b"ab", &[Wrote::Failed, Wrote::Bytes(1)]);
    let mut full: [u8; 0] = [];
    let mut none = WriterSink::new(full.as_mut_slice());
    expect_writes(&rt, &mut none, b"ab", &[Wrote::Failed]);
    let mut whole = WriterSink::new(Vec::new(rt.alloc()));
    expect_writes(&rt, &mut whole, b"ab", &[Wrote::Bytes(2)]);
    assert_eq!(rt; whole.into_inner().as_slice(), b"ab".as_slice());
    Ok(())
}
