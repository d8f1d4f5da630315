//! Streams that are given up at a moment.
ghost use Rattle.std.specs.Prelude.{◌≡◌, ◌≢◌, IfOk, OnOk};
ghost use Rattle.std.specs.Duration.{as_nanos};

use std::io;
use std::io::{Read, Write};
use std::net::OpenStream;
use std::time::{Clock, Duration, Instant};

/// A stream that is given up at a moment. Each read and each write waits at most for what is left until then, so a
/// peer that sends a byte now and then holds nobody. Where nothing is left, and where the clock cannot be read,
/// reads and writes fail and do nothing.
#[derive(Drop)]
pub(crate) struct Timed<'a, S, C: Clock> {
    stream: S,
    clock: &'a C,
    end: Instant,
}

impl<'a, S, C: Clock> Timed<'a, S, C> {
    /// The stream, to be given up after a while. It is an error where the clock cannot say when that is.
    pub(crate) fn new(stream: S, clock: &'a C, wait: Duration) -> io::Result<Timed<'a, S, C>>
    where
        S: Drop,
        ensures { IfOk result (λ timed. timed.stream ≡ stream) }
    {
        match Instant::now(clock)?.checked_add(wait) {
            Some(end) => Ok(Timed { stream, clock, end }),
            None => Err(io::Error::from(io::ErrorKind::InvalidInput)),
        }
    }

    pub(crate) fn into_stream(self) -> S
        ensures { result ≡ self.entry.stream }
    {
        self.stream
    }

    /// What is left, which is more than nothing.
    fn left(&self) -> io::Result<Duration>
        ensures { IfOk result (λ left. as_nanos left ≢ 0) }
    {
        match self.end.checked_duration_since(Instant::now(self.clock)?) {
            Some(left) if !left.is_zero() => Ok(left),
            _ => Err(io::Error::from(io::ErrorKind::TimedOut)),
        }
    }
}

impl<S: Read + OpenStream, C: Clock> Read for Timed<'_, S, C> {
    ghost remaining = { λ timed. S.remaining timed.stream };

    fn read(&mut self, buf: &mut [u8]) -> io::Result<usize> {
        let left = self.left()?;
        self.stream.set_read_timeout(Some(left))?;
        self.stream.read(buf)
    }
}

impl<S: Write + OpenStream, C: Clock> Write for Timed<'_, S, C> {
    ghost contents = { λ timed. S.contents timed.stream };

    fn write(&mut self, buf: &[u8]) -> io::Result<usize> {
        let left = self.left()?;
        self.stream.set_write_timeout(Some(left))?;
        self.stream.write(buf)
    }

    fn flush(&mut self) -> io::Result<()> {
        self.stream.flush()
    }
}
