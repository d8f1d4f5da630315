//! Asks over streams that fail or take long, and the longest frame.
use io_base::{Answer, MAX_FRAME, ask_once};
use std::alloc::{AllocError, Global};
use std::cell::Cell;
use std::io;
use std::io::{Read, Write};
use std::net::OpenStream;
use std::process::Abort;
use std::test::Fail;
use std::time::{Clock, Duration};

const FRAME: [u8; 8] = [0, 0, 0, 4, 0, 0, 0, 9];

const REPLY: [u8; 7] = [0, 0, 0, 3, 7, 8, 9];

/// How long each ask has, in seconds.
const WAIT: u64 = 20;

/// A peer whose stream takes so many bytes, five at a time, and then gives what it has.
#[derive(Drop)]
struct Peer<'a> {
    takes: usize,
    gives: &'a [u8],
    /// How many bytes come by one read at most.
    at_once: usize,
    /// How long it was last to wait.
    wait: &'a Cell<Option<Duration>>,
}

impl Read for Peer<'_> {
    fn read(&mut self, buf: &mut [u8]) -> io::Result<usize> {
        let count = self.gives.len().min(buf.len()).min(self.at_once);
        let (now, left) = self.gives.split_at(count);
        buf[..count].copy_from_slice(now);
        self.gives = left;
        Ok(count)
    }
}

impl Write for Peer<'_> {
    fn write(&mut self, buf: &[u8]) -> io::Result<usize> {
        let count = self.takes.min(buf.len()).min(5);
        if count == 0 {
            return Err(io::Error::from(io::ErrorKind::BrokenPipe));
        }
        self.takes -= count;
        Ok(count)
    }

    fn flush(&mut self) -> io::Result<()> {
        Ok(())
    }
}

impl OpenStream for Peer<'_> {
    fn set_read_timeout(&self, dur: Option<Duration>) -> io::Result<()> {
        self.wait.set(dur);
        Ok(())
    }

    fn set_write_timeout(&self, dur: Option<Duration>) -> io::Result<()> {
        self.set_read_timeout(dur)
    }
}

/// A clock that goes on by so many seconds whenever it is read.
#[derive(Drop)]
struct Ticks {
    now: Cell<u64>,
    step: u64,
}

impl Clock for Ticks {
    fn monotonic(&self) -> io::Result<Duration> {
        let now = self.now.get();
        self.now.set(now.saturating_add(self.step));
        Ok(Duration::from_secs(now))
    }

    fn since_1970(&self) -> io::Result<Duration> {
        self.monotonic()
    }
}

/// How an ask ends, and how long the peer was last to wait, in seconds.
type End = (Answer, Option<u64>);

/// How an ask ends over a peer that takes so many bytes and gives these, by a clock that goes on by `step` seconds.
fn end_of(alloc: Global, step: u64, takes: usize, gives: &[u8]) -> (End, Vec<u8>) {
    let clock = Ticks {
        now: Cell::new(0),
        step,
    };
    let wait = Cell::new(None);
    let peer = Peer {
        takes,
        gives,
        at_once: (gives.len() / 2).max(3),
        wait: &wait,
    };
    let mut reply = Vec::new(alloc);
    let asked = ask_once(peer, &clock, Duration::from_secs(WAIT), &FRAME, &mut reply);
    let answer = match asked {
        Ok(_) => Answer::Got,
        Err(answer) => answer,
    };
    let waited = match wait.get() {
        Some(wait) => Some(wait.as_secs()),
        None => None,
    };
    ((answer, waited), reply)
}

/// An ask ends so, and the reply is there where it got one.
fn expect_end(
    rt: &impl Abort,
    alloc: Global,
    (step, takes, gives): (u64, usize, &[u8]),
    wanted: End,
    told: &[u8],
) {
    let (end, reply) = end_of(alloc, step, takes, gives);
    assert_eq!(rt; end, wanted);
    assert_eq!(rt; reply.as_slice(), told);
}

/// An ask ends so while the clock stands, and the reply is that of the end.
fn expect_over(
    rt: &impl Abort,
    alloc: Global,
    takes: usize,
    gives: &[u8],
    answer: Answer,
    told: &[u8],
) {
    expect_end(rt, alloc, (0, takes, gives), (answer, Some(WAIT)), told);
}

/// The step of a clock by which the frame goes out by two writes and the reply comes by three reads, and the end.
const STEPS: [(u64, End, &[u8]); 4] = [
    (3, (Answer::Got, Some(5)), &REPLY),
    (4, (Answer::NoAnswer, Some(4)), &[]),
    (10, (Answer::NoAnswer, Some(10)), &[]),
    (20, (Answer::NotSent, None), &[]),
];

/// The time is over at the first write, at the second, and at the last read, or at none.
#[test]
fn time_is_over_at_each_step(rt: HostRuntime) {
    for (step, end, told) in STEPS {
        expect_end(&rt, rt.alloc(), (step, 8, &REPLY), end, told);
    }
}

#[test]
fn a_stream_that_fails_in_the_midst(rt: HostRuntime) {
    let alloc = rt.alloc();
    expect_over(&rt, alloc, 0, &REPLY, Answer::NotSent, &[]);
    for takes in 1..FRAME.len() {
        expect_over(&rt, alloc, takes, &REPLY, Answer::NoAnswer, &[]);
    }
    for gives in 0..REPLY.len() {
        expect_over(&rt, alloc, 8, &REPLY[..gives], Answer::NoAnswer, &[]);
    }
    expect_over(&rt, alloc, 8, &REPLY, Answer::Got, &REPLY);
    expect_over(&rt, alloc, 8, &[0, 0, 0, 0, 1], Answer::Got, &[0, 0, 0, 0]);
    expect_over(&rt, alloc, 8, &[0, 31, 255, 253], Answer::NoAnswer, &[]);
}

/// A frame of so many bytes: its length behind the header, and zeros.
fn frame_of(alloc: Global, len: u32) -> Result<Vec<u8>, AllocError> {
    let behind = len.saturating_sub(4);
    let mut frame = Vec::new(alloc);
    frame.extend_from_slice(&behind.to_be_bytes())?;
    frame.extend_from_slice(&vec![in alloc; 0u8; behind as usize]?)?;
    Ok(frame)
}

#[test]
fn the_longest_frame_is_read(rt: HostRuntime) -> Result<(), Fail> {
    let longest = frame_of(rt.alloc(), MAX_FRAME as u32)?;
    expect_over(&rt, rt.alloc(), 8, &longest, Answer::Got, &longest);
    Ok(())
}
