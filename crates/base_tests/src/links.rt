//! Links over sockets of this machine.
use io_base::{Answer, CONNECT_SECONDS, Exchange, Link, TcpLink, Waits};
use std::io::{Read, Write};
use std::net::{Ipv4Addr, Net, SocketAddr, TcpListener, TcpStream};
use std::process::Abort;
use std::sync::atomic::{AtomicBool, AtomicU64, Ordering};
use std::test::Fail;
use std::thread::Threads;
use std::time::{Clock, Duration, Instant};
use std::{io, thread};
use ubik_types::Host;

/// This machine, 127.0.0.1.
const LOOPBACK: Host = Host(2_130_706_433);

const FRAME: [u8; 8] = [0, 0, 0, 4, 0, 0, 0, 9];

fn listen<N>(rt: &N) -> io::Result<(TcpListener, u16)>
where
    N: Net<Listener = TcpListener, Stream = TcpStream>,
{
    let listener = TcpListener::bind(rt, SocketAddr::from((Ipv4Addr::LOCALHOST, 0)))?;
    let port = listener.local_addr()?.port();
    Ok((listener, port))
}

/// What a server does with a connection.
enum Deed {
    /// Takes a frame of eight bytes.
    Takes,
    /// Takes so many frames, and gives each of them back.
    Echoes(u32),
    /// Waits for a moment.
    Waits,
    Writes(&'static [u8]),
    /// Writes a byte each moment, a hundred times.
    Drips,
}

/// What a server does with the one connection that it takes, one deed after the other, and how each ask ends meanwhile.
struct Row {
    deeds: &'static [Deed],
    answers: &'static [Answer],
    /// Whether the server comes to its end. Else the peer closes the connection before.
    ends: bool,
}

const ROWS: [Row; 6] = [
    // One connection serves two asks. It is closed from here on, so the next row goes over another one.
    Row {
        deeds: &[Deed::Echoes(2)],
        answers: &[Answer::Got, Answer::Got],
        ends: true,
    },
    // The second frame is taken without an answer.
    Row {
        deeds: &[Deed::Echoes(1), Deed::Takes],
        answers: &[Answer::Got, Answer::NoAnswer],
        ends: true,
    },
    // It answers after a moment.
    Row {
        deeds: &[Deed::Takes, Deed::Waits, Deed::Writes(&FRAME)],
        answers: &[Answer::Got],
        ends: true,
    },
    // It closes in the middle of a frame.
    Row {
        deeds: &[Deed::Takes, Deed::Writes(&[0, 0, 0, 4, 0, 0])],
        answers: &[Answer::NoAnswer],
        ends: true,
    },
    // It claims a frame of 4 GiB, and waits for the peer to close.
    Row {
        deeds: &[
            Deed::Takes,
            Deed::Writes(&[255, 255, 255, 255]),
            Deed::Takes,
        ],
        answers: &[Answer::NoAnswer],
        ends: false,
    },
    // A frame that would take a minute.
    Row {
        deeds: &[Deed::Takes, Deed::Writes(&[0, 0, 4, 176]), Deed::Drips],
        answers: &[Answer::NoAnswer],
        ends: false,
    },
];

/// In milliseconds, as those below.
const MOMENT: u64 = 50;

/// How long a reply may take.
const REPLY: u64 = 500;

/// Longer than a row takes, on a machine that has much else to do, and shorter than a hundred moments.
const SOON: u64 = 4_000;

fn take(stream: &mut TcpStream) -> io::Result<()> {
    stream.read_exact(&mut [0; 8])
}

fn echo(stream: &mut TcpStream, count: u32) -> io::Result<()> {
    for _ in 0..count {
        take(stream)?;
        stream.write_all(&FRAME)?;
    }
    Ok(())
}

fn drip(clock: &impl Clock, stream: &mut TcpStream) -> io::Result<()> {
    for _ in 0..100 {
        thread::sleep(clock, Duration::from_millis(MOMENT));
        stream.write_all(&[7])?;
    }
    Ok(())
}

fn serve_deed(clock: &impl Clock, stream: &mut TcpStream, deed: &Deed) -> io::Result<()> {
    match deed {
        Deed::Takes => take(stream),
        Deed::Echoes(count) => echo(stream, *count),
        Deed::Waits => {
            thread::sleep(clock, Duration::from_millis(MOMENT));
            Ok(())
        }
        Deed::Writes(bytes) => stream.write_all(bytes),
        Deed::Drips => drip(clock, stream),
    }
}

/// Does all deeds with the connection that comes.
fn serve(clock: &impl Clock, listener: &TcpListener, deeds: &[Deed]) -> io::Result<()> {
    let (mut stream, _) = listener.accept()?;
    for deed in deeds {
        serve_deed(clock, &mut stream, deed)?;
    }
    Ok(())
}

/// How many of so many asks are answered.
fn ask_many<L: Link>(link: &mut L, port: u16, count: usize, reply: &mut Vec<u8>) -> usize {
    let mut answered = 0usize;
    for _ in 0..count {
        if link.ask(LOOPBACK, port, &FRAME, reply) == Answer::Got {
            answered = answered.saturating_add(1);
        }
    }
    answered
}

/// How many of so many asks in each of so many commands are answered.
fn ask_commands<N: Net<Stream = TcpStream> + Clock + Drop>(
    link: &mut TcpLink<N>,
    port: u16,
    (commands, asks): (u32, usize),
    reply: &mut Vec<u8>,
) -> usize {
    let mut answered = 0usize;
    for _ in 0..commands {
        link.begin_command();
        answered = answered.saturating_add(ask_many(link, port, asks, reply));
    }
    answered
}

/// Asks so while a server does these deeds: how many asks are answered, and whether the server comes to its end.
fn ask_served<R: Threads + Clock + Sync, N: Net<Stream = TcpStream> + Clock + Drop>(
    rt: &R,
    (listener, port): (&TcpListener, u16),
    deeds: &[Deed],
    link: &mut TcpLink<N>,
    asks: (u32, usize),
    reply: &mut Vec<u8>,
) -> (usize, bool) {
    let (ends, answered) = thread::join(
        rt,
        move || serve(rt, listener, deeds).is_ok(),
        move || ask_commands(link, port, asks, reply),
    );
    (answered, ends)
}

/// What an ask that ends so hands back.
fn reply_at(answer: Answer) -> &'static [u8] {
    if answer == Answer::Got { &FRAME } else { &[] }
}

fn is_exchange(exchange: &Exchange, port: u16, answer: Answer) -> bool {
    exchange.host == LOOPBACK
        && exchange.port == port
        && exchange.frame.as_slice() == FRAME.as_slice()
        && exchange.answer == answer
        && exchange.reply.as_slice() == reply_at(answer)
}

/// These are the exchanges of asks that ended so, and the reply is that of the last one.
fn expect_exchanges(
    rt: &impl Abort,
    exchanges: &[Exchange],
    port: u16,
    answers: &[Answer],
    reply: &[u8],
) {
    assert_eq!(rt; exchanges.len(), answers.len());
    let mut last: &[u8] = &[];
    for (exchange, answer) in exchanges.iter().zip(answers) {
        assert!(rt; is_exchange(exchange, port, *answer), "{answer:?}");
        last = reply_at(*answer);
    }
    assert_eq!(rt; reply, last);
}

fn expect_row<R: Threads + Abort + Clock + Sync, N: Net<Stream = TcpStream> + Clock + Drop>(
    rt: &R,
    at: (&TcpListener, u16),
    link: &mut TcpLink<N>,
    row: &Row,
    reply: &mut Vec<u8>,
) -> io::Result<()> {
    let start = Instant::now(rt)?;
    let (_, ends) = ask_served(rt, at, row.deeds, link, (1, row.answers.len()), reply);
    let took = start.elapsed(rt)?;
    assert!(rt; took < Duration::from_millis(SOON));
    assert_eq!(rt; ends, row.ends);
    expect_exchanges(rt, link.exchanges(), at.1, row.answers, reply.as_slice());
    Ok(())
}

/// Servers that answer, are slow, break off, and are none.
#[test]
fn asks_over_the_loopback(rt: HostRuntime) -> Result<(), Fail> {
    let (listener, port) = listen(&rt)?;
    let waits = Waits {
        connect: Duration::from_millis(SOON),
        reply: Duration::from_millis(REPLY),
    };
    let mut link = TcpLink::with_waits(rt, rt.alloc(), waits);
    let mut reply = Vec::new(rt.alloc());
    for row in &ROWS {
        expect_row(&rt, (&listener, port), &mut link, row, &mut reply)?;
    }
    drop(listener);
    assert_eq!(rt; ask_commands(&mut link, port, (1, 1), &mut reply), 0);
    expect_exchanges(&rt, link.exchanges(), port, &[Answer::NotSent], &reply);
    Ok(())
}

/// A net that counts how often a connection is tried, and over which none comes while it is down.
#[derive(Drop)]
struct CountedNet {
    rt: HostRuntime,
    down: AtomicBool,
    tries: AtomicU64,
    /// How long the last try had, in seconds.
    wait: AtomicU64,
}

impl Net for CountedNet {
    type Stream = TcpStream;

    type Listener = TcpListener;

    fn bind(&self, addr: SocketAddr) -> io::Result<TcpListener> {
        self.rt.bind(addr)
    }

    fn connect(&self, addr: SocketAddr) -> io::Result<TcpStream> {
        self.rt.connect(addr)
    }

    fn connect_timeout(&self, addr: SocketAddr, timeout: Duration) -> io::Result<TcpStream> {
        self.tries.fetch_add(1, Ordering::SeqCst);
        self.wait.store(timeout.as_secs(), Ordering::SeqCst);
        if self.down.load(Ordering::SeqCst) {
            return Err(io::Error::from(io::ErrorKind::TimedOut));
        }
        self.rt.connect_timeout(addr, timeout)
    }
}

impl Clock for CountedNet {
    fn monotonic(&self) -> io::Result<Duration> {
        self.rt.monotonic()
    }

    fn since_1970(&self) -> io::Result<Duration> {
        self.rt.since_1970()
    }
}

/// What a server does that answers a thousand asks.
const THOUSAND: [Deed; 1] = [Deed::Echoes(1_000)];

/// A host that takes no connection is tried once a command, and one connection serves a thousand asks of two commands.
#[test]
fn connections_are_tried_once_and_kept(rt: HostRuntime) -> Result<(), Fail> {
    let (listener, port) = listen(&rt)?;
    let net = CountedNet {
        rt,
        down: AtomicBool::new(true),
        tries: AtomicU64::new(0),
        wait: AtomicU64::new(0),
    };
    let mut link = TcpLink::make(&net, rt.alloc());
    let mut reply = Vec::new(rt.alloc());
    for _ in 0..3 {
        assert_eq!(rt; ask_many(&mut link, port, 1, &mut reply), 0);
        assert_eq!(rt; net.tries.load(Ordering::SeqCst), 1);
        net.down.store(false, Ordering::SeqCst);
    }
    assert_eq!(rt; net.wait.load(Ordering::SeqCst), u64::from(CONNECT_SECONDS));
    let answers = [Answer::NotSent, Answer::NotSent, Answer::NotSent];
    expect_exchanges(&rt, link.exchanges(), port, &answers, &reply);
    let at = (&listener, port);
    let served = ask_served(&rt, at, &THOUSAND, &mut link, (2, 500), &mut reply);
    assert_eq!(rt; served, (1_000, true));
    assert_eq!(rt; net.tries.load(Ordering::SeqCst), 2);
    assert_eq!(rt; link.exchanges().len(), 500);
    Ok(())
}
