//! A net in memory, clocks, and what starts threads.
use io_base::{
    Clock, Job, ListClock, MemFrame, MemNet, MemSent, Net, NetGot, NetPut, NoSpawner, Paused,
    Spawner, Started, ThreadSpawner, WallClock,
};
use std::alloc::Global;
use std::process::Abort;
use std::sync::Wait;
use std::test::Fail;
use std::thread::Threads;
use std::time::Duration;
use std::{io, thread, time};
use ubik_types::{Host, bytes_of};

const SERVER: Host = Host(167_772_161);

/// A frame of two bytes from each peer.
fn frames_from(alloc: Global, peers: &[u8]) -> Result<Vec<MemFrame>, Fail> {
    let mut frames = Vec::new(alloc);
    for peer in peers {
        let frame = bytes_of(alloc, &[*peer, 9])?;
        frames.push(MemFrame {
            peer: u64::from(*peer),
            frame,
        })?;
    }
    Ok(frames)
}

/// A value of this type may go to another thread.
fn sends<T: Send>(_value: &T) {}

/// What a pause and a receipt answer in a turn over a net that is closed there.
fn told_at(peers: &[u8], turn: usize, closed: usize) -> (Paused, NetGot) {
    if closed <= turn {
        return (Paused::Ended, NetGot::Ended);
    }
    match peers.get(turn) {
        Some(peer) => {
            let peer = u64::from(*peer);
            (Paused::Yes, NetGot::Frame { peer })
        }
        None => (Paused::Closed, NetGot::Closed),
    }
}

/// Whether this is the frame of the peer, or nothing.
fn is_of(frame: &[u8], got: NetGot) -> bool {
    match got {
        NetGot::Frame { peer } => frame == [peer.to_le_bytes()[0], 9].as_slice(),
        _ => frame.is_empty(),
    }
}

/// A turn: a pause and a receipt with these answers, and the turn's number is sent.
fn expect_turn<N: Net>(
    rt: &impl Abort,
    net: &N,
    turn: usize,
    (paused, got): (Paused, NetGot),
    frame: &mut Vec<u8>,
) {
    assert_eq!(rt; net.pause(3_600), paused);
    assert_eq!(rt; net.recv(frame), got);
    assert!(rt; is_of(frame.as_slice(), got));
    assert_eq!(rt; net.send(SERVER, &turn.to_le_bytes()), NetPut::Sent);
    assert_eq!(rt; net.answer(7, &[]), NetPut::Sent);
}

/// Whether a turn has sent this, at its place in all that was sent.
fn is_sent(sent: &MemSent, at: usize) -> bool {
    match sent {
        MemSent::To { host, frame } => {
            let turn = (at / 2).to_le_bytes();
            at % 2 == 0 && *host == SERVER && frame.as_slice() == turn.as_slice()
        }
        MemSent::Back { peer, frame } => {
            at % 2 == 1 && *peer == 7 && frame.as_slice().is_empty()
        }
    }
}

/// Each turn over a net of these peers, which is closed at one of them, and what was sent then.
fn expect_net<R: Wait + Abort + Drop + Send + Sync + Copy>(
    rt: R,
    alloc: Global,
    peers: &[u8],
    closed: usize,
) -> Result<(), Fail> {
    let net = MemNet::new(rt, frames_from(alloc, peers)?);
    sends(&net);
    let mut frame = Vec::from_array(alloc, [1, 2, 3])?;
    for turn in 0..peers.len() + 2 {
        if closed == turn {
            net.close();
        }
        expect_turn(&rt, &net, turn, told_at(peers, turn, closed), &mut frame);
    }
    expect_all_sent(&rt, &net.sent(), peers.len() + 2);
    Ok(())
}

/// So many turns have sent this.
fn expect_all_sent(rt: &impl Abort, sent: &[MemSent], turns: usize) {
    assert_eq!(rt; (sent.len() / 2, sent.len() % 2), (turns, 0));
    for (at, entry) in sent.iter().enumerate() {
        assert!(rt; is_sent(entry, at));
    }
}

/// Nets of up to three frames, which close by themselves or are closed at each turn.
#[test]
fn frames_of_a_net_in_memory(rt: HostRuntime) -> Result<(), Fail> {
    for peers in [[].as_slice(), &[4], &[4, 4], &[5, 3, 4]] {
        // At the last place it is not closed any more.
        for closed in 0..peers.len() + 3 {
            expect_net(rt, rt.alloc(), peers, closed)?;
        }
    }
    Ok(())
}

/// A machine whose clock stands, or cannot be read.
#[derive(Clone, Copy)]
struct Stopped(Option<u64>);

impl time::Clock for Stopped {
    fn monotonic(&self) -> io::Result<Duration> {
        self.since_1970()
    }

    fn since_1970(&self) -> io::Result<Duration> {
        match self.0 {
            Some(second) => Ok(Duration::from_secs(second)),
            None => Err(io::Error::from(io::ErrorKind::Unsupported)),
        }
    }
}

/// The moments of a clock, the last of which comes again.
fn expect_moments(rt: &impl Abort, clock: &impl Clock, told: &[u32; 3]) {
    for turn in 0..5 {
        assert_eq!(rt; clock.now(), told[turn.min(2)]);
    }
}

/// The last moment that there is.
const LAST: u32 = 2_147_483_647;

/// A second of a stopped machine, and the moment of its clock.
const MACHINES: [(Option<u64>, u32); 7] = [
    (None, 1),
    (Some(0), 1),
    (Some(1), 1),
    (Some(2), 2),
    (Some(2_147_483_647), LAST),
    (Some(2_147_483_648), LAST),
    (Some(4_294_967_297), LAST),
];

/// Clocks over lists, over stopped machines, and the real one.
#[test]
fn moments_of_clocks(rt: HostRuntime) -> Result<(), Fail> {
    for told in [[1, 1, 1], [1, 1, LAST], [7, 8, 8], [LAST, LAST, LAST]] {
        let clock = ListClock::new(rt, Vec::from_array(rt.alloc(), told)?);
        sends(&clock);
        expect_moments(&rt, &clock, &told);
    }
    for (second, moment) in MACHINES {
        assert_eq!(rt; WallClock::new(Stopped(second)).now(), moment);
    }
    // The year 2023.
    assert!(rt; WallClock::new(rt).now() > 1_700_000_000);
    Ok(())
}

/// Gives back all frames that come.
#[derive(Drop)]
struct Echo<'a, N: Net> {
    net: &'a N,
    frame: Vec<u8>,
}

impl<'a, N: Net> Job for Echo<'a, N> {
    fn run(self) {
        let Echo { net, mut frame } = self;
        for _ in 0..100 {
            let NetGot::Frame { peer } = net.recv(&mut frame) else {
                return;
            };
            net.answer(peer, &frame);
        }
    }
}

/// Starts three jobs over one net. How often a thread was had?
fn start_three<R: Threads + Wait + Sync, N: Net, S: Spawner>(
    rt: &R,
    alloc: Global,
    net: &N,
    spawner: &S,
) -> usize {
    thread::scope(thread::scope_env(), rt, |scope| {
        let mut count = 0usize;
        for _ in 0..3usize {
            let frame = Vec::new(alloc);
            if spawner.start(scope, Echo { net, frame }) == Started::Yes {
                count = count.saturating_add(1);
            }
        }
        count
    })
}

/// The sum of the peers that have their frames back.
fn peers_of(rt: &impl Abort, sent: &[MemSent]) -> u64 {
    let mut sum = 0u64;
    for entry in sent {
        if let MemSent::Back { peer, frame } = entry {
            assert!(rt; is_of(frame.as_slice(), NetGot::Frame { peer: *peer }));
            sum = sum.wrapping_add(*peer);
        }
    }
    sum
}

/// How many of three jobs over six frames get a thread; how many frames go back, and the sum of their peers.
fn jobs_by<R: Threads + Wait + Abort + Drop + Sync + Copy, S: Spawner>(
    rt: R,
    alloc: Global,
    spawner: &S,
) -> Result<(usize, usize, u64), Fail> {
    let net = MemNet::new(rt, frames_from(alloc, &[1, 2, 4, 8, 16, 32])?);
    let started = start_three(&rt, alloc, &net, spawner);
    let sent = net.sent();
    Ok((started, sent.len(), peers_of(&rt, &sent)))
}

/// Jobs in threads, and jobs that get none.
#[test]
fn jobs_of_a_spawner(rt: HostRuntime) -> Result<(), Fail> {
    assert_eq!(rt; jobs_by(rt, rt.alloc(), &ThreadSpawner)?, (3, 6, 63));
    assert_eq!(rt; jobs_by(rt, rt.alloc(), &NoSpawner)?, (0, 0, 0));
    Ok(())
}
