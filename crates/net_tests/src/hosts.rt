//! What goes to the other servers of a cell, and back to clients.
use crate::machines::{
    ANY, ASK, FIRST, HERE, OTHER, PACKET, SECOND, client, free_port, next_frame, open, open_machine,
};
use io_base::{Net, NetPut};
use std::alloc::Global;
use std::io::{self, Read, Write};
use std::net::TcpStream;
use std::process::Abort;
use std::test::Fail;
use std::thread;
use std::thread::Threads;
use std::time::{Duration, Instant};
use ubik_types::Host;

/// Bytes of a long frame, and the word in front of it.
const LONG: usize = 65_536;

const LONG_HEAD: [u8; 4] = [0, 0, 0xff, 0xfc];

/// More long frames than wait anywhere, the system's own buffers counted.
const TOO_MANY: u8 = 200;

/// Two packets go from one net to the other, which ends then.
fn expect_packets<N: Net>(rt: &impl Abort, first: &N, second: &N, buffer: &mut Vec<u8>) {
    for _ in 0..2 {
        assert_eq!(rt; first.send(SECOND, &PACKET), NetPut::Sent);
        let peer = next_frame(rt, second, buffer, &PACKET);
        second.release(peer);
    }
    second.close();
}

/// How many of 200 packets to a server are lost.
fn lost<N: Net>(net: &N) -> u32 {
    let mut lost = 0u32;
    for _ in 0..200 {
        if net.send(SECOND, &PACKET) == NetPut::Failed {
            lost = lost.saturating_add(1);
        }
    }
    lost
}

/// What goes to no server, and what is no frame.
fn expect_failed<N: Net>(rt: &impl Abort, net: &N) {
    assert_eq!(rt; net.send(Host(9), &PACKET), NetPut::Failed);
    assert_eq!(rt; net.send(SECOND, &PACKET[..7]), NetPut::Failed);
    let _ = net.send(SECOND, &PACKET);
}

/// A server that starts again under its address has the first packet, and those that nobody heard are lost.
#[test]
fn a_peer_starts_again(rt: HostRuntime) -> Result<(), Fail> {
    let (port, alloc) = (free_port(&rt)?, rt.alloc());
    let first = open(rt, alloc, FIRST, port)?;
    let mut buffer = Vec::new(alloc);
    expect_failed(&rt, &first);
    for _ in 0..3 {
        // By then a connection may be tried again, and the end of the last one is known.
        thread::sleep(&rt, Duration::from_millis(300));
        expect_packets(&rt, &first, &open(rt, alloc, SECOND, port)?, &mut buffer);
    }
    let began = Instant::now(&rt)?;
    assert!(rt; lost(&first) >= 100);
    assert!(rt; began.elapsed(&rt)? < Duration::from_secs(20));
    Ok(())
}

/// While a client reads so many frames and asks once more, that is waited for. Whether all came as it was sent, and what became of
/// the answer.
fn read_and_ask<R: Threads + Abort + Sync, N: Net>(
    rt: &R,
    alloc: Global,
    net: &N,
    slow: &mut TcpStream,
    long: &mut [u8],
    sent: u8,
) -> (io::Result<bool>, NetPut) {
    thread::join(
        rt,
        move || {
            let read = read_long_frames(slow, long, sent);
            if read.is_err() {
                // The other thread waits for a frame that does not come.
                net.close();
            }
            read
        },
        move || {
            let peer = next_frame(rt, net, &mut Vec::new(alloc), &OTHER);
            net.answer(peer, &OTHER)
        },
    )
}

/// What waits for a client, of which one frame is out, is bounded, and comes whole and in order.
fn expect_slow<R: Threads + Abort + Sync, N: Net>(
    rt: &R,
    alloc: Global,
    net: &N,
    peer: u64,
    slow: &mut TcpStream,
) -> Result<(), Fail> {
    let mut long = vec![in alloc; 0u8; LONG]?;
    long[..4].copy_from_slice(&LONG_HEAD);
    let sent = answer_until_full(net, peer, &mut long);
    assert!(rt; 0 < sent && sent < TOO_MANY, "{sent} frames were sent");
    assert_eq!(rt; net.answer(peer.wrapping_add(512), &OTHER), NetPut::Failed);
    net.release(peer);
    let (read, put) = read_and_ask(rt, alloc, net, slow, &mut long, sent);
    assert!(rt; read?);
    assert_eq!(rt; put, NetPut::Sent);
    Ok(())
}

/// What a client does not read waits, up to a bound, and comes whole and in order.
#[test]
fn a_slow_client_has_whole_frames(rt: HostRuntime) -> Result<(), Fail> {
    let (port, alloc) = (free_port(&rt)?, rt.alloc());
    let mut machine = open_machine(rt, alloc, ANY, (HERE, port))?;
    let mut slow = client(&rt, HERE, port)?;
    slow.write_all(&ASK)?;
    let peer = machine.expect_frame(&rt, &ASK);
    expect_slow(&rt, alloc, &machine.net, peer, &mut slow)
}

/// Answers with long frames, which end with their numbers, until one is not taken. Answers how many were.
fn answer_until_full<N: Net>(net: &N, peer: u64, frame: &mut [u8]) -> u8 {
    for number in 0..TOO_MANY {
        if let Some(last) = frame.last_mut() {
            *last = number;
        }
        if net.answer(peer, frame) == NetPut::Failed {
            return number;
        }
    }
    TOO_MANY
}

/// Reads so many long frames, and asks once more. Answers whether each began and ended as it was sent.
fn read_long_frames(slow: &mut TcpStream, frame: &mut [u8], count: u8) -> io::Result<bool> {
    let mut are_whole = true;
    for number in 0..count {
        slow.read_exact(frame)?;
        are_whole &= frame.starts_with(&LONG_HEAD) && frame.last() == Some(&number);
    }
    slow.write_all(&OTHER)?;
    Ok(are_whole)
}
