//! What comes over a connection, and what is given out of it.
use crate::machines::{
    ANY, ASK, BOTH, FIRST, HERE, Machine, OTHER, PACKET, client, free_port, open_machine,
};
use io_base::Net;
use std::io::{self, Read, Write};
use std::net::TcpStream;
use std::process::Abort;
use std::test::Fail;
use std::time::Clock;
use tcp_net::Note;

/// Whether the other side closes a connection over which nothing comes.
fn is_closed(stream: &mut TcpStream) -> bool {
    match stream.read(&mut [0; 4]) {
        Ok(count) => count == 0,
        Err(e) => e.kind() == io::ErrorKind::ConnectionReset,
    }
}

/// What a client writes, in two parts where it rests in between, the frames that it is, and whether the connection is closed then.
struct Row {
    bytes: &'static [u8],
    /// Where the second part begins.
    rests: usize,
    frames: &'static [&'static [u8]],
    closes: bool,
}

const ROWS: [Row; 6] = [
    Row {
        bytes: &ASK,
        rests: 5,
        frames: &[&ASK],
        closes: false,
    },
    Row {
        bytes: &ASK,
        rests: 2,
        frames: &[&ASK],
        closes: false,
    },
    Row {
        bytes: &BOTH,
        rests: 21,
        frames: &[&ASK, &OTHER],
        closes: false,
    },
    Row {
        bytes: &[0, 0, 0, 0],
        rests: 4,
        frames: &[&[0, 0, 0, 0]],
        closes: false,
    },
    Row {
        bytes: &PACKET,
        rests: 8,
        frames: &[&PACKET],
        closes: false,
    },
    Row {
        bytes: &[0, 0x1f, 0xff, 0xfd, 0],
        rests: 5,
        frames: &[],
        closes: true,
    },
];

/// The bytes of a row come over a connection.
fn write_row<R: Abort + Clock, N: Net>(
    rt: &R,
    machine: &mut Machine<N>,
    stream: &mut TcpStream,
    row: &Row,
) -> io::Result<()> {
    let (first, second) = row.bytes.split_at(row.rests.min(row.bytes.len()));
    stream.write_all(first)?;
    if !second.is_empty() {
        machine.rest(rt, 1)?;
        stream.write_all(second)?;
    }
    Ok(())
}

/// These frames come, and are released.
fn expect_frames<N: Net>(rt: &impl Abort, machine: &mut Machine<N>, frames: &[&[u8]]) {
    for frame in frames {
        let peer = machine.expect_frame(rt, frame);
        machine.net.release(peer);
    }
}

/// In a moment a connection is closed by the other side.
fn expect_closed<R: Abort + Clock, N: Net>(
    rt: &R,
    machine: &mut Machine<N>,
    stream: &mut TcpStream,
) -> io::Result<()> {
    machine.rest(rt, 3)?;
    assert!(rt; is_closed(stream));
    Ok(())
}

fn expect_row<R: Abort + Clock, N: Net>(
    rt: &R,
    machine: &mut Machine<N>,
    stream: &mut TcpStream,
    row: &Row,
) -> io::Result<()> {
    write_row(rt, machine, stream, row)?;
    expect_frames(rt, machine, row.frames);
    if row.closes {
        expect_closed(rt, machine, stream)?;
    }
    Ok(())
}

/// What is written in one or two parts. A connection that ends in the middle of a frame gives nothing, and a frame before an end is
/// given.
#[test]
fn frames_are_cut_by_their_lengths(rt: HostRuntime) -> Result<(), Fail> {
    let port = free_port(&rt)?;
    let mut machine = open_machine(rt, rt.alloc(), FIRST, (FIRST, port))?;
    for row in &ROWS {
        expect_row(&rt, &mut machine, &mut client(&rt, FIRST, port)?, row)?;
    }
    client(&rt, FIRST, port)?.write_all(&ASK[..7])?;
    client(&rt, FIRST, port)?.write_all(&OTHER)?;
    expect_frames(&rt, &mut machine, &[&OTHER]);
    machine.expect_echo(&rt)?;
    Ok(())
}

/// While a frame is out, the next one of its connection waits, and those of others do not.
fn expect_order<R: Abort + Clock, N: Net>(
    rt: &R,
    machine: &mut Machine<N>,
    stream: &mut TcpStream,
) -> io::Result<()> {
    stream.write_all(&BOTH)?;
    let peer = machine.expect_frame(rt, &ASK);
    stream.write_all(&BOTH)?;
    machine.rest(rt, 3)?;
    for frame in [OTHER.as_slice(), &ASK, &OTHER] {
        machine.net.release(peer);
        assert_eq!(rt; machine.expect_frame(rt, frame), peer);
    }
    // A number that has gone, and one that never was, release nothing.
    machine.net.release(peer.wrapping_add(512));
    machine.net.release(3);
    machine.expect_echo(rt)
}

#[test]
fn frames_of_a_connection_wait_for_each_other(rt: HostRuntime) -> Result<(), Fail> {
    let port = free_port(&rt)?;
    let mut machine = open_machine(rt, rt.alloc(), FIRST, (FIRST, port))?;
    expect_order(&rt, &mut machine, &mut client(&rt, FIRST, port)?)?;
    Ok(())
}

/// A packet is taken from the cell alone. The first of a minute is noted.
#[test]
fn a_stranger_brings_no_packet(rt: HostRuntime) -> Result<(), Fail> {
    let port = free_port(&rt)?;
    let mut machine = open_machine(rt, rt.alloc(), ANY, (HERE, port))?;
    assert_eq!(rt; machine.net.take_note(), None);
    for note in [Some(Note::Stranger(HERE)), None] {
        let mut stranger = client(&rt, HERE, port)?;
        stranger.write_all(&PACKET)?;
        expect_closed(&rt, &mut machine, &mut stranger)?;
        assert_eq!(rt; machine.net.take_note(), note);
    }
    Ok(())
}

/// Connections that say nothing, each with a head that claims two megabytes.
#[test]
fn silent_connections_keep_nobody_waiting(rt: HostRuntime) -> Result<(), Fail> {
    let port = free_port(&rt)?;
    let mut machine = open_machine(rt, rt.alloc(), FIRST, (FIRST, port))?;
    let mut silent = Vec::new(rt.alloc());
    for _ in 0..200 {
        let mut stream = client(&rt, FIRST, port)?;
        stream.write_all(&[0, 0x1f, 0xff, 0xfc])?;
        silent.push(stream)?;
    }
    for _ in 0..100 {
        machine.expect_echo(&rt)?;
    }
    Ok(())
}
