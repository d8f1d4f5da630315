//! What the tests have in common: a net with its clients, and frames.
use io_base::{Net, NetGot, NetPut};
use std::alloc::Global;
use std::io::{self, Read, Write};
use std::net::{Ipv4Addr, Net as Sockets, SocketAddr, TcpListener, TcpStream};
use std::process::Abort;
use std::sync::Wait;
use std::test::Fail;
use std::thread;
use std::time::{Clock, Duration};
use tcp_net::{NetFault, TcpNet};
use ubik_types::Host;

/// Two servers of a cell on this machine, 127.0.0.2 and 127.0.0.3.
pub const FIRST: Host = Host(0x7f00_0002);

pub const SECOND: Host = Host(0x7f00_0003);

/// A host of this machine that is no server of the cell, 127.0.0.1.
pub const HERE: Host = Host(0x7f00_0001);

/// Every address of this machine. A net that listens there has no connection from its cell.
pub const ANY: Host = Host(0);

/// An Ask of four bytes.
pub const ASK: [u8; 12] = [0, 0, 0, 8, 0, 0, 0, 1, 1, 2, 3, 4];

/// A second Ask.
pub const OTHER: [u8; 9] = [0, 0, 0, 5, 0, 0, 0, 1, 9];

/// Both, one behind the other.
pub const BOTH: [u8; 21] = [
    0, 0, 0, 8, 0, 0, 0, 1, 1, 2, 3, 4, 0, 0, 0, 5, 0, 0, 0, 1, 9,
];

/// A packet.
pub const PACKET: [u8; 8] = [0, 0, 0, 4, 0, 0, 0, 0];

/// A port at which nobody listens.
pub fn free_port<R>(rt: &R) -> io::Result<u16>
where
    R: Sockets<Listener = TcpListener, Stream = TcpStream>,
{
    let listener = TcpListener::bind(rt, SocketAddr::from((Ipv4Addr::UNSPECIFIED, 0)))?;
    Ok(listener.local_addr()?.port())
}

/// A client's connection, whose reads wait no longer than 20 seconds.
pub fn client<R>(rt: &R, host: Host, port: u16) -> io::Result<TcpStream>
where
    R: Sockets<Listener = TcpListener, Stream = TcpStream>,
{
    let stream = TcpStream::connect(rt, SocketAddr::from((Ipv4Addr::from_bits(host.0), port)))?;
    stream.set_nodelay(true)?;
    stream.set_read_timeout(Some(Duration::from_secs(20)))?;
    Ok(stream)
}

/// A net of a cell of the two servers.
pub fn open<R>(rt: R, alloc: Global, host: Host, port: u16) -> Result<TcpNet<R>, NetFault>
where
    R: Sockets + Wait + Clock + Drop,
{
    TcpNet::open(rt, alloc, host, port, &[FIRST, SECOND])
}

/// The next frame of a net is this one. Answers its peer.
pub fn next_frame<N: Net>(rt: &impl Abort, net: &N, buffer: &mut Vec<u8>, frame: &[u8]) -> u64 {
    let got = net.recv(buffer);
    assert_eq!(rt; buffer.as_slice(), frame);
    match got {
        NetGot::Frame { peer } => peer,
        _ => panic!(rt; "no frame"),
    }
}

/// A net, and a client that asks it now and then.
#[derive(Drop)]
pub struct Machine<N> {
    pub net: N,
    asking: TcpStream,
    buffer: Vec<u8>,
}

/// A net at an address and a port, with a client that comes to a host.
pub fn open_machine<R>(
    rt: R,
    alloc: Global,
    at: Host,
    (host, port): (Host, u16),
) -> Result<Machine<TcpNet<R>>, Fail>
where
    R: Sockets<Listener = TcpListener, Stream = TcpStream> + Wait + Clock + Drop + Copy,
{
    let net = open(rt, alloc, at, port)?;
    let asking = client(&rt, host, port)?;
    let buffer = Vec::new(alloc);
    Ok(Machine {
        net,
        asking,
        buffer,
    })
}

impl<N: Net> Machine<N> {
    /// The next frame is this one. Answers its peer.
    pub fn expect_frame(&mut self, rt: &impl Abort, frame: &[u8]) -> u64 {
        next_frame(rt, &self.net, &mut self.buffer, frame)
    }

    /// The client asks, the net hands the frame out and gives it back, and the client has it.
    pub fn expect_echo(&mut self, rt: &impl Abort) -> io::Result<()> {
        self.asking.write_all(&ASK)?;
        let peer = self.expect_frame(rt, &ASK);
        assert_eq!(rt; self.net.answer(peer, &self.buffer), NetPut::Sent);
        self.net.release(peer);
        let mut reply = [0; 12];
        self.asking.read_exact(&mut reply)?;
        assert_eq!(rt; reply, ASK);
        Ok(())
    }

    /// So many times after a rest the client is answered.
    pub fn rest<R: Abort + Clock>(&mut self, rt: &R, times: u32) -> io::Result<()> {
        for _ in 0..times {
            thread::sleep(rt, Duration::from_millis(30));
            self.expect_echo(rt)?;
        }
        Ok(())
    }
}
