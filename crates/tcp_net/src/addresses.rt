//! The addresses of a cell, as its connections show them.
ghost use Rattle.std.specs.Prelude.{◌≡◌, ◌/◌, ◌==◌};
ghost use Rattle.tcp_net.specs.Origins.{is_of_cell, origin_of};

use crate::connections::Origin;
use std::net::{Ipv4Addr, SocketAddr};
use ubik_types::Host;

/// This machine, 127.0.0.1, from which every connection comes that was not bound before it was made.
const LOOPBACK: Host = Host(0x7f00_0001);

/// The own address and those of the other servers.
#[derive(Drop)]
pub(crate) struct Addresses {
    pub own: Host,
    pub peers: Vec<Host>,
}

impl Addresses {
    /// The place of a server in the list of the others.
    pub(crate) fn place_of(&self, host: Host) -> Option<usize> {
        self.peers.iter().position(|peer| *peer == host)
    }

    /// Whether a connection from there comes from the cell. A server at a loopback address has all its peers on its
    /// own machine, and their connections come from 127.0.0.1.
    pub(crate) fn has(&self, host: Host) -> bool
        ensures { result ≡ is_of_cell self.now host }
    {
        host == self.own
            || self.peers.contains(&host)
            || (host == LOOPBACK && is_loopback(self.own))
    }

    /// What a connection from there counts as.
    pub(crate) fn origin_of(&self, host: Host) -> Origin
        ensures { result ≡ origin_of self.now host }
    {
        if self.has(host) {
            Origin::Cell(host)
        } else {
            Origin::Client(host)
        }
    }
}

/// Whether an address is one of 127.0.0.0/8.
fn is_loopback(host: Host) -> bool
    ensures { result ≡ (host.0 / 16777216 == 127) }
{
    host.0 / 16_777_216 == 127
}

pub(crate) fn socket_address(host: Host, port: u16) -> SocketAddr {
    SocketAddr::from((Ipv4Addr::from_bits(host.0), port))
}

/// The host of an address. One of another family, which a listener at a host never sees, is no host of a cell.
pub(crate) fn host_of(address: SocketAddr) -> Host {
    match address {
        SocketAddr::V4(address) => Host(address.ip().to_bits()),
        SocketAddr::V6(_) => Host(0),
    }
}
