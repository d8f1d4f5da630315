//! The server's net, as what an audited one stands on.

use io_base::{Net, NetGot, NetPut, Paused};
use server_diary::Wire;
use std::net;
use std::sync::Wait;
use std::time::Clock;
use tcp_net::TcpNet;
use ubik_types::Host;

/// What knows where a peer is.
pub trait Hosts: Sync {
    fn host_of(&self, peer: u64) -> Option<Host>;
}

impl<R: net::Net + Wait + Clock + Drop + Sync> Hosts for TcpNet<R> {
    fn host_of(&self, peer: u64) -> Option<Host> {
        TcpNet::host_of(self, peer)
    }
}

/// A net beneath an audited one.
#[derive(Clone, Copy)]
pub struct Beneath<'a, N>(pub &'a N);

impl<'a, N: Net + Hosts> Wire for Beneath<'a, N> {
    ghost may_close = { λ wire. N.may_close wire.0.now };

    ghost gave = { λ _ _ _. Unit {0} };

    ghost sent = { λ _ _ _ _. Unit {0} };

    ghost answered = { λ _ _ _ _. Unit {0} };

    ghost has_back = { λ _ _. Unit {0} };

    ghost paused = { λ _ _ _. Unit {0} };

    ghost was_closed = { λ _. Unit {0} };

    fn recv(&self, frame: &mut Vec<u8>) -> NetGot {
        self.0.recv(frame)
    }

    fn send(&self, to: Host, frame: &[u8]) -> NetPut {
        self.0.send(to, frame)
    }

    fn answer(&self, peer: u64, frame: &[u8]) -> NetPut {
        self.0.answer(peer, frame)
    }

    fn release(&self, peer: u64) {
        self.0.release(peer);
    }

    fn pause(&self, seconds: u32) -> Paused {
        self.0.pause(seconds)
    }

    fn close(&self) {
        self.0.close();
    }

    fn host_of(&self, peer: u64) -> Option<Host> {
        self.0.host_of(peer)
    }
}
