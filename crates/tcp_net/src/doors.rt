//! Where connections come in.
use crate::addresses::host_of;
use mio::net::{TcpListener, TcpStream};
use std::alloc::Global;
use std::collections::VecDeque;
use std::io::{self, ErrorKind};
use ubik_types::Host;

/// How many connections may wait for a place.
const WAITING: usize = 16;

/// A connection that has no place yet.
#[derive(Drop)]
pub(crate) struct Arrival {
    pub stream: TcpStream,
    pub host: Host,
}

/// What a look at the door found.
#[derive(Drop)]
pub(crate) enum Knock {
    Came(Arrival),
    /// One that was given up before it was taken, so another may stand behind it.
    Gone,
    /// None, or the system has no room for one now.
    Nothing,
    /// The listening socket itself has failed, for good.
    Closed,
}

/// The listening socket, and the connections that wait for a place.
#[derive(Drop)]
pub(crate) struct Door {
    listener: Option<TcpListener>,
    waiting: VecDeque<Arrival>,
}

impl Door {
    pub(crate) fn new(alloc: Global, listener: TcpListener) -> Door {
        Door {
            listener: Some(listener),
            waiting: VecDeque::new(alloc),
        }
    }

    pub(crate) fn accept(&self) -> Knock {
        let Some(listener) = &self.listener else {
            return Knock::Nothing;
        };
        match listener.accept() {
            Ok((stream, address)) => Knock::Came(Arrival {
                stream,
                host: host_of(address),
            }),
            Err(e) if is_for_good(&e) => Knock::Closed,
            Err(e) => match e.kind() {
                ErrorKind::ConnectionAborted | ErrorKind::Interrupted => Knock::Gone,
                _ => Knock::Nothing,
            },
        }
    }

    /// Has a connection wait. Where too many wait, or memory runs out, it is closed.
    pub(crate) fn wait(&mut self, arrival: Arrival) {
        if self.waiting.len() < WAITING {
            let _ = self.waiting.push_back(arrival);
        }
    }

    /// The connection that has waited longest.
    pub(crate) fn next_waiting(&mut self) -> Option<Arrival> {
        self.waiting.pop_front()
    }

    pub(crate) fn waiting_count(&self) -> usize {
        self.waiting.len()
    }

    pub(crate) fn close(&mut self) {
        self.listener = None;
        self.waiting.clear();
    }
}

/// Whether the socket listens no more. Want of descriptors or of memory, and what befell the peer, go by.
fn is_for_good(error: &io::Error) -> bool {
    matches!(
        error.raw_os_error(),
        Some(libc::EBADF | libc::EINVAL | libc::ENOTSOCK)
    )
}
