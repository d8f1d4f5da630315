//! How the server's state changes, as it says over its own port.
use crate::notes::Sayer;
use crossbeam_channel::{Receiver, RecvTimeoutError};
use io_base::{Clock, TcpLink, Waits};
use server_diary::{Watch, look};
use std::alloc::Global;
use std::net::{Net, TcpStream};
use std::sync::Wait;
use std::time::{self, Duration};
use ubik_types::Host;

/// Seconds between two looks.
const BETWEEN_LOOKS: u64 = 3;

/// Seconds until a server that takes no connection, and one that does not answer, gives no answer.
const CONNECTS_WITHIN: u64 = 1;

const ANSWERS_WITHIN: u64 = 5;

/// Where the server listens.
#[derive(Clone, Copy)]
pub struct Own {
    pub host: Host,
    pub port: u16,
}

/// Asks the server of itself every few seconds, and says what has changed, until what holds the other end of `over` has ended.
pub fn watch<R: Net<Stream = TcpStream> + Wait + time::Clock + Drop + Copy, C: Clock>(
    rt: &R,
    alloc: Global,
    clock: &C,
    own: Own,
    over: &Receiver<()>,
    said: &Sayer<'_, R>,
) {
    let waits = Waits {
        connect: Duration::from_secs(CONNECTS_WITHIN),
        reply: Duration::from_secs(ANSWERS_WITHIN),
    };
    let mut link = TcpLink::with_waits(*rt, alloc, waits);
    let mut watch = Watch::new(alloc);
    let mut number = 0;
    for _ in rt.forever() {
        number = if number == u32::MAX { 1 } else { number + 1 };
        link.begin_command();
        if let Ok(seen) = look(&mut link, alloc, own.host, own.port, number)
            && let Ok(lines) = watch.lines(clock.now(), seen)
            && !lines.is_empty()
        {
            said.say(lines.as_str());
        }
        let came = over.recv_timeout(rt, Duration::from_secs(BETWEEN_LOOKS));
        if came != Err(RecvTimeoutError::Timeout) {
            return;
        }
    }
}
