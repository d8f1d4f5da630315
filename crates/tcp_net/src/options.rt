//! What the system is asked to do for a connection.
ghost use Rattle.libc.specs.Net.{SockOption};

use libc::net as c;
use mio::net::TcpStream;
use std::os::fd::AsRawFd;

/// Seconds of silence after which the system asks whether the peer's machine still stands.
const KEEP_IDLE: i32 = 15;

/// Seconds between two such questions, and how many are left without an answer before it is given up.
const KEEP_INTERVAL: i32 = 5;

const KEEP_COUNT: i32 = 3;

/// Milliseconds for which sent bytes may wait for the peer's machine to take them.
const TAKEN_WITHIN: i32 = 10_000;

/// Has small frames go out at once, and has a peer that is gone without a word noticed. Where the system refuses one
/// of these, the connection does without.
pub(crate) fn prepare(stream: &TcpStream) {
    let fd = stream.as_raw_fd();
    let _ = stream.set_nodelay(true);
    set_option(fd, c::SOL_SOCKET, c::SO_KEEPALIVE, 1);
    set_option(fd, c::IPPROTO_TCP, c::TCP_KEEPIDLE, KEEP_IDLE);
    set_option(fd, c::IPPROTO_TCP, c::TCP_KEEPINTVL, KEEP_INTERVAL);
    set_option(fd, c::IPPROTO_TCP, c::TCP_KEEPCNT, KEEP_COUNT);
    set_option(fd, c::IPPROTO_TCP, c::TCP_USER_TIMEOUT, TAKEN_WITHIN);
}

fn set_option(fd: i32, level: i32, name: i32, value: i32)
    requires { SockOption level name }
{
    let mut raw = [0u8; 16];
    raw[..4].copy_from_slice(&value.to_ne_bytes());
    let _ = unsafe { c::setsockopt(fd, level, name, &raw, 4) };
}
