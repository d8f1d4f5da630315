//! What the program says on standard error while it runs. One thread alone writes it, so that each line stays whole.
use cell_script::write_whole;
use crossbeam_channel::{Receiver, RecvTimeoutError, Sender};
use disk_base::Sink;
use std::alloc::Global;
use std::net::Net;
use std::sync::Wait;
use std::time::{Clock, Duration};
use tcp_net::{Note, TcpNet};

/// How many texts may wait to be written.
pub const WAITING_TEXTS: usize = 16;

/// Seconds between two looks at what the net has seen.
const BETWEEN_LOOKS: u64 = 1;

/// How long one who says something waits for room, in seconds.
const WAITS_WITHIN: u64 = 1;

/// Hands what a thread has to say to the one that writes it. Where that is behind for long, it is not said.
#[derive(Drop)]
pub struct Sayer<'a, R: Wait + Clock> {
    rt: &'a R,
    alloc: Global,
    texts: Sender<Vec<u8>>,
}

impl<'a, R: Wait + Clock> Sayer<'a, R> {
    pub fn new(rt: &'a R, alloc: Global, texts: Sender<Vec<u8>>) -> Sayer<'a, R> {
        Sayer { rt, alloc, texts }
    }

    /// Says a text of whole lines. For want of memory it does not.
    pub fn say(&self, text: &str) {
        if let Ok(text) = Vec::from_slice(self.alloc, text.as_bytes()) {
            let within = Duration::from_secs(WAITS_WITHIN);
            let _ = self.texts.send_timeout(self.rt, text, within);
        }
    }
}

/// Writes each text that comes, and once a second what the net has seen, until all that could send one has ended.
pub fn write_notes<R: Net + Wait + Clock + Drop, E: Sink>(
    rt: &R,
    alloc: Global,
    net: &TcpNet<R>,
    texts: &Receiver<Vec<u8>>,
    err: &mut E,
) {
    for _ in rt.forever() {
        let came = texts.recv_timeout(rt, Duration::from_secs(BETWEEN_LOOKS));
        if came == Err(RecvTimeoutError::Disconnected) {
            return;
        }
        if let Some(note) = net.take_note() {
            write_note(alloc, note, err);
        }
        if let Ok(text) = came {
            let _ = write_whole(err, &text);
        }
    }
}

/// Writes what the net has seen. For want of memory it writes nothing.
fn write_note<E: Sink>(alloc: Global, note: Note, err: &mut E) {
    let Note::Stranger(host) = note;
    let mut line = String::new(alloc);
    let spelled = writeln!(
        line,
        "afs_dbserver: closed a connection from {host}, which is not of the cell and sent a packet"
    );
    if spelled.is_ok() {
        let _ = write_whole(err, line.as_bytes());
    }
}
