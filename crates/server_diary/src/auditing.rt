//! A net that records who changed what.
ghost use Rattle.std.specs.Prelude.{◌≡◌, [], false};
ghost use Rattle.io_base.specs.Net.{is_frame};
ghost use Rattle.io_base.specs.declared.nets.NetGot.{NetGot};
ghost use Rattle.io_base.specs.declared.nets.Paused.{Paused};

use crate::Wire;
use crate::auditors::{Auditor, Closed};
use io_base::{Clock, Net, NetGot, NetPut, Paused};
use server_texts::Database;
use std::alloc::Global;
use std::sync::Wait;
use ubik_types::{Bytes, Host};

/// Where entries go. A call of it never waits.
pub trait Recorder: Sync {
    /// Takes an entry: one line.
    fn record(&self, entry: Bytes);

    /// An entry could not be made.
    fn miss(&self);
}

/// A net that hands everything on to the one beneath, as it is, and has an entry recorded for each writing call of the database that was
/// answered. With no recorder it records nothing.
pub struct AuditedNet<'a, W, C, K, R> {
    rt: &'a R,
    wire: &'a W,
    clock: &'a C,
    recorder: Option<&'a K>,
    auditor: Auditor,
}

// Derived, it would want that all it refers to may be dropped.
impl<'a, W, C, K, R> Drop for AuditedNet<'a, W, C, K, R> {
    fn drop(self) {
        let Self {
            rt: _,
            wire: _,
            clock: _,
            recorder: _,
            auditor: _,
        } = self;
    }
}

impl<'a, W, C, K, R> AuditedNet<'a, W, C, K, R> {
    pub fn new(
        rt: &'a R,
        alloc: Global,
        database: Database,
        wire: &'a W,
        clock: &'a C,
        recorder: Option<&'a K>,
    ) -> AuditedNet<'a, W, C, K, R> {
        AuditedNet {
            rt,
            wire,
            clock,
            recorder,
            auditor: Auditor::new(alloc, database),
        }
    }
}

// Its bodies call what their bounds have, and nothing that has these bounds itself: such a call in a method of a trait gets no proof, since
// the bounds share their values among threads.
impl<'a, W: Wire, C: Clock, K: Recorder, R: Wait + Sync> Net for AuditedNet<'a, W, C, K, R> {
    ghost may_close = { λ net. W.may_close net.wire.now };

    fn recv(&self, frame: &mut Vec<u8>) -> NetGot
        ensures emptied { is_frame result ≡ false → frame.new.items ≡ [] }
        ensures closed { result ≡ NetGot.Closed → W.may_close self.now.wire.now }
        ensures gave { W.gave self.now.wire.now result frame.new.items }
    {
        let got = self.wire.recv(frame);
        if let NetGot::Frame { peer } = got
            && let Some(recorder) = self.recorder
            && let Some(number) = self.auditor.writing_number(frame)
        {
            let host = self.wire.host_of(peer);
            if self
                .auditor
                .open(self.rt, peer, number, host, frame)
                .is_err()
            {
                recorder.miss();
            }
        }
        got
    }

    fn send(&self, to: Host, frame: &[u8]) -> NetPut
        ensures { W.sent self.now.wire.now to frame.now result }
    {
        self.wire.send(to, frame)
    }

    fn answer(&self, peer: u64, frame: &[u8]) -> NetPut
        ensures { W.answered self.now.wire.now peer frame.now result }
    {
        let put = self.wire.answer(peer, frame);
        if let Some(recorder) = self.recorder {
            match self.auditor.close(self.rt, self.clock.now(), peer, frame) {
                Closed::Entry(entry) => recorder.record(entry),
                Closed::Other => {}
                Closed::NoMemory => recorder.miss(),
            }
        }
        put
    }

    fn release(&self, peer: u64)
        ensures { W.has_back self.now.wire.now peer }
    {
        self.wire.release(peer);
    }

    fn pause(&self, seconds: u32) -> Paused
        ensures closed { result ≡ Paused.Closed → W.may_close self.now.wire.now }
        ensures paused { W.paused self.now.wire.now seconds result }
    {
        self.wire.pause(seconds)
    }

    fn close(&self)
        ensures { W.was_closed self.now.wire.now }
    {
        self.wire.close();
    }
}
