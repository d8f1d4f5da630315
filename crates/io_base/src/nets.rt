//! What a server asks of the net, over which several threads take frames and send them.
ghost use Rattle.std.specs.Prelude.{◌≡◌, [], false};
ghost use Rattle.io_base.specs.Net.{is_frame};
ghost use Rattle.io_base.specs.declared.nets.NetGot.{NetGot};
ghost use Rattle.io_base.specs.declared.nets.Paused.{Paused};

use ubik_types::Host;

/// What came from the net.
#[derive(Clone, Copy, Debug, PartialEq, Eq)]
pub enum NetGot {
    /// A whole frame, from the peer of this name.
    Frame { peer: u64 },
    /// No frame for now.
    Nothing,
    /// The net has closed by itself: no frame comes any more.
    Closed,
    /// The net was closed by `close`.
    Ended,
    /// The net failed for now.
    Failed,
    /// Memory for the frame ran out.
    NoMemory,
}

/// How a pause ended.
#[derive(Clone, Copy, Debug, PartialEq, Eq)]
pub enum Paused {
    /// The time is over.
    Yes,
    /// The net has closed by itself.
    Closed,
    /// The net was closed by `close`.
    Ended,
}

/// What became of a frame that was handed to the net.
#[derive(Clone, Copy, Debug, PartialEq, Eq)]
pub enum NetPut {
    /// The net has taken it. Whether it arrives is not known.
    Sent,
    /// It was not taken.
    Failed,
}

/// The net of a server, which its threads share. Frames are whole, with their lengths in front; a net does not
/// look at what else they say.
pub trait Net: Sync {
    /// The net may close by itself.
    ghost may_close: { Self → Type 0 };

    /// Waits for a frame, and puts it into the buffer, in place of what stood there. At every other answer the
    /// buffer is emptied.
    fn recv(&self, frame: &mut Vec<u8>) -> NetGot
        ensures emptied { is_frame result ≡ false → frame.new.items ≡ [] }
        ensures closed { result ≡ NetGot.Closed → may_close self.now };

    /// Sends a frame to a server.
    fn send(&self, to: Host, frame: &[u8]) -> NetPut;

    /// Sends a frame to the peer from which another one came.
    fn answer(&self, peer: u64, frame: &[u8]) -> NetPut;

    /// The frame that `recv` gave with this peer has been dealt with, or is dropped. Until then a net may keep back what else comes
    /// from the peer, so that its frames are dealt with in the order in which they came, whichever threads take them; others are
    /// not held up.
    fn release(&self, peer: u64) {
        let _ = peer;
    }

    /// Waits for so many seconds, or until the net closes or is closed.
    fn pause(&self, seconds: u32) -> Paused
        ensures closed { result ≡ Paused.Closed → may_close self.now };

    /// Ends the net: each later `recv` and `pause` answers `Ended`.
    fn close(&self);
}
