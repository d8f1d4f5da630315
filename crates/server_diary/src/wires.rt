//! What an audited net stands on.
ghost use Rattle.std.specs.Prelude.{◌≡◌, [], false};
ghost use Rattle.io_base.specs.Net.{is_frame};
ghost use Rattle.io_base.specs.declared.nets.NetGot.{NetGot};
ghost use Rattle.io_base.specs.declared.nets.Paused.{Paused};

use io_base::{NetGot, NetPut, Paused};
use ubik_types::Host;

/// The net beneath an audited one, each call as that of `Net`. Of each call there is a fact that it was made, and what it gave, which
/// code that is generic in the net learns from that call alone: what is known of it was neither dropped nor made up.
pub trait Wire: Sync {
    ghost use Rattle.std.specs.Prelude.{ℕ, List};
    ghost use Rattle.ubik_types.specs.declared.hosts.Host.{Host};
    ghost use Rattle.io_base.specs.declared.nets.NetGot.{NetGot};
    ghost use Rattle.io_base.specs.declared.nets.NetPut.{NetPut};
    ghost use Rattle.io_base.specs.declared.nets.Paused.{Paused};

    /// The net may close by itself.
    ghost may_close: { Self → Type 0 };

    /// A `recv` gave this, with these bytes.
    ghost gave: { Self → NetGot → List ℕ → Type 0 };

    /// This frame was handed to it for a server, and this became of it.
    ghost sent: { Self → Host → List ℕ → NetPut → Type 0 };

    /// This frame was handed to it for a peer, and this became of it.
    ghost answered: { Self → ℕ → List ℕ → NetPut → Type 0 };

    /// It was told that the frame of this peer is dealt with.
    ghost has_back: { Self → ℕ → Type 0 };

    /// A pause of so many seconds ended so.
    ghost paused: { Self → ℕ → Paused → Type 0 };

    /// It was told to end.
    ghost was_closed: { Self → Type 0 };

    fn recv(&self, frame: &mut Vec<u8>) -> NetGot
        ensures emptied { is_frame result ≡ false → frame.new.items ≡ [] }
        ensures closed { result ≡ NetGot.Closed → may_close self.now }
        ensures gave { gave self.now result frame.new.items };

    fn send(&self, to: Host, frame: &[u8]) -> NetPut
        ensures { sent self.now to frame.now result };

    fn answer(&self, peer: u64, frame: &[u8]) -> NetPut
        ensures { answered self.now peer frame.now result };

    fn release(&self, peer: u64)
        ensures { has_back self.now peer };

    fn pause(&self, seconds: u32) -> Paused
        ensures closed { result ≡ Paused.Closed → may_close self.now }
        ensures paused { paused self.now seconds result };

    fn close(&self)
        ensures { was_closed self.now };

    /// Where a peer is; none where it has gone.
    fn host_of(&self, peer: u64) -> Option<Host>;
}
