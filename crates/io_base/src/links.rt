//! What a client asks of the net.
ghost use Rattle.std.specs.Prelude.{◌≡◌, ◌≢◌, ◌+◌, ◌++◌, ℕ, List, []};
ghost use Rattle.io_base.specs.Link.{made, faults_in};
ghost use Rattle.io_base.specs.declared.links.Answer.{Answer};
ghost use Rattle.io_base.specs.declared.links.Exchange.{Exchange};

use ubik_types::{Bytes, Host};

/// How an ask ended.
#[derive(Clone, Copy, Debug, PartialEq, Eq)]
pub enum Answer {
    /// A whole frame came back.
    Got,
    /// Nothing of the frame went out.
    NotSent,
    /// The frame may have gone out, and no frame came back.
    NoAnswer,
    /// Memory ran out before anything was sent.
    NoMemory,
}

/// A frame that was handed to a link, where it was to go, and how that ended. The reply is empty but at
/// `Answer::Got`.
#[derive(Drop)]
pub struct Exchange {
    pub host: Host,
    pub port: u16,
    pub frame: Bytes,
    pub answer: Answer,
    pub reply: Bytes,
}

/// A way to the servers. It keeps what was exchanged. Frames and replies are whole, with their lengths in front;
/// a link does not look at what else they say.
pub trait Link {
    /// What was exchanged so far, in its order.
    ghost exchanges: { Self → List Exchange };

    /// How often an ask has failed: nothing was sent, or no answer came. Want of memory does not count.
    ghost faults: { Self → ℕ };

    /// Hands a frame to the server of a host, at a port, and waits for the frame that comes back.
    fn ask(&mut self, host: Host, port: u16, frame: &[u8], reply: &mut Vec<u8>) -> Answer
        ensures exchanged { exchanges self.new
            ≡ exchanges self.old ++ made host port frame.now result reply.new.items }
        ensures emptied { result ≢ Answer.Got → reply.new.items ≡ [] }
        ensures counted { faults self.new ≡ faults self.old + faults_in result };
}
