//! Where a program writes to.
ghost use Rattle.std.specs.Prelude.{◌≡◌, ◌<◌, ◌≤◌, ℕ, List, Option, length};
ghost use Rattle.disk_base.specs.Sink.{Appends};
ghost use Rattle.disk_base.specs.Count.{HasCause};

/// How a write ended.
#[derive(Clone, Copy, Debug, PartialEq, Eq)]
pub enum Wrote {
    /// The first so many bytes, at least 1, were appended.
    Bytes(usize),
    /// The write failed, and appended nothing.
    Failed,
}

/// A stream of bytes that grows at its end.
pub trait Sink {
    /// What was written, where the sink tells it.
    ghost written: { Self → Option (List ℕ) };

    /// How often a write has failed. It never falls.
    ghost faults: { Self → ℕ };

    /// Appends some of the bytes, from their front on.
    fn write(&mut self, bytes: &[u8]) -> Wrote
        requires { 0 < length bytes.now }
        ensures appended { Appends result (written self.old) (written self.new) bytes.now }
        ensures cause { HasCause (faults self.old) (faults self.new) (result ≡ Wrote.Failed) };
}
