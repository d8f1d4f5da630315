//! Where a program reads from.
ghost use Rattle.std.specs.Prelude.{◌≡◌, ◌<◌, ◌≤◌, ℕ, List, Option, length};
ghost use Rattle.disk_base.specs.Source.{Reads};
ghost use Rattle.disk_base.specs.Count.{HasCause};

/// How a read ended.
#[derive(Clone, Copy, Debug, PartialEq, Eq)]
pub enum Got {
    /// So many bytes, at least 1, stand at the buffer's front.
    Bytes(usize),
    /// Nothing is left.
    End,
    /// The read failed, and moved nothing.
    Failed,
}

/// A stream of bytes that is read once.
pub trait Source {
    /// What is left to read, where the source tells it.
    ghost left: { Self → Option (List ℕ) };

    /// How often a read has failed. It never falls.
    ghost faults: { Self → ℕ };

    /// Moves some of the bytes that are left into the buffer's front.
    fn read(&mut self, buf: &mut [u8]) -> Got
        requires { 0 < length buf.old }
        ensures moved { Reads result (left self.old) (left self.new) buf.new }
        ensures cause { HasCause (faults self.old) (faults self.new) (result ≡ Got.Failed) };
}
