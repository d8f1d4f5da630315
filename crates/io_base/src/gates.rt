//! Where a test can hold up the threads of a server.

/// What a worker passes before each of its turns.
pub trait Gate: Sync {
    /// Called by a worker before a turn, both counted from 0.
    fn pass(&self, worker: u32, turn: u64);
}

/// A gate through which everything passes.
#[derive(Clone, Copy)]
pub struct OpenGate;

impl Gate for OpenGate {
    fn pass(&self, _worker: u32, _turn: u64) {}
}
