//! What all workers of a server have.
use crate::Bench;
use crate::desks::Desk;
use std::alloc::Global;
use std::sync::Mutex;

/// What a server runs over: the net, the clock, the spawner of its workers, and their gate.
pub struct Outside<'a, N, C, P, G> {
    pub net: &'a N,
    pub clock: &'a C,
    pub spawner: &'a P,
    pub gate: &'a G,
}

// Derived, it would want that all it refers to may be dropped. So would the next.
impl<'a, N, C, P, G> Drop for Outside<'a, N, C, P, G> {
    fn drop(self) {
        let Self {
            net: _,
            clock: _,
            spawner: _,
            gate: _,
        } = self;
    }
}

/// What all workers of a server have.
pub(crate) struct Crew<'a, B: Bench, N, T, G, R> {
    pub(crate) rt: &'a R,
    pub(crate) alloc: Global,
    pub(crate) desk: &'a Mutex<Desk<B>>,
    pub(crate) net: &'a N,
    pub(crate) clock: T,
    pub(crate) gate: &'a G,
}

impl<'a, B: Bench, N, T: Drop, G, R> Drop for Crew<'a, B, N, T, G, R> {
    fn drop(self) {
        let Self {
            rt: _,
            alloc: _,
            desk: _,
            net: _,
            clock: _,
            gate: _,
        } = self;
    }
}
