//! What contracts see of a worker's rounds. No value of these types is made.
use crate::{Next, Sending, Turn, TurnEnd};
use std::collections::LinkedList;

/// A turn that was made: at which moment, how it ended, and what it left to be sent.
pub struct Made {
    pub now: u32,
    pub turn: Turn,
    pub end: TurnEnd,
    pub gives: LinkedList<Sending>,
}

/// A round: the moment and the turn that were given to it, what was made, and what was handed over.
pub struct Round {
    pub now: u32,
    pub turn: Turn,
    pub made: Option<Made>,
    pub handed: LinkedList<Sending>,
}

/// What a post has on record: what it last answered when it was asked for the next thing to do, and its rounds, the latest first.
pub struct Record {
    pub last: Option<Next>,
    pub rounds: LinkedList<Round>,
}
