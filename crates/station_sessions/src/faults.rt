//! Why a script is not run to its end.
use std::alloc::{AllocError, AllocFailed};
use thiserror::Error;
use ubik_types::NoMemory;

/// Why a script is not run to its end.
#[derive(Clone, Copy, Debug, PartialEq, Eq, Error)]
pub enum Fault {
    #[error("a line of a script that is not for three stations")]
    Line,
    #[error("a server was not opened")]
    NotOpened,
    #[error("a turn did not end with Done")]
    Turn,
    #[error("what goes out of a turn is no frame for another server, or for the client that asked")]
    Sending,
    #[error("memory ran out")]
    NoMemory,
}

impl From<NoMemory> for Fault {
    fn from(_: NoMemory) -> Self {
        Fault::NoMemory
    }
}

impl From<AllocError> for Fault {
    fn from(_: AllocError) -> Self {
        Fault::NoMemory
    }
}

impl<T: Drop> From<AllocFailed<T>> for Fault {
    fn from(_: AllocFailed<T>) -> Self {
        Fault::NoMemory
    }
}
