//! Why standard input has no whole rows.
use std::alloc::{AllocError, AllocFailed};
use thiserror::Error;
use ubik_types::NoMemory;

/// Why standard input has no whole rows.
#[derive(Clone, Copy, Debug, PartialEq, Eq, Error)]
pub enum Fault {
    #[error("no text")]
    Unreadable,
    #[error("no line of a row")]
    Form,
    #[error("another count of rows")]
    Count,
    #[error("no row")]
    NoRow,
    #[error("no end")]
    NoEnd,
    #[error("memory ran out")]
    NoMemory,
}

impl From<NoMemory> for Fault {
    fn from(_: NoMemory) -> Self {
        Fault::NoMemory
    }
}

impl From<AllocError> for Fault {
    fn from(_: AllocError) -> Self {
        Fault::NoMemory
    }
}

impl<T: Drop> From<AllocFailed<T>> for Fault {
    fn from(_: AllocFailed<T>) -> Self {
        Fault::NoMemory
    }
}
