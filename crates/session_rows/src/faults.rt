//! Why standard input has no whole rows.
use std::alloc::{AllocError, AllocFailed};
use thiserror::Error;
use ubik_types::NoMemory;

/// Why standard input has no whole rows.
#[derive(Clone, Copy, Debug, PartialEq, Eq, Error)]
pub enum Fault {
    #[error("standard input is no text")]
    NoText,
    #[error("the line is out of form")]
    Form,
    #[error("the end of the rows is missing, or stands before another line")]
    NoEnd,
    #[error("the end counts other rows, or there are none")]
    Count,
    #[error("memory ran out")]
    NoMemory,
}

impl From<NoMemory> for Fault {
    fn from(_: NoMemory) -> Self {
        Fault::NoMemory
    }
}

impl From<AllocError> for Fault {
    fn from(_: AllocError) -> Self {
        Fault::NoMemory
    }
}

impl<T: Drop> From<AllocFailed<T>> for Fault {
    fn from(_: AllocFailed<T>) -> Self {
        Fault::NoMemory
    }
}
