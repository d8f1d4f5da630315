//! Want of memory, the one answer that every call may give which makes or grows a list.
use std::alloc::{AllocError, AllocFailed};
use thiserror::Error;

/// Memory ran out. It has one value, so a clause need not say which.
#[derive(Clone, Copy, Debug, PartialEq, Eq, Error)]
#[error("out of memory")]
pub struct NoMemory;

impl From<AllocError> for NoMemory {
    fn from(_: AllocError) -> Self {
        NoMemory
    }
}

impl<T: Drop> From<AllocFailed<T>> for NoMemory {
    fn from(_: AllocFailed<T>) -> Self {
        NoMemory
    }
}
