//! Why a call on pages was not done.
use crate::label::LABEL_LEN;
use thiserror::Error;

/// Why a call on the database file was not done.
#[derive(Debug, Drop, Error)]
pub enum PageFault {
    /// The disk failed. Nothing more is promised of what reads give, until the files are opened anew.
    #[error("the disk failed")]
    DiskFault,
    /// The database file of `len` bytes is too long, or does not begin with a label. `head` has as many of its
    /// first bytes as a label has, and zero bytes where it is shorter.
    #[error("a database file of {len} bytes has no label")]
    BadLabel { len: u64, head: [u8; LABEL_LEN] },
    /// Memory ran out.
    #[error("out of memory")]
    NoMemory,
}
