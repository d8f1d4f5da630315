//! Why no item stands at a reader's place.
use thiserror::Error;

/// Why a reader gives no item. Places are counted in bytes from the start of what the reader was made over.
#[derive(Clone, Copy, Debug, PartialEq, Eq, Error)]
pub enum XdrFault {
    /// The bytes of the item, padding included, do not all stand there. `at` is the place of its first byte.
    #[error("the item at byte {at} is cut off")]
    Short { at: usize },
    /// A byte that fills the item up to whole words is not zero. `at` is the place of the item's first byte.
    #[error("the item at byte {at} is padded with a byte that is not zero")]
    Padding { at: usize },
    /// A length or a count is above the most that the caller takes.
    #[error("{len} is more than is taken here")]
    TooLong { len: u32 },
    /// A truth value is neither 0 nor 1.
    #[error("{value} is no truth value")]
    BadBool { value: u32 },
    /// Bytes are left where the text should end.
    #[error("{left} bytes are left at the end")]
    Rest { left: usize },
}
