//! What a changing call does to a file, without the bytes that it writes.

/// A changing call since the last sync of a file.
#[derive(Clone, Copy)]
pub(crate) enum Touch {
    /// So many positions were written, from one on.
    Wrote { at: usize, len: usize },
    /// The file was cut to a length.
    Cut { len: usize },
}
