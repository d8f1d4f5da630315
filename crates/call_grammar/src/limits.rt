//! How long a string of a call may be (own).

/// The most bytes of a string in a call or an answer.
pub const MAX_TEXT: u32 = 255;
