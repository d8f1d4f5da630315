//! How long the parts of a call may be (own).

/// The most bytes of a name in a call.
pub const MAX_NAME: u32 = 255;

/// The most items of a list in a call.
pub const MAX_LIST: u32 = 5000;

/// The most ids in an answer: with their number they have 1,048,576 bytes.
pub const MAX_ANSWER_IDS: u32 = 262_143;

/// The most entries in an answer.
pub const MAX_PAGE: u32 = 100;
