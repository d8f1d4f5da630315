//! How long the parts of a call and of an answer may be (own).

/// The most sites of an entry in a call or an answer. An entry that is stored has at most 13.
pub const MAX_SITES: u32 = 255;

/// The most entries in an answer.
pub const MAX_PAGE: u32 = 100;

/// The most server addresses.
pub const MAX_HOSTS: u32 = 255;
