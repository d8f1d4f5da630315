//! What the flags of a site say.

/// The flag of a read-only site.
pub const READ_ONLY: u32 = 2;

/// The flag of a read-write site.
pub const READ_WRITE: u32 = 4;
