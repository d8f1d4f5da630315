//! What a log says.
use ubik_types::{Changes, Version};

/// What the bytes of a log say.
#[derive(Drop)]
pub enum LogState {
    /// These changes took place, and the database has this version after them.
    Committed { changes: Changes, version: Version },
    /// Nothing took place.
    Discarded,
}
