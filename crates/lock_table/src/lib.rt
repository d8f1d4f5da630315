//! The lock table: the ranges of an image that ids hold for reading or for writing, and the line of ids
//! that wait for their turn. Contracts see a list of ranges and a list of ids.
#![tactic(auto)]

mod ranges;
mod tables;

pub use ranges::{HeldRange, LockConflict, conflicts_share_a_place};
pub use tables::{LineFull, LockTable, MAX_WAITING};
