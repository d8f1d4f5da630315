//! The journal of a server: an item for each step, how much that counts for, what holds the items, and how the steps are counted over
//! those who made them. No node and no disk is named here.
#![tactic(auto)]

mod counts;
mod ghost_journals;
mod ghost_lists;
mod items;
mod journals;
mod keepers;
mod shares;

pub use counts::{Counts, Full, Limits};
pub use ghost_journals::GhostJournal;
pub use items::JournalItem;
pub use journals::Journal;
pub use keepers::Keeper;
pub use shares::{Opening, Seat, Shares};
