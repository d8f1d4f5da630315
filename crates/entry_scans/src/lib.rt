//! What is looked for among the entries of the protection database, and entries as they stand in a block.
#![tactic(auto)]

mod lists;
mod scans;
mod views;

pub use lists::put_in_order;
pub use scans::{MORE, Sought, is_sought};
pub use views::{EntryView, entry_in, kind_of, pair_count_in, signed_at};
