//! The lists of the protection database's pairs, as they lie in blocks.
#![tactic(auto)]

mod blocks;
mod id_lists;
mod layout;
mod listed;
mod sides;
mod writes;

pub use id_lists::IdList;
pub use listed::{Listed, read_list};
pub use sides::{Place, blocks_for, write_list};
