//! The protection database over drafts, entries and pairs: the calls that only look.
#![tactic(auto)]

mod entries;
mod finds;
mod looks;
mod pages;

pub use finds::{entry_of, is_in};
pub use looks::{
    get_cps, is_member_of, is_unknown, list_elements, list_entry, list_owned, pair_fault,
};
pub use pages::list_entries;
