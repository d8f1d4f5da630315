//! The call of the protection database that gives an entry another name, owner or id, over a draft.
#![tactic(auto)]

mod deciding;
mod laws;
mod names;
mod sought;
mod turning;

pub use laws::law_turn_leaves_the_state_after_it;
pub use turning::change_entry;
