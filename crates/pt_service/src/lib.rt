//! The calls of the protection database that touch no pair, over a draft.
#![tactic(auto)]

mod entering;
mod fields;
mod finds;
mod looks;
mod names;
mod owners;
mod rules;

pub use entering::{new_entry, new_entry_of_id, raised};
pub use fields::{set_fields, set_max};
pub use finds::{entry_of_id, entry_of_name, is_group, is_id};
pub use looks::{id_to_name, list_max, name_to_id, tell};
pub use names::{MAX_NAME, front_of, has_colon, is_name_of, lowered};
pub use rules::{
    BAD_ARGUMENT, BAD_NAME, ID_EXISTS, NAME_EXISTS, NO_ENTRY, NO_IDS, NOT_GROUP, NOT_PERMITTED,
    NOT_USER,
};
