//! The layout of the protection database's entries without words of chains, and the first image.
#![tactic(auto)]

mod blocks;
mod entries;
mod laws;
mod names;
mod records;

pub use blocks::{
    CREATOR_AT, FLAGS_AT, HEAD_LEN, ID_AT, MAX_USER_AT, NAME_AT, NAME_FIELD, OWNER_AT,
    PAIR_COUNT_AT, QUOTA_AT,
};
pub use entries::{ADMINISTRATORS, ENTRY, MAX_GROUP, USER_FLAGS, initial_image};
pub use laws::{law_empty_holds_the_first, law_image_tells_its_registry};
pub use names::is_user_name;
pub use records::{PrEntry, draft_over, with_fields};
