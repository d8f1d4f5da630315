//! Changes of the protection database over a draft that take several steps: another id for an entry that owns others,
//! other names for the entries that are named after one, and the turn of an entry, which is all of these.
#![tactic(auto)]

mod blocks;
mod entries;
mod fronts;
mod ids;
mod laws;
mod owners;
mod turning;

pub use blocks::ids_by_block;
pub use fronts::{behind_colon, give_fronts, with_front};
pub use ids::renumber;
pub use laws::{
    law_renumber_gives_the_id, law_renumber_keeps_the_order, law_renumber_leaves_no_shorter_image,
};
pub use owners::{disown, give};
pub use turning::turn;
