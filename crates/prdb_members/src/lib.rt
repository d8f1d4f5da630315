//! The protection database's pairs over a draft, in lists of entries that are found by the chains of their ids.
#![tactic(auto)]

mod blocks;
mod changes;
mod finds;
mod laws;
mod moves;
mod owned;
mod partings;
mod sides;

pub use changes::{add_pair, remove_pair};
pub use finds::{cps, elements, has_pair};
pub use laws::{
    law_join_adds_the_pair, law_move_keeps_the_order, law_move_keeps_the_pairs,
    law_no_change_shortens, law_part_takes_the_pair, law_parts_take_all_pairs,
};
pub use moves::move_id;
pub use owned::owned_in_order;
pub use partings::remove_pairs;
pub use prdb_lists::IdList;
