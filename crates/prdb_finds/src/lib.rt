//! The protection database's entries over a draft, found by the chains of their names, ids and owners, and the two maxima.
#![tactic(auto)]

mod changes;
mod finds;
mod first;
mod heads;
mod keys;
mod laws;
mod owned;
mod places;
mod sought;

pub use changes::{make_whole, set_maxima};
pub use finds::{find_id, find_link, find_name};
pub use first::first_draft;
pub use heads::maxima;
pub use laws::{
    law_changes_of_chains_stand_apart, law_empty_image_holds_the_first,
    law_image_tells_its_registry, law_keys, law_other_sorts, law_words_of_chains_stand_apart,
};
pub use owned::owned_ids;
pub use places::{
    FIRST_LEN, free_blocks, id_chain, id_links, name_chain, name_links, owned_links, owned_place,
};
pub use prdb_layout::HEAD_LEN;
