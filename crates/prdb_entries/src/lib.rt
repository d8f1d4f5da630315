//! The protection database's entries over a draft: finds by chains, and changes that keep all chains.
#![tactic(auto)]

mod inserts;
mod laws;
mod removes;
mod replaces;

pub use inserts::insert;
pub use laws::{
    law_insert_adds_the_entry, law_no_image_gets_shorter, law_remove_takes_the_entry,
    law_replace_by_the_same_changes_nothing, law_replace_gives_the_fields,
};
pub use prdb_finds::{find_id, find_name, maxima, set_maxima};
pub use prdb_layout::PrEntry;
pub use removes::remove;
pub use replaces::replace;
