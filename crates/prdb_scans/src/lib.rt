//! Passes over the blocks of the protection database's image, for what stands in no chain, and what an image tells.
#![tactic(auto)]

mod laws;
mod pages;
mod scans;

pub use laws::{law_blocks_tell_counts, law_image_holds_one, law_image_tells_its_pairs};
pub use pages::first_where;
pub use scans::{has_entry, ids_where};
