//! The chains of the location database: by names, by the three kinds of ids, and of its free blocks.
#![tactic(auto)]

mod keys;
mod laws;
mod places;

pub use keys::{CHAINS, id_key, name_key};
pub use laws::{law_key_of_a_name, law_other_sorts};
pub use places::{free_blocks, id_chain, id_links, name_chain, name_links};
