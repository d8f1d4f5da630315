//! Chains of blocks in a database's image, over a draft, whatever database it is: a head word, and a next word in each block.
#![tactic(auto)]

mod changes;
mod free_blocks;
mod laws;
mod links;
mod lists;
mod walks;

pub use changes::{put_between, put_first, put_last, take_first, take_out};
pub use free_blocks::{FreeBlocks, free_block, take_block};
pub use laws::{
    law_chain_stays_with_its_blocks, law_chains_stay_where_a_block_is_freed,
    law_chains_stay_where_a_block_is_taken, law_other_chains_stay, law_other_sorts_stay,
};
pub use links::Links;
pub use lists::read_along;
pub use walks::{Link, Stop, StopAt, find};
