//! The blocks of a database's image, over a draft: how they are read, found by a scan, and written.
#![tactic(auto)]

mod blocks;
mod keyed;
mod scans;
mod writes;

pub use blocks::{BLOCK_LEN, Block, block_count, block_place, word_at};
pub use keyed::{Keyed, scan_first};
pub use scans::{Found, Wanted, read_block, scan};
pub use writes::{push_filled, push_words, push_zeros};
