//! Values that only contracts see. They take no memory, and no code can ask for them.
#![tactic(auto)]

mod ghosts;
mod tallies;

pub use ghosts::{Ghost, Says};
pub use tallies::Tally;
