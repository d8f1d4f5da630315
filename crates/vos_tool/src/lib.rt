//! The command `vos`: what it asks of the location database, and what it writes.
#![tactic(auto)]

mod adding;
mod addresses;
mod answers;
mod asking;
mod changing;
mod commands;
mod deleting;
mod listing;
mod locks;
mod ordering;
mod paging;
mod places;
mod sites;
mod texts;
mod volumes;

pub use commands::{PORT, run_vos};
