//! The writes of a sync site: the one that is in flight, with the answer of its call, and the calls that wait for their turn.
#![tactic(auto)]

mod laws;
mod own_writes;
mod sites;

pub use laws::law_calls_are_steps;
pub use own_writes::OwnWrite;
pub use sites::{Asked, SiteWrites, WaitFault};
