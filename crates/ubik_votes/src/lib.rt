//! Votes and leases: whom a server votes for, whose votes it counts, and until when it is in lease by them.
//! No call takes memory, and none can refuse.
#![tactic(auto)]

mod answers;
mod counts;
mod voters;

pub use counts::lease_rests_on_greatest_start;
pub use voters::Votes;
