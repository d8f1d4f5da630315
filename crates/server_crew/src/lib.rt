//! The workers of a server, in threads of one scope, over one bench under one lock: one for beacon turns, one for recovery turns, and four
//! for the frames that come. What the bench is, a server with its journal, is not named here.
#![tactic(auto)]

mod benches;
mod clocks;
mod crews;
mod desks;
mod running;
mod workers;

pub use benches::{Bench, Seats};
pub use crews::Outside;
pub use running::{CrewEnd, run_crew};
