//! One worker of a server, round by round: what it takes up, what a turn of the server leaves to be sent, and how that is
//! handed over. No server, no clock and no lock is named here.
#![tactic(auto)]

mod memory_posts;
mod posts;
mod records;
mod rounds;
mod sendings;
mod turns;

pub use memory_posts::{MemPost, MemRound};
pub use posts::{Next, Post};
pub use records::{Made, Record, Round};
pub use rounds::{RoundEnd, work_round};
pub use sendings::{Sending, Sendings};
pub use turns::{Turn, TurnEnd};
