//! What a server of a cell keeps in memory between two steps, and the rules that touch no disk: votes, polls, who has the database, the writes
//! of others and its own, the lapse. They leave what they put out in a list.
#![tactic(auto)]

mod beacons;
mod flights;
mod held_images;
mod keeping;
mod lapse;
mod lines;
mod outputs;
mod polling;
mod receiving;
mod spreading;
mod state;
mod telling;
mod voting;

pub use beacons::ReadyBeacon;
pub use flights::own_write;
pub use held_images::HeldImage;
pub use lapse::Dropped;
pub use outputs::Outputs;
pub use spreading::Given;
pub use state::State;
