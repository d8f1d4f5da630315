//! Laws of running servers: the journals of the servers of a cell, in one schedule, are a run of the world.
#![tactic(auto)]

mod laws;

pub use laws::law_servers_make_a_world;
