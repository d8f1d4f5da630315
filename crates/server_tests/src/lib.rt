//! Tests of `server_rounds`, `server_station` and `node_server`, through their public calls: one server over a disk in memory and the
//! protection database, turns that are made of it, rounds of a worker, and whole servers over a net in memory.
#![tactic(auto)]

#[cfg(test)]
mod meetings;
#[cfg(test)]
mod replays;
#[cfg(test)]
mod rounds;
#[cfg(test)]
mod stations;
mod threads;
#[cfg(test)]
mod tops;
#[cfg(test)]
mod turns;

pub use threads::stations_go_to_threads;
