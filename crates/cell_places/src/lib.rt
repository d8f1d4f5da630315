//! A law of packets, for cells of every size: they go from host to host of the cell. A law alone.
#![tactic(auto)]

mod laws;

pub use laws::law_packets_have_places;
