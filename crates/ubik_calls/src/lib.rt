//! What the servers of a cell and their clients send one another: packets, calls, replies and questions
//! about a server, each with the length that it has on the wire.
#![tactic(auto)]

mod bodies;
mod fields;
mod frames;
mod kinds;
mod laws;
mod lengths;
mod packets;
mod reading;
mod replies;
mod tagged;
mod writing;

pub use frames::{Frame, FrameFault};
pub use laws::{no_frame_begins_another, packets_are_as_long_as_said};
pub use lengths::packet_len;
pub use packets::{Body, MAX_PIECE, MAX_PIECES, Packet};
pub use reading::decode;
pub use replies::{DebugIs, Reply};
pub use writing::encode;
