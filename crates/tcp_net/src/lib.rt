//! The net of a running server: whole frames over kept connections, served by the threads that call it. It has no
//! thread of its own, and no call waits for a peer.
#![tactic(auto)]

mod addresses;
mod connections;
mod doors;
mod frames;
mod inputs;
mod nets;
mod notes;
mod options;
mod places;
mod queues;

pub use nets::{NetFault, TcpNet};
pub use notes::Note;
