//! What a server does about a packet, as a value: what it keeps from then on, and what is left to do, which its disk is asked for. No decision
//! knows a disk or a database.
#![tactic(auto)]

mod acts;
mod packets;
mod receiver;
mod recovery;
mod voting;

pub use acts::{Act, TextEnd};
pub use packets::packet_heard;
pub use recovery::recovery_turn;
