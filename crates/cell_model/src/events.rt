//! What happens to a server, and what it puts out.
use ubik_calls::{Packet, Reply};
use ubik_types::{Bytes, Version};

/// An event at a server.
#[derive(Drop)]
pub enum NodeEvent {
    /// A packet of another server of the cell.
    Packet(Packet),
    /// The turn in which a beacon goes out where one is due.
    BeaconTurn,
    /// The turn in which recovery goes on.
    RecoverTurn,
    /// A client's call, as its bytes. The reply carries the id.
    Ask { id: u32, call: Bytes },
}

/// What a server puts out in a step.
#[derive(Drop)]
pub enum Output {
    /// A packet to another server of the cell.
    Send(Packet),
    /// The reply to the call that was asked under this id.
    Reply { id: u32, reply: Reply },
    /// A majority has this version.
    Announce { version: Version },
}
