//! What a journal keeps of a step.
ghost use Rattle.std.specs.Prelude.{◌≡◌};
ghost use Rattle.server_journal.specs.Weight.{IsLight, asks_in, weight};

use cell_model::NodeEvent;
use ubik_calls::packet_len;

/// One step of a server, as its journal has it.
#[derive(Drop)]
pub struct JournalItem {
    /// The moment of the step, in seconds.
    pub now: u32,
    pub event: NodeEvent,
    /// Bit i says that the i-th reply of the step, counted from 0, is for want of memory.
    pub short: u128,
    /// Whether the server is halted after the step.
    pub halted: bool,
}

/// How many bytes of a journal an item with this event counts for.
#[tactic(auto, using(crate::proofs::Counting::light_packet))]
pub(crate) fn weight_of(event: &NodeEvent) -> u64
    requires { IsLight event.now }
    ensures { result ≡ weight event.now }
{
    let bytes = match event {
        NodeEvent::Packet(packet) => packet_len(packet),
        NodeEvent::Ask { call, .. } => call.as_slice().len() as u64,
        NodeEvent::BeaconTurn | NodeEvent::RecoverTurn => 0,
    };
    32 + bytes
}

/// How many calls of clients it is.
pub(crate) fn asks_of(event: &NodeEvent) -> u64
    ensures { result ≡ asks_in event.now }
{
    match event {
        NodeEvent::Ask { .. } => 1,
        _ => 0,
    }
}
