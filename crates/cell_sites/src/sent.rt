//! A packet as the event that it is where it arrives.
ghost use Rattle.std.specs.Prelude.{◌≡◌};
ghost use Rattle.ubik_calls.specs.declared.packets.Packet.{Packet};
ghost use Rattle.cell_model.specs.declared.events.NodeEvent.TheVariants as event;
ghost use Rattle.cell_sites.specs.Sent.{BringsPacket, packet_of};

use std::marker::Model;
use ubik_calls::Packet;
use ubik_node::NodeEvent;

/// A packet that was sent, kept as the event that it is where it arrives, however often. Contracts see the packet.
#[derive(Drop)]
pub struct Sent {
    event: NodeEvent,
}

impl Model for Sent {
    ghost Value = { Packet };

    ghost view = { λ s. packet_of s.event };

    ghost invariant = { λ s. BringsPacket s.event };
}

impl Sent {
    /// A packet that was sent just now.
    pub fn new(packet: Packet) -> Self
        ensures { result ≡ packet }
    {
        Sent {
            event: NodeEvent::Packet(packet),
        }
    }

    /// The packet itself.
    pub fn packet(&self) -> &Packet
        ensures { result.now ≡ self.now }
    {
        let NodeEvent::Packet(packet) = &self.event else {
            unreachable!();
        };
        packet
    }

    /// What it is for the server at which it arrives.
    pub fn event(&self) -> &NodeEvent
        ensures { result.now ≡ event.Packet self.now }
    {
        &self.event
    }
}
