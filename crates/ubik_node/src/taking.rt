//! Which packets a server takes.
ghost use Rattle.std.specs.Prelude.{◌≡◌};
ghost use Rattle.ubik_node.specs.Taking.{is_for};

use crate::Node;
use db_image::DraftService;
use disk_base::Disk;
use ubik_calls::Packet;

impl<D: Disk, V: DraftService> Node<D, V> {
    ghost use Rattle.ubik_node.specs.Node.{own_member};

    /// Whether a packet is for this server, and comes from another one of the cell.
    pub fn takes(&self, packet: &Packet) -> bool
        ensures { result ≡ is_for (own_member self.now) packet.now }
    {
        let cell = &self.state.cell;
        let me = self.state.me;
        match cell.index(packet.from) {
            Some(place) => place != me && packet.to.0 == cell.host(me).0,
            None => false,
        }
    }
}
