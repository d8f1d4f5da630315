//! The turns of a server as events.
ghost use Rattle.std.specs.Prelude.{◌≡◌};
ghost use Rattle.cell_model.specs.declared.events.NodeEvent.TheVariants as event;

use ubik_node::NodeEvent;

/// The turns as events, so that a step borrows its event wherever that comes from.
#[derive(Drop)]
pub struct Turns {
    pub beacon: NodeEvent,
    pub recover: NodeEvent,
    ghost beacon_turn: { beacon ≡ event.BeaconTurn },
    ghost recover_turn: { recover ≡ event.RecoverTurn },
}

impl Turns {
    /// Both turns.
    pub fn new() -> Self {
        Turns {
            beacon: NodeEvent::BeaconTurn,
            recover: NodeEvent::RecoverTurn,
        }
    }
}
