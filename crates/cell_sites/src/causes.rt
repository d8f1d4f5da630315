//! What makes a server of a cell step.
ghost use Rattle.std.specs.Prelude.{◌≡◌};
ghost use Rattle.cell_sites.specs.Causes.{IsCause, event_by};

use crate::calls::Calls;
use crate::packets::Packets;
use crate::turns::Turns;
use ubik_node::NodeEvent;

/// What makes a server step. The cell keeps the event of each, and a step borrows it there.
#[derive(Clone, Copy, Debug, PartialEq, Eq)]
pub enum Cause {
    /// The packet of this number comes.
    Packet(u32),
    /// The call of this id is asked.
    Call(u32),
    /// Its beacon turn.
    BeaconTurn,
    /// Its recovery turn.
    RecoverTurn,
}

/// The event that a cause brings.
pub fn event_of<'a>(
    cause: Cause,
    packets: &'a Packets,
    calls: &'a Calls,
    turns: &'a Turns,
) -> &'a NodeEvent
    requires { IsCause packets.now.sent calls.now cause }
    ensures { result.now ≡ event_by packets.now.sent calls.now cause }
{
    match cause {
        Cause::Packet(number) => packets.event(number),
        Cause::Call(id) => calls.event(id),
        Cause::BeaconTurn => &turns.beacon,
        Cause::RecoverTurn => &turns.recover,
    }
}
