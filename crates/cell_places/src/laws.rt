//! A law of packets: the clause of a call that does nothing.
ghost use Rattle.cell_places.specs.Places.{PacketsHavePlaces};

/// In each event, whatever comes and whatever was written, a server of a cell of any size sends packets from its own host to hosts of the
/// cell alone: its polls have a place for the answer of each server, and what it fetches it fetches from one of them. So it is from its
/// opening on.
pub fn law_packets_have_places()
    ensures { PacketsHavePlaces }
{}
