//! Laws of the wire grammar: each is the clause of a call that does nothing.
ghost use Rattle.ubik_calls.specs.Laws.{PacketsAreSoLong, NoFrameBeginsAnother};

/// The spelling of a packet's frame has the length that `packet_len` gives.
pub fn packets_are_as_long_as_said()
    ensures { PacketsAreSoLong }
{}

/// No frame's spelling begins another's.
pub fn no_frame_begins_another()
    ensures { NoFrameBeginsAnother }
{}
