//! Why a script ends before its end.
use cell_script::Why;

/// Which limit of a script is passed.
#[derive(Clone, Copy, Debug, PartialEq, Eq)]
pub enum Which {
    /// The lines of a script.
    Lines,
    /// The packets that are sent.
    Packets,
    /// The bytes of the packets that are kept.
    PacketBytes,
}

/// Why a script ends before its end.
#[derive(Clone, Copy, Debug, PartialEq, Eq)]
pub enum Ending {
    /// A line is refused.
    Refused(Why),
    /// A line passes a limit.
    Limit(Which),
}
