//! What a server can be given to do, and how that ends.
use ubik_types::Bytes;

/// What a worker has the server do.
#[derive(Drop)]
pub enum Turn {
    /// The turn in which a beacon goes out where one is due.
    Beacon,
    /// The turn in which recovery goes on.
    Recover,
    /// A frame that came, as its bytes with their length in front. The peer is the number under which an answer goes back.
    Frame { peer: u64, frame: Bytes },
}

/// How a turn ended.
#[derive(Clone, Copy, Debug, PartialEq, Eq)]
pub enum TurnEnd {
    /// The turn was made.
    Done,
    /// The server's disk failed, now or before.
    Halted,
    /// The journal has no room for the turn, which was not made. It would then have so many entries, and so many bytes.
    JournalFull { entries: u64, bytes: u64 },
    /// The turn was made, and memory ran out before all that it sends was spelled: what is left is the front of it.
    Cut,
    /// Memory ran out, and the turn was not made.
    NoMemory,
}
