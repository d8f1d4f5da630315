//! Packets between the servers of a cell.
use ubik_types::{Bytes, Host, Version};

/// The longest piece of an image or of a write, in bytes (own).
pub const MAX_PIECE: usize = 8192;

/// The most pieces of one write (own).
pub const MAX_PIECES: u32 = 160;

/// A packet from one server of a cell to another.
#[derive(Drop)]
pub struct Packet {
    pub from: Host,
    pub to: Host,
    pub body: Body,
}

/// What a packet says. A start is the moment of the beacon that it belongs to, a poll the moment at which
/// that poll began, both in seconds. Totals, offsets and lengths are in bytes.
#[derive(Drop)]
pub enum Body {
    /// Asks for a vote. `claim`: the sender was in lease; `ready`: it serves calls, under this version.
    Beacon {
        start: u32,
        claim: bool,
        ready: bool,
        version: Version,
    },
    /// The answer to the beacon of that start.
    Vote {
        start: u32,
        yes: bool,
    },
    /// Asks for the version of a database.
    GetVersion {
        poll: u32,
    },
    /// The version of the sender's database.
    VersionIs {
        poll: u32,
        version: Version,
    },
    /// Asks for the image of a version, from a place on.
    GetPiece {
        poll: u32,
        version: Version,
        offset: u32,
    },
    /// A piece of the image of a version, which was asked for.
    Piece {
        poll: u32,
        version: Version,
        total: u32,
        offset: u32,
        bytes: Bytes,
    },
    /// A piece of the sync site's image, which the receiver is to take.
    SendPiece {
        poll: u32,
        version: Version,
        total: u32,
        offset: u32,
        bytes: Bytes,
    },
    /// A piece was taken; `next` is where the next one begins.
    PieceKept {
        poll: u32,
        version: Version,
        next: u32,
    },
    /// A database under the old version is to be the one of the new version.
    SetVersion {
        poll: u32,
        old: Version,
        new: Version,
    },
    /// A write begins: its changes lead from the old version to the new one, and are sent as a text of so
    /// many bytes, in so many pieces.
    Begin {
        old: Version,
        new: Version,
        pieces: u32,
        len: u32,
    },
    /// A piece of a write, counted from 0.
    PutPiece {
        new: Version,
        number: u32,
        bytes: Bytes,
    },
    /// A write of which all pieces were sent is to be committed.
    Commit {
        old: Version,
        new: Version,
    },
    /// A write is given up.
    Abort {
        new: Version,
    },
    /// The sender's database is the one of this version.
    VersionKept {
        version: Version,
    },
}
