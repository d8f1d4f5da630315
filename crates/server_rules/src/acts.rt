//! What is left to do after a decision.

use ubik_calls::Body;
use ubik_recovery::{Recovery, TextSource};
use ubik_types::{Changes, Host, Version};

/// What follows once another server's whole image is installed.
#[derive(Drop)]
pub enum TextEnd {
    /// It was sent: the host that sent it is told so.
    Told { to: Host },
    /// It was fetched: for the poll of a recovery its relabelling waits for a moment past its epoch.
    Waits { next: Recovery },
    /// It was fetched, and is relabelled at once, for the poll of a recovery, whose servers get it.
    Relabelled { next: Recovery, new: Version },
}

/// What is left to do after a decision: a packet goes out, or the disk is read or changed.
#[derive(Drop)]
pub enum Act<'a> {
    /// Nothing.
    Rest,
    /// A packet goes to a host.
    Send {
        to: Host,
        body: Body,
    },
    /// The piece of the own image from a place on goes to a host, for a poll: to one that asked for it, or to one that is to take it.
    SendPiece {
        to: Host,
        poll: u32,
        at: u32,
        asked: bool,
    },
    /// The database gets another version, and a host is told so.
    TakeVersion {
        to: Host,
        new: Version,
    },
    /// The changes of another server's write are made under its version, and a host is told so.
    TakeWrite {
        to: Host,
        new: Version,
        changes: Changes,
    },
    /// The last piece of another server's image has come: the image is installed.
    EndText {
        end: TextEnd,
        source: TextSource,
        at: u32,
        bytes: &'a [u8],
    },
    /// The database gets the first version of a moment, for the poll of a recovery, and goes to the servers that answered it.
    Relabel {
        next: Recovery,
        new: Version,
    },
    /// Holders have come: a write may be over, and those that wait have their turns.
    Settle,
}
