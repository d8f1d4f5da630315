//! What a server answers its clients.
use ubik_types::{Applied, Bytes, Host, Phase, Version};

/// The reply to a call.
#[derive(Drop)]
pub enum Reply {
    /// The call took place; its answer fields.
    Ok(Bytes),
    /// A rule of the database refused it, by its number.
    Rule(u32),
    /// No quorum stands behind this server. Moments in seconds; `until` is the end of the lease, 0 for none.
    NoQuorum {
        now: u32,
        until: u32,
        phase: Phase,
        applied: Applied,
    },
    /// Another server is the sync site: its host, and when it was heard, in seconds.
    NotSync {
        host: Host,
        heard: u32,
    },
    /// The line of those who wait for the write in flight is full; the id of the call that made that write.
    LineFull {
        holder: u32,
    },
    /// The changes of the call, or the image that it would make, have more bytes than they may have.
    TooLarge {
        bytes: u64,
    },
    /// The bytes are no call.
    Malformed,
    /// The server's disk failed, now or before.
    DiskFault,
    /// The image stands for no state of the database; where that showed, in bytes.
    BadRecord {
        at: u32,
    },
    /// Memory ran out, and the call was not evaluated.
    NoMemory,
}

/// What a server tells of itself. Moments are in seconds.
#[derive(Drop)]
pub struct DebugIs {
    pub host: Host,
    pub now: u32,
    pub version: Version,
    pub phase: Phase,
    /// The end of the lease, 0 for none.
    pub until: u32,
    /// The host of the sync site that was heard, 0 for none.
    pub sync: Host,
    /// The host to which the last yes went, 0 for none, and when.
    pub voted: Host,
    pub voted_at: u32,
}
