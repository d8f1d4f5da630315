//! How far a server's recovery has come, and whether a write without an answer took place.

/// The phase of a server's recovery (Kazar, "Ubik: Replicated Servers Made Easy": the recovery marks).
#[derive(Clone, Copy, Debug, PartialEq, Eq)]
pub enum Phase {
    /// No phase is held.
    None,
    /// The servers are asked for their versions.
    Poll,
    /// The best version is fetched.
    Fetch,
    /// The database waits for a moment that is past its epoch.
    Relabel,
    /// The database goes to the other servers.
    Send,
    /// A majority has the database: calls are served.
    Ready,
}

/// What a caller may assume of a write that was not answered Ok.
#[derive(Clone, Copy, Debug, PartialEq, Eq)]
pub enum Applied {
    /// It did not take place and will not.
    No,
    /// It may be in a later order or not.
    Unknown,
}
