//! How a server ends.
ghost use Rattle.std.specs.Prelude.{◌≡◌};
ghost use Rattle.server_texts.specs.Ends.{status_of};

/// Why a server ended.
#[derive(Clone, Copy, Debug, PartialEq, Eq)]
pub enum ServerKind {
    /// The net has closed by itself.
    Closed,
    /// A worker got no thread.
    NoThread,
    /// The journal has no room for a step. It would then have so many entries, and so many bytes.
    JournalFull { entries: u64, bytes: u64 },
    /// The disk failed.
    DiskFault,
    /// The files are no database: the file of that many bytes whose first are these.
    BadFiles { len: u64, head: [u8; 64] },
    /// The word at this place, counted from 1, does not fit, is missing, or is one too many.
    Words { place: u32 },
    /// Memory ran out.
    NoMemory,
}

impl ServerKind {
    /// The status of a program that ended so.
    pub fn status(&self) -> u8
        ensures { result ≡ status_of self.now }
    {
        match self {
            ServerKind::Closed => 0,
            ServerKind::NoMemory => 5,
            ServerKind::NoThread => 6,
            ServerKind::JournalFull { .. } => 7,
            ServerKind::DiskFault => 8,
            ServerKind::BadFiles { .. } => 9,
            ServerKind::Words { .. } => 10,
        }
    }
}
