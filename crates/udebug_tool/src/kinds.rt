//! The kinds of servers.
ghost use Rattle.std.specs.Prelude.{◌≡◌};
ghost use Rattle.udebug_tool.specs.Kinds.{kind_of, kind_port};

/// A server's database.
#[derive(Clone, Copy, Debug, PartialEq, Eq)]
pub enum ServerKind {
    /// Where volumes are.
    VlServer,
    /// Users and groups.
    PtServer,
}

impl ServerKind {
    /// The kind of this name: `vlserver` or `ptserver`.
    pub fn named(word: &[u8]) -> Option<ServerKind>
        ensures { result ≡ kind_of word.now }
    {
        if word == b"vlserver".as_slice() {
            Some(ServerKind::VlServer)
        } else if word == b"ptserver".as_slice() {
            Some(ServerKind::PtServer)
        } else {
            None
        }
    }

    /// The port at which its servers listen.
    pub fn port(self) -> u16
        ensures { result ≡ kind_port self }
    {
        match self {
            ServerKind::VlServer => 7003,
            ServerKind::PtServer => 7002,
        }
    }
}
