//! A link that is told where a command begins.
ghost use Rattle.std.specs.Prelude.{◌≡◌, []};
ghost use Rattle.client_shell.specs.Standing.{Begun};
ghost use Rattle.io_base.specs.MemLink.{exchanges_of};
ghost use Rattle.io_base.specs.TcpLink.{sent_over};

use io_base::{Link, MemLink, TcpLink};
use std::net::{Net, TcpStream};
use std::time::Clock;

/// A link over which one command runs behind the other.
pub trait CommandLink: Link {
    /// What it keeps of what was exchanged before, once a command begins.
    ghost begun: { Begun };

    /// Says that a command begins: what the link keeps of the commands before may go.
    fn begin_command(&mut self)
        ensures { Self.exchanges self.new ≡ begun (Self.exchanges self.old) };
}

impl CommandLink for MemLink {
    ghost begun = { λ exchanges. exchanges };

    fn begin_command(&mut self)
        ensures { exchanges_of self.new ≡ exchanges_of self.old }
    {}
}

impl<N: Net<Stream = TcpStream> + Clock + Drop> CommandLink for TcpLink<N> {
    ghost begun = { λ _. [] };

    fn begin_command(&mut self)
        ensures { sent_over self.new ≡ [] }
    {
        TcpLink::begin_command(self)
    }
}
