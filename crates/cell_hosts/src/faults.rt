//! Why the words of a program are refused before its command is looked at.
use std::error::Error;
use std::fmt;

/// Why the words of a program are refused before its command is looked at. Its text is what the program writes behind
/// its own name.
#[derive(Clone, Copy, Debug, PartialEq, Eq)]
pub enum HostsFault {
    /// No word stands behind `-hosts`.
    MissingHosts,
    /// `-hosts` stands twice.
    HostsTwice,
    /// A cell is given by its hosts, and not by a name.
    Cell,
    /// There is no folder that describes cells.
    Config,
}

impl fmt::Display for HostsFault {
    ghost use Rattle.std.specs.Prelude.{Some};
    ghost use Rattle.cell_hosts.specs.Texts.{fault_text};

    ghost output = { λ fault. Some (fault_text fault) };

    fn fmt<W: fmt::Write>(&self, f: &mut fmt::Formatter<W>) -> fmt::Result {
        match self {
            HostsFault::MissingHosts => write!(f, "missing value for -hosts"),
            HostsFault::HostsTwice => write!(f, "-hosts given twice"),
            HostsFault::Cell => write!(
                f,
                "no -cell here: give its servers, -hosts ADDRESS,ADDRESS,.."
            ),
            HostsFault::Config => write!(
                f,
                "no -config here: give the servers of the cell, -hosts ADDRESS,ADDRESS,.."
            ),
        }
    }
}

impl Error for HostsFault {}
