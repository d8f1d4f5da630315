//! How a command ends.
ghost use Rattle.std.specs.Prelude.{◌≡◌};
ghost use Rattle.tool_base.specs.Stops.{status_of, stop_status};

use std::fmt;
use ubik_types::NoMemory;

/// How a command ended, for who called it.
#[derive(Clone, Copy, Debug, PartialEq, Eq)]
pub struct ToolEnd {
    pub status: u8,
}

/// Why a call or a command is refused. Its text stands behind `refused `.
#[derive(Clone, Copy, Debug, PartialEq, Eq)]
pub enum Refusal {
    /// A rule of the database, by its number.
    Rule(u32),
    LineFull,
    TooLarge,
    Malformed,
    BadRecord,
}

/// Why a command ended before its last call.
#[derive(Clone, Copy, Debug, PartialEq, Eq)]
pub enum Stop {
    Refused(Refusal),
    /// No host took the call.
    NoServer,
    /// A call that writes may have taken place.
    OutcomeUnknown,
    /// A sink failed.
    WriteFault,
    NoMemory,
}

impl From<NoMemory> for Stop {
    ghost use Rattle.std.specs.Prelude.{◌≡◌};
    ghost use Rattle.tool_base.specs.declared.stops.Stop.TheVariants as stop;

    ghost from_gives = { λ _ e. e ≡ stop.NoMemory };

    fn from(_: NoMemory) -> Self {
        Stop::NoMemory
    }
}

impl fmt::Display for Refusal {
    ghost use Rattle.std.specs.Prelude.{Some};
    ghost use Rattle.tool_base.specs.Stops.{refusal_text};

    ghost output = { λ r. Some (refusal_text r) };

    fn fmt<W: fmt::Write>(&self, f: &mut fmt::Formatter<W>) -> fmt::Result {
        match self {
            Refusal::Rule(number) => write!(f, "{number}"),
            Refusal::LineFull => write!(f, "line full"),
            Refusal::TooLarge => write!(f, "too large"),
            Refusal::Malformed => write!(f, "malformed"),
            Refusal::BadRecord => write!(f, "bad record"),
        }
    }
}

impl Stop {
    /// The status with which the command ends.
    pub fn status(self) -> u8
        ensures { result ≡ stop_status self }
    {
        match self {
            Stop::Refused(_) => 1,
            Stop::NoServer => 3,
            Stop::WriteFault => 4,
            Stop::NoMemory => 5,
            Stop::OutcomeUnknown => 6,
        }
    }
}

impl ToolEnd {
    /// The end of a command that went so.
    pub fn of(end: Result<(), Stop>) -> ToolEnd
        ensures { result.status ≡ status_of end }
    {
        let status = match end {
            Ok(()) => 0,
            Err(stop) => stop.status(),
        };
        ToolEnd { status }
    }
}
