//! How a run of a script ended.
ghost use Rattle.std.specs.Prelude.{◌≡◌};
ghost use Rattle.ubik_cell.specs.Runs.{status_of};

use cell_runs::Which;
use cell_script::Why;

/// How a run of a script ended.
#[derive(Clone, Copy, Debug, PartialEq, Eq)]
pub enum CellKind {
    /// The script was read to its end, and each of its lines was run.
    Done,
    /// This line, counted from 1, was refused; the lines before it were run.
    ScriptRefused { line: u32, why: Why },
    /// The source failed; the whole lines before that were run.
    ReadFault,
    /// The sink failed; what was written is a front of the trace.
    WriteFault,
    /// This line, counted from 1, passed a limit: it is one too many, or a packet was. What came before that was run and told.
    Limit { line: u32, which: Which },
    /// Memory ran out; what was written is the trace of the lines before.
    NoMemory,
    /// The program takes no words, and this one, counted from 1, was given. Nothing was read or written.
    Words { place: u32 },
}

impl CellKind {
    /// The exit status that stands for the end, 0 to 6.
    pub fn status(self) -> u8
        ensures { result ≡ status_of self }
    {
        match self {
            CellKind::Done => 0,
            CellKind::ScriptRefused { .. } => 1,
            CellKind::ReadFault => 2,
            CellKind::WriteFault => 3,
            CellKind::Limit { .. } => 4,
            CellKind::NoMemory => 5,
            CellKind::Words { .. } => 6,
        }
    }
}

/// The end of a run, with the exit status that stands for it.
#[derive(Clone, Copy, Debug, PartialEq, Eq)]
pub struct CellEnd {
    /// 0 to 6, one for each kind.
    pub status: u8,
    /// How the run ended.
    pub kind: CellKind,
}
