//! What the program measures: by which words each measure is asked, and what is done for it.
ghost use Rattle.std.specs.Prelude.{◌≤◌, length};
ghost use Rattle.page_file.specs.declared.label.TheConstants.{MAX_DATABASE_LEN};

use crate::draft_calls::Plan;
use crate::station_calls::{Blocks, Kept};
use crate::turns::Asked;
use crate::{draft_calls, node_calls, station_calls, transfers};
use pt_database::PtService;
use std::fmt;
use thiserror::Error;
use ubik_types::NoMemory;
use vl_database::VlService;

/// What `--help` tells.
pub const HELP: &str = "\
server_bench does a piece of work that a script of bench/ times, over a
database that standard input gives. Its words are one of

  node CALL TIMES            a server that is alone in its cell is asked calls
                             of the protection database; standard input is the
                             database file
  station CALL TIMES         the same calls, as frames, of a station of that
                             server, whose journal is ghost data
  turns KEPT EVERY BLOCKS    so many blocks of so many turns of a station, each
                             of which translates a name, over an empty
                             database; a line is told behind each block. KEPT
                             is ghost, or held for a journal in memory
  transfer open              two servers are opened over disks in memory, the
                             first one with that database file
  transfer send              the first one then sends its database to the
                             second
  protection TIMES WORDS     the call of the protection database that these
                             words name, as in a script, is made so often, each
                             time over a draft of its own; standard input is
                             the image
  location TIMES WORDS       the same of the location database
  --help                     tells this

CALL is newentry or nametoid. Without words the program reads nothing, and does
some of these over empty databases. Each that is done is a line. The status is 1
where the work failed, and 6 where the words have no meaning.
";

/// What is measured, and how often it is done.
#[derive(Clone, Copy)]
pub enum Measure<'a> {
    /// Calls that a server alone in its cell is asked.
    Node { asked: Asked, times: u16 },
    /// The same calls, of a station of that server.
    Station { asked: Asked, times: u16 },
    /// Turns of a station, in blocks.
    Turns(Blocks),
    /// Two servers are opened, and the first one sends its database to the second, or does not.
    Transfer { sends: bool },
    /// A call of the protection database over an image.
    Protection(Plan<'a>),
    /// A call of the location database over an image.
    Location(Plan<'a>),
}

/// The words of those that an empty database takes.
pub const FIXED: [&str; 11] = [
    "node newentry 3",
    "node nametoid 3",
    "station newentry 3",
    "station nametoid 3",
    "turns held 2 1",
    "transfer open",
    "transfer send",
    "protection 3 newentry smith 0 0",
    "protection 3 nametoid 1 smith",
    "location 3 createentry root.cell 4096 1 0 0 0 1 167772161 0 4",
    "location 3 probe",
];

/// Why a measure was not done.
#[derive(Clone, Copy, Debug, Drop, Error)]
pub enum Fault {
    #[error("the words have no meaning; --help tells those that have")]
    Words,
    #[error("standard input failed, or is longer than a database file")]
    Input,
    #[error("a call was not answered, or the database was not sent")]
    Refused,
    #[error("memory ran out")]
    NoMemory,
    #[error("standard output failed")]
    Output,
}

impl From<NoMemory> for Fault {
    fn from(_: NoMemory) -> Self {
        Fault::NoMemory
    }
}

impl Fault {
    /// The exit status.
    pub fn status(self) -> u8 {
        match self {
            Fault::Words => 6,
            Fault::Input | Fault::Refused | Fault::NoMemory | Fault::Output => 1,
        }
    }
}

/// A call that a server is asked, and how often.
fn asked_in(asked: &str, times: &str) -> Option<(Asked, u16)> {
    Some((Asked::read(asked)?, times.parse().ok()?))
}

/// Blocks of turns over this form of journal.
fn blocks_in(kept: &str, every: &str, count: &str) -> Option<Blocks> {
    Some(Blocks {
        kept: Kept::read(kept)?,
        every: every.parse().ok()?,
        count: count.parse().ok()?,
    })
}

/// A call in words, and how often it is made.
fn plan_in<'a>(times: &str, call: &'a [String]) -> Option<Plan<'a>> {
    let times = times.parse().ok()?;
    Some(Plan { times, call })
}

impl<'a> Measure<'a> {
    /// What these words measure; none where they have no meaning.
    pub fn read(words: &'a [String]) -> Option<Measure<'a>> {
        let [name, words @ ..] = words else {
            return None;
        };
        match (name.as_str(), words) {
            ("node", [asked, times]) => {
                let (asked, times) = asked_in(asked, times)?;
                Some(Measure::Node { asked, times })
            }
            ("station", [asked, times]) => {
                let (asked, times) = asked_in(asked, times)?;
                Some(Measure::Station { asked, times })
            }
            ("turns", [kept, every, count]) => Some(Measure::Turns(blocks_in(kept, every, count)?)),
            ("transfer", [what]) => match what.as_str() {
                "open" => Some(Measure::Transfer { sends: false }),
                "send" => Some(Measure::Transfer { sends: true }),
                _ => None,
            },
            ("protection", [times, call @ ..]) => Some(Measure::Protection(plan_in(times, call)?)),
            ("location", [times, call @ ..]) => Some(Measure::Location(plan_in(times, call)?)),
            _ => None,
        }
    }

    /// Does the work over this database file, or over this image; only turns are told as they are made.
    pub fn run(self, rt: &HostRuntime, database: &[u8]) -> Result<(), Fault>
        requires { length database.now ≤ MAX_DATABASE_LEN }
    {
        let alloc = rt.alloc();
        let done = match self {
            Measure::Node { asked, times } => {
                node_calls::is_done(alloc, database, asked, times)?
            }
            Measure::Station { asked, times } => {
                station_calls::is_done(alloc, database, asked, times)?
            }
            Measure::Turns(blocks) => {
                station_calls::tell_blocks(rt, blocks)?;
                true
            }
            Measure::Transfer { sends } => transfers::is_done(alloc, database, sends)?,
            Measure::Protection(plan) => {
                draft_calls::is_done::<PtService>(alloc, database, plan)?
            }
            Measure::Location(plan) => draft_calls::is_done::<VlService>(alloc, database, plan)?,
        };
        if done { Ok(()) } else { Err(Fault::Refused) }
    }
}

impl fmt::Display for Measure<'_> {
    fn fmt<W: fmt::Write>(&self, f: &mut fmt::Formatter<W>) -> fmt::Result {
        match self {
            Measure::Node { asked, times } => {
                let word = asked.word();
                write!(f, "node {word}: calls answered {times}")
            }
            Measure::Station { asked, times } => {
                let word = asked.word();
                write!(f, "station {word}: calls answered {times}")
            }
            Measure::Turns(blocks) => {
                let (word, every, count) = (blocks.kept.word(), blocks.every, blocks.count);
                write!(f, "turns {word}: {count} times {every} answered")
            }
            Measure::Transfer { sends: true } => {
                write!(f, "transfer send: both servers have the database")
            }
            Measure::Transfer { sends: false } => write!(f, "transfer open: servers opened 2"),
            Measure::Protection(plan) => write!(f, "protection {plan}"),
            Measure::Location(plan) => write!(f, "location {plan}"),
        }
    }
}
