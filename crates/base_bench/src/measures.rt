//! What the program measures: by which words each measure is asked, and what is done for it.
ghost use Rattle.std.specs.Prelude.{◌≢◌, IfErr};

use crate::{disk_writes, frame_text, log_text, store_commits, store_reads, xdr_text};
use std::alloc::Global;
use std::env::Args;
use std::fmt;
use thiserror::Error;
use ubik_types::NoMemory;

/// What `--help` tells.
pub const HELP: &str = "\
base_bench does a piece of work that a script of bench/ times. Its words are
one of

  xdr KIBIBYTES                  an XDR text is written and read back
  frame KIBIBYTES WRITES READS   a frame of at most 2048 KiB is written, once
                                 and WRITES times more, and read READS times
  log KIBIBYTES WRITES READS     the same of a log of puts of 48 bytes
  disk KIBIBYTES ROUNDS          in a file of at least 64 KiB of a disk in
                                 memory 192 bytes are written and synced,
                                 2000 times a round
  commits KIBIBYTES ROUNDS       blocks of 192 bytes are committed to a store
                                 with an image of at least 64 KiB, 200 a round
  openings KIBIBYTES TIMES       a store is opened over a committed log of
                                 blocks of at most 1024 KiB
  reads ROUNDS                   64 pages of 1024 bytes, which a store keeps,
                                 are read from it, once a round
  copies ROUNDS                  as many bytes are copied, once a round
  --help                         tells this

Without words it does each once at a small size. Each that is done is a line.
The status is 1 where the work failed, and 6 where the words have no meaning.
";

/// What is measured, with its sizes.
#[derive(Clone, Copy)]
pub enum Measure {
    /// An XDR text is written and read back.
    Xdr {
        kibibytes: u16,
    },
    /// A frame is written once and so often more, and so often read.
    Frame {
        kibibytes: u16,
        writes: u16,
        reads: u16,
    },
    /// A log is written once and so often more, and so often read.
    Log {
        kibibytes: u16,
        writes: u16,
        reads: u16,
    },
    /// Small writes in place of a file on a disk in memory, each synced.
    Disk {
        kibibytes: u16,
        rounds: u16,
    },
    /// Commits of a block to a store.
    Commits {
        kibibytes: u16,
        rounds: u16,
    },
    /// Openings of a store over a committed log.
    Openings {
        kibibytes: u16,
        times: u16,
    },
    /// Reads of pages that a store keeps.
    Reads {
        rounds: u16,
    },
    /// Copies of as many bytes.
    Copies {
        rounds: u16,
    },
}

/// Each measure at a small size.
pub const FIXED: [Measure; 8] = [
    Measure::Xdr { kibibytes: 1 },
    Measure::Frame {
        kibibytes: 1,
        writes: 1,
        reads: 1,
    },
    Measure::Log {
        kibibytes: 1,
        writes: 1,
        reads: 1,
    },
    Measure::Disk {
        kibibytes: 64,
        rounds: 1,
    },
    Measure::Commits {
        kibibytes: 64,
        rounds: 1,
    },
    Measure::Openings {
        kibibytes: 1,
        times: 1,
    },
    Measure::Reads { rounds: 2 },
    Measure::Copies { rounds: 2 },
];

/// Why a measure was not done.
#[derive(Clone, Copy, Debug, Drop, Error)]
pub enum Fault {
    #[error("the words have no meaning; --help tells those that have")]
    Words,
    #[error("what was read is not what was written")]
    Different,
    #[error("the store refused, or memory ran out")]
    Store,
    #[error("memory ran out")]
    NoMemory,
    #[error("standard output failed")]
    Output,
}

impl From<NoMemory> for Fault {
    ghost use Rattle.std.specs.Prelude.{◌≡◌};
    ghost use Rattle.base_bench.specs.declared.measures.Fault.TheVariants as fault;

    ghost from_gives = { λ _ e. e ≡ fault.NoMemory };

    fn from(_: NoMemory) -> Self {
        Fault::NoMemory
    }
}

impl Fault {
    /// The exit status.
    pub fn status(self) -> u8 {
        match self {
            Fault::Words => 6,
            Fault::Different | Fault::Store | Fault::NoMemory | Fault::Output => 1,
        }
    }
}

/// The next word, as a number.
fn number(words: &mut Args) -> Option<u16> {
    words.next()?.parse().ok()
}

impl Measure {
    /// The measure of this name, whose sizes are the next words; none where it has none of them.
    pub fn read(name: &str, words: &mut Args) -> Option<Measure> {
        let first = number(words)?;
        match name {
            "xdr" => Some(Measure::Xdr { kibibytes: first }),
            "frame" => Some(Measure::Frame {
                kibibytes: first,
                writes: number(words)?,
                reads: number(words)?,
            }),
            "log" => Some(Measure::Log {
                kibibytes: first,
                writes: number(words)?,
                reads: number(words)?,
            }),
            "disk" => Some(Measure::Disk {
                kibibytes: first,
                rounds: number(words)?,
            }),
            "commits" => Some(Measure::Commits {
                kibibytes: first,
                rounds: number(words)?,
            }),
            "openings" => Some(Measure::Openings {
                kibibytes: first,
                times: number(words)?,
            }),
            "reads" => Some(Measure::Reads { rounds: first }),
            "copies" => Some(Measure::Copies { rounds: first }),
            _ => None,
        }
    }

    /// Does the work. What was written is read as it was.
    pub fn run(self, alloc: Global) -> Result<(), Fault>
        ensures { IfErr result (λ fault. fault ≢ Fault.Different) }
    {
        let same = match self {
            Measure::Xdr { kibibytes } => xdr_text::goes_both_ways(alloc, kibibytes)?,
            Measure::Frame {
                kibibytes,
                writes,
                reads,
            } if 1 <= kibibytes && kibibytes <= frame_text::MOST => {
                frame_text::goes_both_ways(alloc, kibibytes, writes, reads)?
            }
            Measure::Log {
                kibibytes,
                writes,
                reads,
            } => log_text::goes_both_ways(alloc, kibibytes, writes, reads)?,
            Measure::Disk { kibibytes, rounds } if kibibytes >= disk_writes::LEAST => {
                disk_writes::worn_disk(alloc, kibibytes, rounds)?;
                true
            }
            Measure::Commits { .. }
            | Measure::Openings { .. }
            | Measure::Reads { .. }
            | Measure::Copies { .. } => {
                self.run_store(alloc)?;
                true
            }
            _ => return Err(Fault::Words),
        };
        if same { Ok(()) } else { Err(Fault::Different) }
    }

    /// Does the work of a measure of stores.
    fn run_store(self, alloc: Global) -> Result<(), Fault>
        ensures { IfErr result (λ fault. fault ≢ Fault.Different) }
    {
        let ended = match self {
            Measure::Commits { kibibytes, rounds } if kibibytes >= store_commits::LEAST => {
                store_commits::commits(alloc, kibibytes, rounds)
            }
            Measure::Openings { kibibytes, times } if kibibytes <= store_commits::MOST => {
                store_commits::openings(alloc, kibibytes, times)
            }
            Measure::Reads { rounds } => store_reads::reads(alloc, rounds),
            Measure::Copies { rounds } => return Ok(store_reads::copies(alloc, rounds)?),
            _ => return Err(Fault::Words),
        };
        ended.map_err(|_| Fault::Store)
    }
}

impl fmt::Display for Measure {
    fn fmt<W: fmt::Write>(&self, f: &mut fmt::Formatter<W>) -> fmt::Result {
        match self {
            Measure::Xdr { kibibytes } => write!(f, "xdr of {kibibytes} KiB: writes 1, reads 1"),
            Measure::Frame {
                kibibytes,
                writes,
                reads,
            } => write!(
                f,
                "frame of {kibibytes} KiB: writes 1 + {writes}, reads {reads}"
            ),
            Measure::Log {
                kibibytes,
                writes,
                reads,
            } => write!(
                f,
                "log of {kibibytes} KiB: writes 1 + {writes}, reads {reads}"
            ),
            Measure::Disk { kibibytes, rounds } => {
                write!(
                    f,
                    "disk of {kibibytes} KiB: rounds {rounds}, each 2000 writes with a sync"
                )
            }
            Measure::Commits { kibibytes, rounds } => {
                write!(
                    f,
                    "commits to {kibibytes} KiB: rounds {rounds}, each 200 blocks"
                )
            }
            Measure::Openings { kibibytes, times } => {
                write!(f, "openings over a log of {kibibytes} KiB: {times}")
            }
            Measure::Reads { rounds } => write!(
                f,
                "reads of 64 KiB that are kept: rounds {rounds}"
            ),
            Measure::Copies { rounds } => write!(f, "copies of 64 KiB: rounds {rounds}"),
        }
    }
}
