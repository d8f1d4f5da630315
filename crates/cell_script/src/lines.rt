//! The lines of a script, understood.
ghost use Rattle.std.specs.Prelude.{◌≡◌, IfOk};
ghost use Rattle.cell_script.specs.Meaning.{ask_line, server_of, line_of_server, with_number, or_syntax, line_of_none, line_of_one, line_of_two, line_of_three, line_of_counted, whole_line, is_idle, line_of, HasBounds};

use crate::arguments::{cell_line, server_of, stop_line};
use crate::readers::MAX_LINE;
use crate::splits::{Words, split_words};
use disk_base::Fill;
use script_words::{number, number_within};
use std::alloc::Global;
use ubik_types::{Bytes, NoMemory};

/// The latest clock at which a cell is opened, in seconds.
pub const MAX_CLOCK: u32 = 1_000_000_000;

/// The most seconds of a line by which clocks go on.
pub const MAX_TICK: u32 = 50_000;

/// The most changing calls of a disk that a `stop` lets pass.
pub const MAX_STOP: u32 = 1_000_000;

/// Why a line of a script is refused: the first of these that holds, in the order syntax, number, cell, server,
/// state, packet, skew.
#[derive(Clone, Copy, Debug, PartialEq, Eq)]
pub enum Why {
    /// The line has no meaning: its first word or the kind of its cell is none, it has another count of words, a
    /// blank stands first or last, it has more than [`MAX_LINE`] bytes, or its call is outside its word form.
    Syntax,
    /// A number is not written in decimal, without sign and needless zeros, or is out of its range.
    Number,
    /// No cell stands yet; or one stands already, where the line opens one.
    Cell,
    /// The cell has no server of this number.
    Server,
    /// The server is down; or it is up, where the line opens it.
    State,
    /// No packet of this number was sent.
    Packet,
    /// Two clocks would part by more than 7 seconds.
    Skew,
}

/// What a database is of.
#[derive(Clone, Copy, Debug, PartialEq, Eq)]
pub enum Kind {
    /// Where volumes are: `vl`.
    Location,
    /// Users and groups: `pt`.
    Protection,
}

/// A line of a script. Servers and packets are numbered from 1; a packet of another number was never sent.
#[derive(Drop)]
pub enum Line {
    /// An empty line or a comment.
    Nothing,
    /// Opens a cell of so many servers that keep a database of this kind; the clock is in seconds.
    Cell {
        servers: u32,
        clock: u32,
        kind: Kind,
    },
    /// Adds so many seconds to the clock of a server.
    Tick {
        server: u64,
        seconds: u32,
    },
    /// Adds so many seconds to all clocks.
    TickAll {
        seconds: u32,
    },
    /// A beacon turn of a server.
    Beacon {
        server: u64,
    },
    /// A recovery turn of a server.
    Recover {
        server: u64,
    },
    /// Hands a packet to the server that it was sent to.
    Deliver {
        packet: u64,
    },
    /// Loses a packet.
    Drop {
        packet: u64,
    },
    /// Loses the packets that wait for a server.
    DropAll {
        server: u64,
    },
    /// Hands over the packets that wait, and those that are sent in answer.
    DeliverAll,
    /// Asks a server a call, which is in words. The server is none where its word is no number of a server, which
    /// is judged after the call.
    Ask {
        server: Option<u64>,
        call: Words,
    },
    /// Arms the disk of a server: it lets so many changing calls pass and stops in the next one. The fill says what
    /// that leaves of the bytes which were not synced.
    Stop {
        server: u64,
        calls: u32,
        fill: Fill,
    },
    /// Stops a server.
    Crash {
        server: u64,
    },
    /// Opens a server that is down.
    Restart {
        server: u64,
    },
    /// Tells the state of a server.
    Show {
        server: u64,
    },
}

/// What a line means, or why it is refused, as far as the line alone tells. The error is want of memory.
pub fn line_meaning(alloc: Global, line: &[u8]) -> Result<Result<Line, Why>, NoMemory>
    ensures meaning { IfOk result (λ meaning. meaning ≡ line_of line.now) }
    ensures bounds { IfOk result (λ meaning. IfOk meaning HasBounds) }
{
    if line.len() > MAX_LINE {
        return Ok(Err(Why::Syntax));
    }
    if is_idle(line) {
        return Ok(Ok(Line::Nothing));
    }
    match split_words(alloc, line)? {
        None => Ok(Err(Why::Syntax)),
        Some(words) => Ok(whole_line(words)),
    }
}

/// Whether a line is empty or a comment.
fn is_idle(line: &[u8]) -> bool
    ensures { result ≡ is_idle line.now }
{
    match line {
        [] => true,
        [first, ..] => *first == b'#',
    }
}

/// The line of these words, in the whole language.
fn whole_line(mut words: Words) -> Result<Line, Why>
    ensures { result ≡ whole_line words }
{
    match words.as_slice() {
        [] => Err(Why::Syntax),
        [first, ..] if first.as_slice() == b"ask".as_slice() => {
            let _ = words.take_first();
            ask_line(words)
        }
        [first, arguments @ ..] => line_of_counted(first.as_slice(), arguments),
    }
}

/// `ask SERVER CALL..`, with one word of a call at least.
fn ask_line(mut arguments: Words) -> Result<Line, Why>
    ensures { result ≡ ask_line arguments }
{
    let first = arguments.take_first().ok_or(Why::Syntax)?;
    if arguments.as_slice().is_empty() {
        return Err(Why::Syntax);
    }
    let server = server_of(first.as_slice());
    let call = arguments;
    Ok(Line::Ask { server, call })
}

/// A line by its first word and how many words stand behind it.
fn line_of_counted(first: &[u8], arguments: &[Bytes]) -> Result<Line, Why>
    ensures { result ≡ line_of_counted first.now arguments.now }
{
    match arguments {
        [] => line_of_none(first),
        [a] => line_of_one(first, a.as_slice()),
        [a, b] => line_of_two(first, a.as_slice(), b.as_slice()),
        [a, b, c] => line_of_three(first, a.as_slice(), b.as_slice(), c.as_slice()),
        _ => Err(Why::Syntax),
    }
}

/// `deliverall`.
fn line_of_none(first: &[u8]) -> Result<Line, Why>
    ensures { result ≡ line_of_none first.now }
{
    match first {
        b"deliverall" => Ok(Line::DeliverAll),
        _ => Err(Why::Syntax),
    }
}

/// `tickall SECONDS`, 1 to [`MAX_TICK`]; `deliver PACKET` or `drop PACKET`; or a line that names a server.
fn line_of_one(first: &[u8], word: &[u8]) -> Result<Line, Why>
    ensures { result ≡ line_of_one first.now word.now }
{
    match first {
        b"tickall" => Ok(Line::TickAll {
            seconds: number_within(word, 1, MAX_TICK).ok_or(Why::Number)?,
        }),
        b"deliver" => Ok(Line::Deliver {
            packet: number(word).ok_or(Why::Number)?,
        }),
        b"drop" => Ok(Line::Drop {
            packet: number(word).ok_or(Why::Number)?,
        }),
        _ => line_at_server(first, word),
    }
}

/// The name of a turn, a loss, a crash, an opening or a showing, and a server.
fn line_at_server(first: &[u8], word: &[u8]) -> Result<Line, Why>
    ensures { result ≡ or_syntax (with_number (line_of_server first.now) (server_of word.now)) }
{
    match first {
        b"beacon" => Ok(Line::Beacon {
            server: server_of(word).ok_or(Why::Number)?,
        }),
        b"recover" => Ok(Line::Recover {
            server: server_of(word).ok_or(Why::Number)?,
        }),
        b"dropall" => Ok(Line::DropAll {
            server: server_of(word).ok_or(Why::Number)?,
        }),
        b"crash" => Ok(Line::Crash {
            server: server_of(word).ok_or(Why::Number)?,
        }),
        b"restart" => Ok(Line::Restart {
            server: server_of(word).ok_or(Why::Number)?,
        }),
        b"show" => Ok(Line::Show {
            server: server_of(word).ok_or(Why::Number)?,
        }),
        _ => Err(Why::Syntax),
    }
}

/// `tick SERVER SECONDS`, with 1 to [`MAX_TICK`] seconds.
fn line_of_two(first: &[u8], server: &[u8], seconds: &[u8]) -> Result<Line, Why>
    ensures { result ≡ line_of_two first.now server.now seconds.now }
{
    match first {
        b"tick" => {
            let server = server_of(server).ok_or(Why::Number)?;
            let seconds = number_within(seconds, 1, MAX_TICK).ok_or(Why::Number)?;
            Ok(Line::Tick { server, seconds })
        }
        _ => Err(Why::Syntax),
    }
}

/// `cell SERVERS CLOCK KIND` or `stop SERVER CALLS FILL`.
fn line_of_three(first: &[u8], a: &[u8], b: &[u8], c: &[u8]) -> Result<Line, Why>
    ensures { result ≡ line_of_three first.now a.now b.now c.now }
{
    match first {
        b"cell" => cell_line(a, b, c),
        b"stop" => stop_line(a, b, c),
        _ => Err(Why::Syntax),
    }
}
