//! A line in each place where it can come: as the first one, at a server that is up, and at one that is down.
use crate::faults::Fault;
use crate::rows::Row;
use std::alloc::Global;

/// Where a line stands.
#[derive(Clone, Copy)]
pub enum Place {
    First,
    /// Behind a cell of one server, which is up and has no quorum.
    Up,
    /// The same, but the disk failed in its first call, and the server is down.
    Down,
}

/// What the line does there.
#[derive(Clone, Copy)]
enum Outcome<'a> {
    /// It is taken, and tells nothing.
    Taken,
    /// It is a call, which is refused for want of a quorum.
    NoQuorum,
    /// It is refused for this reason.
    Refused(&'a str),
}

fn wanted(word: &str) -> Outcome<'_> {
    match word {
        "ok" => Outcome::Taken,
        "noquorum" => Outcome::NoQuorum,
        why => Outcome::Refused(why),
    }
}

/// The row of a line in a place, which stands at this line of standard input, and the words of its end.
pub fn row_of(
    alloc: Global,
    place: Place,
    text: &str,
    line: u32,
    word: &str,
) -> Result<(Row, String), Fault> {
    let mut row = Row::new(alloc);
    let number = match place {
        Place::First => 1u32,
        Place::Up => {
            row.add_line("cell 1 1000 pt", 0)?;
            2
        }
        Place::Down => {
            row.add_line("cell 1 1000 pt", 0)?;
            row.add_failing("disk 1")?;
            row.add_told(line, "restarted 1 diskfault")?;
            2
        }
    };
    row.add_line(text, 0)?;
    let end = match wanted(word) {
        Outcome::Taken => format!(in alloc; "0"),
        Outcome::NoQuorum => {
            row.add_told(line, "reply 1 1 noquorum 0 none no")?;
            format!(in alloc; "0")
        }
        Outcome::Refused(why) => {
            let told = format!(in alloc; "refused line {number} {why}")?;
            row.add_told(line, &told)?;
            format!(in alloc; "1 line {number} {why}")
        }
    };
    Ok((row, end?))
}
